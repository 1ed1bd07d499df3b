// Greys, differences and readings for C and Rust. A recipe is a block of 98 bytes (crate `blocks`). Each
// call returns document 01's number, 0 where it is accepted; on a refusal nothing is written.
#![tactic(auto)]

ghost use Rattle.std.specs.Prelude.{◌≡◌, ℕ, ℤ};
ghost use Rattle.spec.specs.Recipe.{recipe};
ghost use Rattle.spec.specs.Picture.{picture, pictured};
ghost use Rattle.spec.specs.Gray.{gray_reading, same_sum, same_gray, same_leftover, same_quotient, reading as reading_of};
ghost use Rattle.spec.specs.Refusals.{first, lent, answer as answer_of, reading_checks};
ghost use Rattle.gray.specs.Rounded.{Rounded};
ghost use Rattle.blur.specs.Blurred.{Blurred};
ghost use Rattle.difference.specs.Differenced.{Differenced};
ghost use Rattle.sample.specs.Sampled.{chosen, sample_told, sampled_told};
ghost use Rattle.blocks.specs.Given.{given};

use blocks::filter_of;
use gray::Shade;
use sample::{Quantity, Sample, reading};
use spec::{Image, Refusal, outcome};

// The greys of a row of sums and their leftovers: 1 to 4, 7, 11.
#[unsafe(no_mangle)]
pub extern "C" fn bore_round(
    block: &[u8; 98],
    sums: &[u64],
    out: &mut [u8],
    leftovers: &mut [i64],
) -> u8
    ensures { Rounded (recipe (given block.now)) sums.now out.old leftovers.old
        result out.new leftovers.new }
{
    outcome(gray::round(filter_of(block), sums, out, leftovers))
}

// The blur of a picture in its own size, by the inside weight, and its leftovers: 1 to 8.
#[unsafe(no_mangle)]
pub extern "C" fn bore_blur(
    block: &[u8; 98],
    width: usize,
    height: usize,
    pixels: &[u8],
    out: &mut [u8],
    leftovers: &mut [i64],
    cells: &mut [u64],
) -> u8
    ensures { Blurred (recipe (given block.now)) (picture width height pixels.now)
        out.old leftovers.old cells.old result out.new leftovers.new cells.new }
{
    let image = Image {
        width,
        height,
        pixels,
    };
    outcome(blur::blur(filter_of(block), image, out, leftovers, cells))
}

// The difference of two recipes at each picture place: the first's 1 to 4, then the second's 1 to 4, then
// 5 to 8, 12, 13.
#[unsafe(no_mangle)]
pub extern "C" fn bore_difference(
    a: &[u8; 98],
    b: &[u8; 98],
    width: usize,
    height: usize,
    pixels: &[u8],
    out: &mut [i16],
    cells: &mut [u64],
) -> u8
    ensures { Differenced (recipe (given a.now)) (recipe (given b.now)) (picture width height pixels.now)
        out.old cells.old result out.new cells.new }
{
    let image = Image {
        width,
        height,
        pixels,
    };
    outcome(difference::difference(filter_of(a), filter_of(b), image, out, cells))
}

// The reading at a picture place, of the recipe that is given.
fn read(
    block: &[u8; 98],
    image: Image,
    column: usize,
    row: usize,
    quantity: Quantity,
) -> Result<Sample, Refusal>
    ensures { let g = recipe (given block.now) in let p = pictured image.entry in
        sampled_told result ≡ answer_of (reading_checks g p column row) (reading_of (chosen quantity) g p column row) }
{
    reading(filter_of(block), image, column, row, quantity)
}

// The grey that was read, and its leftover.
fn shade_of(sample: Sample) -> Shade
    requires { (g : ℕ) × (l : ℤ) × (sample_told sample ≡ gray_reading g l) }
    ensures { sample_told sample ≡ gray_reading result.gray result.leftover }
{
    let Sample::Gray { gray, leftover } = sample else {
        unreachable!()
    };
    Shade { gray, leftover }
}

// The grey at one picture place, and its leftover: 1 to 6, 15.
#[unsafe(no_mangle)]
pub extern "C" fn bore_sample_gray(
    block: &[u8; 98],
    width: usize,
    height: usize,
    pixels: &[u8],
    column: usize,
    row: usize,
    gray: &mut u8,
    leftover: &mut i64,
) -> u8
    ensures { let g = recipe (given block.now) in let p = picture width height pixels.now in
        let cs = reading_checks g p column row in
        (result ≡ first cs) × (gray.new ≡ lent cs (same_gray g p column row) gray.old)
        × (leftover.new ≡ lent cs (same_leftover g p column row) leftover.old) }
{
    let image = Image {
        width,
        height,
        pixels,
    };
    match read(block, image, column, row, Quantity::Gray) {
        Ok(sample) => {
            let shade = shade_of(sample);
            *gray = shade.gray;
            *leftover = shade.leftover;
            0
        }
        Err(refusal) => refusal.number(),
    }
}

// The exact sum at one picture place: 1 to 6, 15.
#[unsafe(no_mangle)]
pub extern "C" fn bore_sample_sum(
    block: &[u8; 98],
    width: usize,
    height: usize,
    pixels: &[u8],
    column: usize,
    row: usize,
    sum: &mut u64,
) -> u8
    ensures { let g = recipe (given block.now) in let p = picture width height pixels.now in
        let cs = reading_checks g p column row in
        (result ≡ first cs) × (sum.new ≡ lent cs (same_sum g p column row) sum.old) }
{
    let image = Image {
        width,
        height,
        pixels,
    };
    match read(block, image, column, row, Quantity::Sum) {
        Ok(sample) => {
            let Sample::Sum(exact) = sample else {
                unreachable!()
            };
            *sum = exact;
            0
        }
        Err(refusal) => refusal.number(),
    }
}

// The quotient of sum and inside weight at one picture place: 1 to 6, 15.
#[unsafe(no_mangle)]
pub extern "C" fn bore_sample_mean(
    block: &[u8; 98],
    width: usize,
    height: usize,
    pixels: &[u8],
    column: usize,
    row: usize,
    mean: &mut f64,
) -> u8
    ensures { let g = recipe (given block.now) in let p = picture width height pixels.now in
        let cs = reading_checks g p column row in
        (result ≡ first cs) × (mean.new ≡ lent cs (same_quotient g p column row) mean.old) }
{
    let image = Image {
        width,
        height,
        pixels,
    };
    match read(block, image, column, row, Quantity::Mean) {
        Ok(sample) => {
            let Sample::Mean(quotient) = sample else {
                unreachable!()
            };
            *mean = quotient;
            0
        }
        Err(refusal) => refusal.number(),
    }
}
