// Document 01's reading at one picture place, without work cells; document 02's leftover beside the grey,
// and its inside weight.
#![tactic(auto)]

ghost use Rattle.std.specs.Prelude.{◌≡◌, ◌^◌, ◌≤◌, IfOk};
ghost use Rattle.spec.specs.Recipe.{recipe};
ghost use Rattle.spec.specs.Picture.{picture, pictured};
ghost use Rattle.spec.specs.Gray.{ratio as ratioOf, expressed, reading as reading_of};
ghost use Rattle.spec.specs.Refusals.{answer, reading_checks};
ghost use Rattle.direct.specs.Answers.{weighed_sum, point_told};
ghost use Rattle.sample.specs.Bounded.{Bounded};
ghost use Rattle.sample.specs.Sampled.{chosen, sample_told, sampled_told};

use direct::{Point, point_sum};
use gray::{Divisor, Shade};
use spec::{Filter, Image, Refusal};

// What is read: the grey with its leftover, the exact sum, or the quotient of sum and weight.
#[derive(Clone, Copy, Debug, PartialEq, Eq)]
pub enum Quantity {
    Gray,
    Sum,
    Mean,
}

// What was read, in the same three cases.
#[derive(Clone, Copy)]
pub enum Sample {
    Gray { gray: u8, leftover: i64 },
    Sum(u64),
    Mean(f64),
}

// The quotient of a sum and a weight that 64-bit floats hold, by one division. (So is `ratio` in `filter`,
// which asks the same; what one crate offers another asks nothing.)
fn mean(sum: u64, weight: u64) -> f64
    requires { (sum ≤ 2 ^ 53) × (weight ≤ 2 ^ 53) }
    ensures { result ≡ ratioOf sum weight }
{
    (sum as f64) / (weight as f64)
}

// A sum over a weight, as the quantity that is chosen.
#[tactic(auto, unfolding(spec::specs::Gray::expressed))]
fn express(point: Point, quantity: Quantity) -> Sample
    requires { Bounded point }
    ensures { sample_told result ≡ expressed (chosen quantity) point.weight point.sum }
{
    match quantity {
        Quantity::Gray => {
            let Shade { gray, leftover } = Divisor::of(point.weight).shade(point.sum);
            Sample::Gray { gray, leftover }
        }
        Quantity::Sum => Sample::Sum(point.sum),
        Quantity::Mean => Sample::Mean(mean(point.sum, point.weight)),
    }
}

// The sum at a picture place and the inside weight there. The pixels are a slice of their own: of such a
// parameter it is known that they are bytes, and so that the sum is at most 255 times the weight.
fn sum_of_bytes(
    filter: Filter,
    width: usize,
    height: usize,
    pixels: &[u8],
    column: usize,
    row: usize,
) -> Result<Point, Refusal>
    ensures told { let p = picture width height pixels.now in
        point_told result ≡ answer (reading_checks (recipe filter) p column row) (weighed_sum (recipe filter) p column row) }
    ensures bounded { IfOk result Bounded }
{
    let image = Image {
        width,
        height,
        pixels,
    };
    point_sum(filter, image, column, row)
}

// The reading at a picture place, from the sum of the same-size blur and the inside weight: refused by 1 to
// 6 and 15.
pub fn reading(
    filter: Filter,
    image: Image,
    column: usize,
    row: usize,
    quantity: Quantity,
) -> Result<Sample, Refusal>
    ensures { let p = pictured image.entry in
        sampled_told result ≡ answer (reading_checks (recipe filter) p column row) (reading_of (chosen quantity) (recipe filter) p column row) }
{
    let point = sum_of_bytes(filter, image.width, image.height, image.pixels, column, row)?;
    Ok(express(point, quantity))
}
