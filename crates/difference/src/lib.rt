// Document 01's difference of two recipes: both one passes over the picture, row by row.
#![tactic(auto)]

ghost use Rattle.std.specs.Prelude.{◌≡◌, ◌+◌, ◌*◌, ◌/◌, ◌≤◌, ◌<◌, length, get_or, take, drop};
ghost use Rattle.spec.specs.Words.{tab};
ghost use Rattle.spec.specs.Recipe.{recipe};
ghost use Rattle.spec.specs.Picture.{picture, pictured, largest_gray, full_width_of, full_height_of};
ghost use Rattle.spec.specs.Refusals.{first, answer, told, outcome, size_checks, start_checks};
ghost use Rattle.filter.proofs.Measuring.{Known};
ghost use Rattle.spec.specs.Gray.{nearest_difference, places, difference as differenceOf};
ghost use Rattle.rows.specs.Streaming.{picture_of, Streamed, Due, Came};
ghost use Rattle.gray.specs.Division.{Divides, Bounded};
ghost use Rattle.difference.specs.Pairs.{BothTaken, BothAccepted, Moderate, measured_checks, grown_cells, plan_checks, plan_of};
ghost use Rattle.difference.specs.Differenced.{Differenced};

use filter::{HEAVIEST, Measures, full_size, measure};
use gray::Divisor;
use rows::{advance, skip};
use spec::{Filter, Image, Refusal};
use stream::{State, start};

// (x - y) over what `by` divides by, to the nearest whole number, a half away from zero. It is rounded
// once, whatever the sign, so that a loop has no branch on the sign.
fn signed(x: u64, y: u64, by: Divisor) -> i16
    requires { Divides by.weight by × (x ≤ largest_gray * by.weight) × (y ≤ largest_gray * by.weight) }
    ensures { result ≡ nearest_difference x y by.weight }
{
    let size = by.quotient(x.abs_diff(y)) as i16;
    if y <= x { size } else { -size }
}

// A row of the sums of one recipe, and its weight.
#[derive(Clone, Copy)]
struct Sums<'a> {
    weight: u64,
    sums: &'a [u64],
}

// The differences of two rows of sums; `by` divides by the product of the weights.
fn difference_row(a: Sums, b: Sums, by: Divisor, out: &mut [i16])
    requires { Divides (a.weight * b.weight) by × Bounded largest_gray a.weight a.sums.now × Bounded largest_gray b.weight b.sums.now
        × (length a.sums.now ≡ length out.old) × (length b.sums.now ≡ length out.old) }
    ensures { out.new ≡ tab (length out.old)
        (λ k. nearest_difference (get_or a.entry.sums.now k 0 * b.entry.weight) (get_or b.entry.sums.now k 0 * a.entry.weight)
        (a.entry.weight * b.entry.weight)) }
{
    for (k, difference) in out.iter_mut().enumerate() {
        *difference = signed(a.sums[k] * b.weight, b.sums[k] * a.weight, by);
    }
}

// The one pass of a recipe over a picture: where it stands, the first grown column that is taken, the
// recipe's weight, and the row and the work cells that are its own.
#[derive(Drop)]
struct Pass<'a> {
    state: State,
    left: usize,
    weight: u64,
    row: &'a mut [u64],
    cells: &'a mut [u64],
}

impl<'a> Pass<'a> {
    // The next grown row comes.
    fn advance(&mut self, pixels: &[u8])
        requires { Due self.old.state pixels.now self.old.row.now self.old.cells.now }
        ensures { Came self.old.state self.new.state pixels.now self.new.row.now self.new.cells.now
            × (self.new.left ≡ self.old.left) × (self.new.weight ≡ self.old.weight) }
    {
        let next = advance(self.state, pixels, self.row, self.cells).unwrap();
        self.state = next.state;
    }

    // What is taken of it.
    fn taken(&self) -> Sums<'_>
        requires { self.now.left + self.now.state.width ≤ length self.now.row.now }
        ensures { (result.weight ≡ self.now.weight) × (result.sums.now ≡ take self.now.state.width (drop self.now.left self.now.row.now)) }
    {
        let right = self.left + self.state.width;
        Sums {
            weight: self.weight,
            sums: &self.row[self.left..right],
        }
    }
}

// The next grown row of each.
fn next_rows(a: &mut Pass, b: &mut Pass, pixels: &[u8])
    requires { Due a.old.state pixels.now a.old.row.now a.old.cells.now × Due b.old.state pixels.now b.old.row.now b.old.cells.now }
    ensures { Came a.old.state a.new.state pixels.now a.new.row.now a.new.cells.now × (a.new.left ≡ a.old.left) × (a.new.weight ≡ a.old.weight)
        × Came b.old.state b.new.state pixels.now b.new.row.now b.new.cells.now × (b.new.left ≡ b.old.left) × (b.new.weight ≡ b.old.weight) }
{
    a.advance(pixels);
    b.advance(pixels);
}

// The differences of all picture rows, from two passes whose next grown rows are the first that are taken.
fn differences(mut a: Pass, mut b: Pass, by: Divisor, pixels: &[u8], out: &mut [i16])
    requires { BothTaken a b by pixels.now × (length out.old ≡ a.state.width * a.state.height) }
    ensures { let p = picture_of a.entry.state pixels.now in
        out.new ≡ places p (differenceOf (recipe a.entry.state.filter) (recipe b.entry.state.filter) p) }
{
    let width = a.state.width;
    // by number: of an iterator over parts that are written nothing is known afterwards
    for j in 0..a.state.height {
        next_rows(&mut a, &mut b, pixels);
        let first = a.taken();
        let second = b.taken();
        let from = j * width;
        let to = from + width;
        difference_row(first, second, by, &mut out[from..to]);
    }
}

// A recipe, and what measuring it told.
#[derive(Clone, Copy)]
struct Operand {
    filter: Filter,
    known: Measures,
}

impl Operand {
    // The work cells of its one pass: twice the grown size.
    fn cells(self, image: Image) -> usize
        requires { Moderate self.known image.width image.height }
        ensures { result ≡ grown_cells self.known image.entry.width image.entry.height }
    {
        2 * ((image.width + self.known.row_order) * (image.height + self.known.column_order))
    }

    // Starts its one pass, and passes over the grown rows above the first that is taken.
    fn begin(
        self,
        width: usize,
        height: usize,
        pixels: &[u8],
        row: &mut [u64],
        cells: &mut [u64],
    ) -> State
        requires { let r = recipe self.filter in
            (first (start_checks r width height (length cells.old)) ≡ 0) × (length pixels.now ≡ width * height)
            × (self.known.column_order / 2 ≤ full_height_of r height) × (length row.old ≡ full_width_of r width) }
        ensures { Streamed self.filter (picture width height pixels.now) (self.known.column_order / 2) result cells.new }
    {
        let first = start(self.filter, width, height, cells).unwrap();
        skip(first, self.known.column_order / 2, pixels, row, cells)
    }

    // Its one pass before the first grown row that is taken, with a row and work cells of its own.
    fn pass<'a>(self, image: Image, row: &'a mut [u64], cells: &'a mut [u64]) -> Pass<'a>
        requires { let r = recipe self.filter in
            (first (start_checks r image.width image.height (length cells.old)) ≡ 0) × (length image.pixels.now ≡ image.width * image.height)
            × (self.known.column_order / 2 ≤ full_height_of r image.height) × (length row.old ≡ full_width_of r image.width) }
        ensures { Streamed self.filter (pictured image.entry) (self.known.column_order / 2) result.state result.cells.now
            × (result.left ≡ self.known.row_order / 2) × (result.weight ≡ self.known.gain) × (length result.row.now ≡ length row.old) }
    {
        let state = self.begin(image.width, image.height, image.pixels, row, cells);
        Pass {
            state,
            left: self.known.row_order / 2,
            weight: self.known.gain,
            row,
            cells,
        }
    }
}

// The differences of two accepted recipes and an accepted picture; the first recipe has the work cells
// before `middle`, the second those from there on.
fn run(a: Operand, b: Operand, image: Image, middle: usize, out: &mut [i16], cells: &mut [u64])
    requires { BothAccepted a b (pictured image) middle (length cells.old) × (length out.old ≡ image.width * image.height) }
    ensures { let p = pictured image.entry in
        out.new ≡ places p (differenceOf (recipe a.filter) (recipe b.filter) p) }
{
    // 1,024 + 255, the widest grown row
    let mut a_row = [0u64; 1279];
    let mut b_row = [0u64; 1279];
    let a_width = image.width + a.known.row_order;
    let b_width = image.width + b.known.row_order;
    let (a_cells, b_cells) = cells.split_at_mut(middle);
    let first = a.pass(image, &mut a_row[..a_width], a_cells);
    let second = b.pass(image, &mut b_row[..b_width], b_cells);
    let by = Divisor::of(a.known.gain * b.known.gain);
    differences(first, second, by, image.pixels, out);
}

// 12 and 13: the reaches differ in parity on an axis, or the product of the weights is too large. That
// product need not fit 64 bits, so the limit, that of a single weight, is divided by one of them.
fn pair_refusal(m: Measures, n: Measures) -> Result<(), Refusal>
    requires { 0 < m.gain }
    ensures { outcome result ≡ first (measured_checks m n) }
{
    if m.row_order % 2 != n.row_order % 2 || m.column_order % 2 != n.column_order % 2 {
        return Err(Refusal::ParityDiffers);
    }
    if HEAVIEST / m.gain < n.gain {
        return Err(Refusal::ProductTooHeavy);
    }
    Ok(())
}

// The first of the second recipe's work cells, and how many are needed.
#[derive(Clone, Copy)]
struct Plan {
    middle: usize,
    needed: usize,
}

// The sizes for outputs and work cells of these lengths, by the checks 6, 7, 8, 12 and 13.
fn planned(a: Operand, b: Operand, image: Image, out: usize, cells: usize) -> Result<Plan, Refusal>
    requires { Moderate a.known image.width image.height × Moderate b.known image.width image.height × (0 < a.known.gain) }
    ensures { told (λ p. p) result ≡ answer (plan_checks a.known b.known (pictured image.entry) out cells) (plan_of a.known b.known (pictured image.entry)) }
{
    let size = image.width * image.height;
    if image.pixels.len() != size {
        return Err(Refusal::OtherPixels);
    }
    if out != size {
        return Err(Refusal::OtherOutput);
    }
    let middle = a.cells(image);
    let needed = middle + b.cells(image);
    if cells < needed {
        return Err(Refusal::TooFewCells);
    }
    pair_refusal(a.known, b.known)?;
    Ok(Plan { middle, needed })
}

// The checks 6, 7, 8, 12 and 13, and the differences where none of them holds.
fn sized(
    a: Operand,
    b: Operand,
    image: Image,
    out: &mut [i16],
    cells: &mut [u64],
) -> Result<(), Refusal>
    requires { Known (recipe a.filter) a.known × Known (recipe b.filter) b.known × (first (size_checks (recipe b.filter) image.width image.height) ≡ 0) }
    ensures { Differenced (recipe a.filter) (recipe b.filter) (pictured image.entry) out.old cells.old (outcome result) out.new cells.new }
{
    let plan = planned(a, b, image, out.len(), cells.len())?;
    run(a, b, image, plan.middle, out, &mut cells[..plan.needed]);
    Ok(())
}

// The difference of two recipes at each place of a picture: refused by the first's 1 to 4, the second's,
// then 5, 6, 7, 8, 12, 13. The work cells are free afterwards.
pub fn difference(
    a: Filter,
    b: Filter,
    image: Image,
    out: &mut [i16],
    cells: &mut [u64],
) -> Result<(), Refusal>
    ensures { Differenced (recipe a) (recipe b) (pictured image.entry) out.old cells.old (outcome result) out.new cells.new }
{
    let m = measure(a)?;
    let n = measure(b)?;
    full_size(b, image.width, image.height)?;
    let first = Operand {
        filter: a,
        known: m,
    };
    let second = Operand {
        filter: b,
        known: n,
    };
    sized(first, second, image, out, cells)
}
