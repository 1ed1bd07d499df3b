// Document 01's same-size blur with document 02's leftovers, by the inside weight: the one pass over the
// picture, each grown row that is taken rounded as it comes.
ghost use Rattle.std.specs.Prelude.{◌≡◌, ◌*◌, ◌/◌, ◌≤◌, length};
ghost use Rattle.spec.specs.Recipe.{recipe, order};
ghost use Rattle.spec.specs.Picture.{picture, pictured, full_sides, full_width_of, full_height_of};
ghost use Rattle.spec.specs.Gray.{places, same_gray, same_leftover};
ghost use Rattle.spec.specs.Refusals.{first, outcome, size_checks, picture_checks, start_checks, full_size};
ghost use Rattle.rows.specs.Streaming.{picture_of, Streamed};
ghost use Rattle.rows.specs.Taking.{Taken};
ghost use Rattle.filter.specs.Axis.{axis_weights};
ghost use Rattle.filter.specs.Answers.{sides};
ghost use Rattle.blur.specs.Blurred.{Blurred};

use crate::rims::Band;
use filter::{Sides, axis_weights, full_size};
use rows::{advance, skip};
use spec::{Filter, Image, Refusal};
use stream::{State, start};

// The inside weights along a row, and those down a column.
#[derive(Clone, Copy)]
struct Inside<'a> {
    across: &'a [u64],
    down: &'a [u64],
}

// The greys and leftovers of all picture rows, from a state whose next grown row is the first that is
// taken. The inside weights are those along a row, times those down a column.
fn gray_rows(
    state: State,
    inside: Inside,
    pixels: &[u8],
    row: &mut [u64],
    out: &mut [u8],
    leftovers: &mut [i64],
    cells: &mut [u64],
)
    requires { Taken state (order (recipe state.filter).rows / 2) pixels.now row.old cells.old
        × (inside.across.now ≡ axis_weights (recipe state.filter).rows state.width)
        × (inside.down.now ≡ axis_weights (recipe state.filter).columns state.height)
        × (length out.old ≡ state.width * state.height) × (length leftovers.old ≡ state.width * state.height) }
    ensures { let p = picture_of state pixels.now in let f = recipe state.filter in
        (out.new ≡ places p (same_gray f p)) × (leftovers.new ≡ places p (same_leftover f p)) }
{
    let width = state.width;
    let left = (row.len() - width) / 2;
    let right = left + width;
    let mut at = state;
    let mut band = Band::none(inside.across);
    for (j, &down) in inside.down.iter().enumerate() {
        at = advance(at, pixels, row, cells).unwrap().state;
        band.turn(down);
        let from = j * width;
        let to = from + width;
        band.shade_row(
            &row[left..right],
            &mut out[from..to],
            &mut leftovers[from..to],
        );
    }
}

// Starts the one pass, and passes over so many grown rows, those above the first that is taken. (So does
// `begin` in `difference`: a call that both crates share would have to answer for every argument.)
fn begin(
    filter: Filter,
    sides: Sides,
    above: usize,
    pixels: &[u8],
    row: &mut [u64],
    cells: &mut [u64],
) -> State
    requires { let r = recipe filter in
        (first (start_checks r sides.width sides.height (length cells.old)) ≡ 0) × (length pixels.now ≡ sides.width * sides.height)
        × (above ≤ full_height_of r sides.height) × (length row.old ≡ full_width_of r sides.width) }
    ensures { Streamed filter (picture sides.width sides.height pixels.now) above result cells.new }
{
    let first = start(filter, sides.width, sides.height, cells).unwrap();
    skip(first, above, pixels, row, cells)
}

// The greys and leftovers of an accepted recipe and picture, of these grown sides.
fn run(
    filter: Filter,
    full: Sides,
    image: Image,
    out: &mut [u8],
    leftovers: &mut [i64],
    cells: &mut [u64],
)
    requires { let p = pictured image in
        (first (picture_checks (recipe filter) p) ≡ 0) × (sides full ≡ full_sides (recipe filter) image.width image.height)
        × (length out.old ≡ image.width * image.height) × (length leftovers.old ≡ image.width * image.height)
        × (length cells.old ≡ 2 * full_size (recipe filter) p) }
    ensures { let p = pictured image.entry in
        (out.new ≡ places p (same_gray (recipe filter) p)) × (leftovers.new ≡ places p (same_leftover (recipe filter) p)) }
{
    let Image {
        width,
        height,
        pixels,
    } = image;
    let above = (full.height - height) / 2;
    // 1,024 + 255, the widest grown row
    let mut row = [0u64; 1279];
    let row = &mut row[..full.width];
    let state = begin(filter, Sides { width, height }, above, pixels, row, cells);
    let mut across = [0u64; 1024];
    let mut down = [0u64; 1024];
    axis_weights(filter.rows, width, &mut across[..width]).unwrap();
    axis_weights(filter.columns, height, &mut down[..height]).unwrap();
    let inside = Inside {
        across: &across[..width],
        down: &down[..height],
    };
    gray_rows(state, inside, pixels, row, out, leftovers, cells);
}

// The checks 6 to 8, and the greys and leftovers where none of them holds.
fn sized(
    filter: Filter,
    full: Sides,
    image: Image,
    out: &mut [u8],
    leftovers: &mut [i64],
    cells: &mut [u64],
) -> Result<(), Refusal>
    requires { (first (size_checks (recipe filter) image.width image.height) ≡ 0) × (sides full ≡ full_sides (recipe filter) image.width image.height) }
    ensures { Blurred (recipe filter) (pictured image.entry) out.old leftovers.old cells.old
        (outcome result) out.new leftovers.new cells.new }
{
    let size = image.width * image.height;
    if image.pixels.len() != size {
        return Err(Refusal::OtherPixels);
    }
    if out.len() != size || leftovers.len() != size {
        return Err(Refusal::OtherOutput);
    }
    let needed = 2 * (full.width * full.height);
    if cells.len() < needed {
        return Err(Refusal::TooFewCells);
    }
    run(filter, full, image, out, leftovers, &mut cells[..needed]);
    Ok(())
}

// The blur of a picture in its own size, and behind it what rounding left over at each place: refused by 1
// to 8. The work cells are free afterwards.
pub fn blur(
    filter: Filter,
    image: Image,
    out: &mut [u8],
    leftovers: &mut [i64],
    cells: &mut [u64],
) -> Result<(), Refusal>
    ensures { Blurred (recipe filter) (pictured image.entry) out.old leftovers.old cells.old
        (outcome result) out.new leftovers.new cells.new }
{
    let full = full_size(filter, image.width, image.height)?;
    sized(filter, full, image, out, leftovers, cells)
}
