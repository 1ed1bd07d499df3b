// Document 01's second method, pass by pass: each width in turn over the whole grown picture, by
// running sum. The grown picture is one sequence, stored row by row: a row width adds up neighbours,
// through the black places at the end of each row, and a column width adds up places that are a row
// apart.
#![tactic(auto)]

ghost use Rattle.std.specs.Prelude.{◌≡◌, length};
ghost use Rattle.spec.specs.Recipe.{recipe};
ghost use Rattle.spec.specs.Picture.{pictured, full_width_of, full_sides, full};
ghost use Rattle.spec.specs.Refusals.{answer, outcome, full_size, pass_checks};
ghost use Rattle.laws.proofs.Refusals.{AcceptedPicture};
ghost use Rattle.filter.specs.Answers.{size_told};
ghost use Rattle.passes.specs.Passed.{Passed};

mod buffers;
mod cascades;
mod climbing;
mod columns;
mod grown;
mod rows;

use crate::buffers::Buffers;
use crate::cascades::begins_in;
pub use climbing::{Axes, ladder};
use filter::Sides;
use spec::{Filter, Image, Refusal};

// The passes of an accepted recipe over an accepted picture. They go from one buffer to the other and
// back, and begin so that the last ends in `out`. (`climb` is alike: with what differs as a closure the
// contract would be longer than both.)
fn run(filter: Filter, image: Image, full_width: usize, out: &mut [u64], work: &mut [u64])
    requires accepted { AcceptedPicture (recipe filter) (pictured image) }
    requires grown_width { full_width ≡ full_width_of (recipe filter) image.width }
    requires output { length out.old ≡ full_size (recipe filter) (pictured image) }
    requires paired { length work.old ≡ length out.old }
    ensures { out.new ≡ full (recipe filter) (pictured image.entry) }
{
    let mut buffers = Buffers {
        out,
        work,
        holder: begins_in(filter),
    };
    buffers.place(image, full_width);
    buffers.carry(filter, full_width);
}

// The grown sides of a picture, for an output and work cells of these lengths: refused by 1 to 8.
pub(crate) fn checked_size(
    filter: Filter,
    image: Image,
    out: usize,
    cells: usize,
) -> Result<Sides, Refusal>
    ensures { let p = pictured image.entry in
        size_told result ≡ answer (pass_checks (recipe filter) p out cells) (full_sides (recipe filter) p.width p.height) }
{
    let sides = filter::full_size(filter, image.width, image.height)?;
    let size = sides.width * sides.height;
    if image.pixels.len() != image.width * image.height {
        Err(Refusal::OtherPixels)
    } else if out != size {
        Err(Refusal::OtherOutput)
    } else if cells < size {
        Err(Refusal::TooFewCells)
    } else {
        Ok(sides)
    }
}

// All exact sums of a picture, pass by pass: refused by 1 to 8. The work cells are free afterwards.
pub fn passes(
    filter: Filter,
    image: Image,
    out: &mut [u64],
    cells: &mut [u64],
) -> Result<(), Refusal>
    ensures { Passed (recipe filter) (pictured image.entry) out.old cells.old (outcome result) out.new cells.new }
{
    let size = out.len();
    let sides = checked_size(filter, image, size, cells.len())?;
    run(filter, image, sides.width, out, &mut cells[..size]);
    Ok(())
}
