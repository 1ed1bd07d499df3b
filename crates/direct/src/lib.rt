// Document 01's third method, direct: the coefficients of both lists are filled in, then every exact
// sum is formed as it is defined; or only the one that the same-size blur takes at a picture place, with
// document 02's inside weight there.
#![tactic(auto)]

mod points;
mod sums;

ghost use Rattle.std.specs.Prelude.{◌≡◌};
ghost use Rattle.spec.specs.Recipe.{recipe};
ghost use Rattle.spec.specs.Picture.{pictured, full_sides};
ghost use Rattle.spec.specs.Refusals.{first, outcome, answer, picture_checks, direct_checks};
ghost use Rattle.filter.specs.Answers.{size_told};
ghost use Rattle.direct.specs.Formed.{Formed};

use crate::sums::{Kernels, form};
use filter::Sides;
pub use points::{Point, point_sum};
use spec::{Filter, Image, Refusal};

// The grown sides of a picture: refused by 1 to 6.
fn picture_size(filter: Filter, image: Image) -> Result<Sides, Refusal>
    ensures { let r = recipe filter in let p = pictured image.entry in
        size_told result ≡ answer (picture_checks r p) (full_sides r p.width p.height) }
{
    let sides = filter::full_size(filter, image.width, image.height)?;
    if image.pixels.len() != image.width * image.height {
        return Err(Refusal::OtherPixels);
    }
    Ok(sides)
}

// Whether a picture is accepted, and slices of these lengths for R, for C and for all sums: refused by 1
// to 7.
fn check_lengths(
    filter: Filter,
    image: Image,
    rows: usize,
    columns: usize,
    out: usize,
) -> Result<(), Refusal>
    ensures { outcome result
        ≡ first (direct_checks (recipe filter) (pictured image.entry) rows columns out) }
{
    let sides = picture_size(filter, image)?;
    if rows != sides.width - image.width + 1
        || columns != sides.height - image.height + 1
        || out != sides.width * sides.height
    {
        return Err(Refusal::OtherOutput);
    }
    Ok(())
}

// All exact sums of a picture, row by row, with the coefficients of the row list and of the column list
// filled in: refused by 1 to 7.
pub fn direct(
    filter: Filter,
    image: Image,
    row_kernel: &mut [u64],
    column_kernel: &mut [u64],
    out: &mut [u64],
) -> Result<(), Refusal>
    ensures { Formed (recipe filter) (pictured image.entry) row_kernel.old column_kernel.old out.old
        (outcome result) row_kernel.new column_kernel.new out.new }
{
    check_lengths(
        filter,
        image,
        row_kernel.len(),
        column_kernel.len(),
        out.len(),
    )?;
    filter::kernel(filter.rows, row_kernel)?;
    filter::kernel(filter.columns, column_kernel)?;
    let kernels = Kernels {
        rows: row_kernel,
        columns: column_kernel,
    };
    form(image, kernels, out);
    Ok(())
}
