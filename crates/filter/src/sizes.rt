// The sides of the grown picture, by which a caller sizes the buffers that it lends.
ghost use Rattle.std.specs.Prelude.{◌≡◌};
ghost use Rattle.spec.specs.Recipe.{recipe};
ghost use Rattle.spec.specs.Picture.{full_sides};
ghost use Rattle.spec.specs.Refusals.{bad_side, bad_sides, answer, size_checks};
ghost use Rattle.filter.specs.Answers.{size_told};

use crate::checks::measure;
use spec::{Filter, Refusal};

// The sides of a picture.
#[derive(Clone, Copy)]
pub struct Sides {
    pub width: usize,
    pub height: usize,
}

// A side of 0 or above 1,024.
pub(crate) fn bad_side(n: usize) -> bool
    ensures { result ≡ bad_side n }
{
    n == 0 || 1024 < n
}

// So on either axis.
fn bad_sides(width: usize, height: usize) -> bool
    ensures { result ≡ bad_sides width height }
{
    bad_side(width) || bad_side(height)
}

// The grown sides of a picture: refused by 1 to 5.
pub fn full_size(filter: Filter, width: usize, height: usize) -> Result<Sides, Refusal>
    ensures { size_told result ≡ answer (size_checks (recipe filter) width height) (full_sides (recipe filter) width height) }
{
    let m = measure(filter)?;
    if bad_sides(width, height) {
        return Err(Refusal::BadSides);
    }
    Ok(Sides {
        width: width + m.row_order,
        height: height + m.column_order,
    })
}
