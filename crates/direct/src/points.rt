// The exact sum and the inside weight at one picture place, formed from the window alone.
ghost use Rattle.std.specs.Prelude.{◌≡◌, Ok, ◌+◌, ◌*◌, ◌<◌, length};
ghost use Rattle.spec.specs.Recipe.{recipe, order};
ghost use Rattle.spec.specs.Picture.{pictured, exact, full_sides};
ghost use Rattle.spec.specs.Refusals.{answer, reading_checks};
ghost use Rattle.laws.proofs.Convolution.{ones};
ghost use Rattle.laws.proofs.Inside.{axis};
ghost use Rattle.laws.proofs.Refusals.{AcceptedPicture};
ghost use Rattle.filter.specs.Answers.{size_told};
ghost use Rattle.direct.specs.Windows.{through, Ready};
ghost use Rattle.direct.specs.Answers.{weighed_sum, point_told};

use crate::picture_size;
use crate::sums::{Kernels, down, inside};
use filter::Sides;
use spec::{Filter, Image, Refusal};

// The exact sum over a window, and the weight of the part of it that is inside the picture.
#[derive(Clone, Copy)]
pub struct Point {
    pub sum: u64,
    pub weight: u64,
}

// The grown sides of a picture that has a place at this column and row: refused by 1 to 6 and 15.
fn check_place(filter: Filter, image: Image, column: usize, row: usize) -> Result<Sides, Refusal>
    ensures { let r = recipe filter in let p = pictured image.entry in
        size_told result ≡ answer (reading_checks r p column row) (full_sides r p.width p.height) }
{
    let sides = picture_size(filter, image)?;
    if image.width <= column || image.height <= row {
        return Err(Refusal::Outside);
    }
    Ok(sides)
}

// The inside weight at grown column i, row j.
fn weight_at(image: Image, kernels: Kernels, i: usize, j: usize) -> u64
    requires ready { Ready kernels.rows.now kernels.columns.now (pictured image) }
    requires across { i + 1 < image.width + length kernels.rows.now }
    requires below { j + 1 < image.height + length kernels.columns.now }
    ensures { let p = image.entry in let k = kernels.entry in
        result ≡ through k.rows.now (ones p.width) i * through k.columns.now (ones p.height) j }
{
    inside(kernels.rows, i, image.width) * inside(kernels.columns, j, image.height)
}

// The window at grown column i, row j, with R and C filled into slices of exactly their lengths.
fn window_sum(
    filter: Filter,
    image: Image,
    rows: &mut [u64],
    columns: &mut [u64],
    i: usize,
    j: usize,
) -> Result<Point, Refusal>
    requires accepted_picture { AcceptedPicture (recipe filter) (pictured image) }
    requires rows_len { length rows.old ≡ order (recipe filter).rows + 1 }
    requires columns_len { length columns.old ≡ order (recipe filter).columns + 1 }
    requires i_bound { i < image.width + order (recipe filter).rows }
    requires j_bound { j < image.height + order (recipe filter).columns }
    ensures { let r = recipe filter in let p = pictured image.entry in
        let weight = axis r.rows p.width i * axis r.columns p.height j in
        result ≡ Ok (record { sum = exact r p i j; weight = weight }) }
{
    filter::kernel(filter.rows, rows)?;
    filter::kernel(filter.columns, columns)?;
    let kernels = Kernels { rows, columns };
    let sum = down(image, kernels, i, j);
    let weight = weight_at(image, kernels, i, j);
    Ok(Point { sum, weight })
}

// The exact sum that the same-size blur takes at a picture place, and the inside weight there, from the
// window alone, cut to the picture: refused by 1 to 6 and 15.
pub fn point_sum(filter: Filter, image: Image, column: usize, row: usize) -> Result<Point, Refusal>
    ensures { let p = pictured image.entry in
        point_told result ≡ answer (reading_checks (recipe filter) p column row) (weighed_sum (recipe filter) p column row) }
{
    let sides = check_place(filter, image, column, row)?;
    let rx = sides.width - image.width;
    let ry = sides.height - image.height;
    let mut row_kernel = [0u64; 256];
    let mut column_kernel = [0u64; 256];
    window_sum(
        filter,
        image,
        &mut row_kernel[..rx + 1],
        &mut column_kernel[..ry + 1],
        column + rx / 2,
        row + ry / 2,
    )
}
