// The sizes of the buffers that the one pass is lent: the grown sides, and the work cells.
ghost use Rattle.std.specs.Prelude.{◌≡◌, ◌*◌, ◌≤◌, length};
ghost use Rattle.spec.specs.Recipe.{recipe};
ghost use Rattle.spec.specs.Stream.{box_cells, cascade_cells, stream_cells};
ghost use Rattle.spec.specs.Refusals.{answer, told, size_checks, cell_checks};
ghost use Rattle.stream.specs.Answers.{cells_told};
ghost use Rattle.stream.specs.Private.{sizes};

use filter::full_size;
use spec::{Filter, Refusal};

// The grown sides and the needed cells.
#[derive(Clone, Copy)]
pub(crate) struct Sizes {
    pub(crate) width: usize,
    pub(crate) height: usize,
    pub(crate) cells: usize,
}

// The cells of one box.
#[tactic(auto, unfolding(spec::specs::Stream::box_cells))]
pub(crate) fn box_cells(n: u8) -> usize
    ensures { (result ≡ box_cells n) × (result ≤ 255) }
{
    match n {
        0 | 1 => 0,
        2 => 1,
        _ => usize::from(n),
    }
}

// The cells of some widths.
pub(crate) fn cascade_cells(widths: &[u8]) -> usize
    requires { length widths.now ≤ 48 }
    ensures { (result ≡ cascade_cells widths.now) × (result ≤ 255 * 48) }
{
    widths.iter().map(|&n| box_cells(n)).sum()
}

// The sizes for a recipe and the sides of a picture: refused by 1 to 5.
pub(crate) fn sizes_of(filter: Filter, width: usize, height: usize) -> Result<Sizes, Refusal>
    ensures { told (λ s. s) result ≡ answer (size_checks (recipe filter) width height) (sizes (recipe filter) width height) }
{
    let grown = full_size(filter, width, height)?;
    let rows = cascade_cells(filter.rows.boxes());
    let columns = cascade_cells(filter.columns.boxes());
    Ok(Sizes {
        width: grown.width,
        height: grown.height,
        cells: rows + grown.width * columns,
    })
}

// The work cells that the one pass needs for a picture of a width: refused by 1 to 5. The height plays no
// part in them.
pub fn stream_cells(filter: Filter, width: usize) -> Result<usize, Refusal>
    ensures { cells_told result ≡ answer (cell_checks (recipe filter) width) (stream_cells (recipe filter) width) }
{
    let sizes = sizes_of(filter, width, 1)?;
    Ok(sizes.cells)
}
