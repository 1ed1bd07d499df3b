// A row through all stages: the row list along it, the column list down the columns, each stage on its own
// part of the cells. The count of additions and subtractions is that of the stages
// one after the other, summed over the boxes.
ghost use Rattle.std.specs.Prelude.{◌≡◌, ◌+◌, ◌*◌, ◌^◌, ◌<◌, ◌≤◌, length, slice_index};
ghost use Rattle.spec.specs.Words.{tab};
ghost use Rattle.spec.specs.Recipe.{widths, recipe, order, weight};
ghost use Rattle.spec.specs.Stream.{cascade_cells, cascade_cost};
ghost use Rattle.stream.specs.Stages.{worked};

use crate::columns::down;
use crate::keeping::keep;
use along::along;
use spec::Filter;

// Both lists on the pixels of a row and black places after them, as many as the row list reaches, at the
// row after `emitted` others.
pub(crate) fn work(
    filter: Filter,
    emitted: usize,
    pixels: &[u8],
    row: &mut [u64],
    cells: &mut [u64],
) -> u64
    requires { let ns = widths filter.rows in
        (filter.rows.count ≤ 48) × (filter.columns.count ≤ 48) × (0 < length row.old) × (length row.old ≤ 1279)
        × (cascade_cells ns + length row.old * cascade_cells (widths filter.columns) ≤ length cells.old)
        × (0 < weight ns) × (weight ns ≤ 2 ^ 44) × (length pixels.now + order ns ≤ length row.old) }
    ensures { let w = length row.old in
        let made = worked (recipe filter) emitted (tab w (λ i. slice_index pixels.now i)) cells.old in
        (result ≡ w * (cascade_cost (widths filter.rows) + cascade_cost (widths filter.columns)))
        × (row.new ≡ made.row) × (cells.new ≡ made.cells) }
{
    let total = along(filter.rows, pixels, row);
    let first = keep(filter.rows.boxes(), total, row.len(), cells);
    let columns = filter.columns.boxes();
    first.count + down(columns, emitted, row, &mut cells[first.cells..])
}
