// What the row list leaves in its cells after a row that ends in black places, from the total of its pixels.
ghost use Rattle.std.specs.Prelude.{◌≡◌, ◌*◌, ◌^◌, ◌<◌, ◌≤◌, ◌++◌, length, drop, if◌then◌else◌, nat_eq};
ghost use Rattle.spec.specs.Recipe.{weight};
ghost use Rattle.spec.specs.Stream.{box_cost, cascade_cells, cascade_cost};
ghost use Rattle.stream.specs.Private.{kept};

use crate::sizes::box_cells;

// What a list took: its count of additions and subtractions, and its cells.
#[derive(Drop)]
pub(crate) struct Taken {
    pub(crate) count: u64,
    pub(crate) cells: usize,
}

// The additions and subtractions of one box at one place.
#[tactic(auto, unfolding(spec::specs::Stream::box_cost))]
fn box_cost(n: u8) -> u64
    ensures { (result ≡ box_cost n) × (result ≤ 2) }
{
    match n {
        0 | 1 => 0,
        2 => 1,
        _ => 2,
    }
}

// What a box keeps in each of its cells: black for width 2, and the total of the row for a wider one.
fn box_value(n: u8, total: u64) -> u64
    ensures { result ≡ (if nat_eq n 2 then 0 else total) }
{
    if n == 2 { 0 } else { total }
}

// The cells of a row list after a row of `width` places that ends in as many black ones as the list
// reaches, each box in its own part of them: width 2 keeps the last value, which is black, and a wider one
// running totals, each the total of the row that came to it. `total` is that of the pixels, and each box
// multiplies it.
pub(crate) fn keep(widths: &[u8], total: u64, width: usize, cells: &mut [u64]) -> Taken
    requires { (length widths.now ≤ 48) × (width ≤ 1279) × (cascade_cells widths.now ≤ length cells.old) × (0 < weight widths.now)
        × (total * weight widths.now < 2 ^ 64) }
    ensures { (result.count ≡ width * cascade_cost widths.now) × (result.cells ≡ cascade_cells widths.now)
        × (cells.new ≡ kept widths.now total ++ drop (cascade_cells widths.now) cells.old) }
{
    let places = width as u64;
    let mut sum = 0;
    let mut entering = total;
    let mut from = 0;
    for &n in widths {
        let to = from + box_cells(n);
        cells[from..to].fill(box_value(n, entering));
        sum += places * box_cost(n);
        entering *= u64::from(n);
        from = to;
    }
    Taken {
        count: sum,
        cells: from,
    }
}
