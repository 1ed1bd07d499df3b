// The calls on a recipe for C and Rust: checks, coefficients, sizes, scale card, and whether two recipes
// are the same. A recipe is a block of 98 bytes, a list one of 49 (crate `blocks`). Each call returns
// document 01's number, 0 where it is accepted; on a refusal nothing is written.
#![tactic(auto)]

ghost use Rattle.std.specs.Prelude.{◌≡◌, cond};
ghost use Rattle.spec.specs.Recipe.{widths, recipe, order, gain};
ghost use Rattle.spec.specs.Picture.{full_width_of, full_height_of};
ghost use Rattle.spec.specs.Stream.{stream_cells};
ghost use Rattle.spec.specs.Gray.{variance};
ghost use Rattle.spec.specs.Same.{equivalent};
ghost use Rattle.spec.specs.Refusals.{first, lent, recipe_checks, size_checks, cell_checks, compare_checks};
ghost use Rattle.filter.specs.Coefficients.{KernelFilled};
ghost use Rattle.blocks.specs.Given.{list_at, given};

use blocks::{cascade_of, filter_of};
use spec::outcome;

// The checks of a recipe: 1 to 4.
#[unsafe(no_mangle)]
pub extern "C" fn bore_check(block: &[u8; 98]) -> u8
    ensures { result ≡ first (recipe_checks (recipe (given block.now))) }
{
    outcome(filter::check(filter_of(block)))
}

// The coefficients of a list: 1 to 4, 7.
#[unsafe(no_mangle)]
pub extern "C" fn bore_kernel(list: &[u8; 49], out: &mut [u64]) -> u8
    ensures { KernelFilled (widths (list_at 0 list.now)) out.old result out.new }
{
    outcome(filter::kernel(cascade_of(list), out))
}

// The grown sides: 1 to 5.
#[unsafe(no_mangle)]
pub extern "C" fn bore_full_size(
    block: &[u8; 98],
    width: usize,
    height: usize,
    full_width: &mut usize,
    full_height: &mut usize,
) -> u8
    ensures { let g = recipe (given block.now) in let cs = size_checks g width height in
        (result ≡ first cs)
        × (full_width.new ≡ lent cs (full_width_of g width) full_width.old)
        × (full_height.new ≡ lent cs (full_height_of g height) full_height.old) }
{
    match filter::full_size(filter_of(block), width, height) {
        Ok(sides) => {
            *full_width = sides.width;
            *full_height = sides.height;
            0
        }
        Err(refusal) => refusal.number(),
    }
}

// The work cells that the one pass needs for a width: 1 to 5.
#[unsafe(no_mangle)]
pub extern "C" fn bore_stream_cells(block: &[u8; 98], width: usize, cells: &mut usize) -> u8
    ensures { let g = recipe (given block.now) in let cs = cell_checks g width in
        (result ≡ first cs) × (cells.new ≡ lent cs (stream_cells g width) cells.old) }
{
    match stream::stream_cells(filter_of(block), width) {
        Ok(needed) => {
            *cells = needed;
            0
        }
        Err(refusal) => refusal.number(),
    }
}

// The scale card: 1 to 4.
#[unsafe(no_mangle)]
pub extern "C" fn bore_moments(
    block: &[u8; 98],
    weight: &mut u64,
    row_order: &mut usize,
    column_order: &mut usize,
    row_variance: &mut f64,
    column_variance: &mut f64,
) -> u8
    ensures { let g = recipe (given block.now) in let cs = recipe_checks g in
        (result ≡ first cs)
        × (weight.new ≡ lent cs (gain g) weight.old)
        × (row_order.new ≡ lent cs (order g.rows) row_order.old)
        × (column_order.new ≡ lent cs (order g.columns) column_order.old)
        × (row_variance.new ≡ lent cs (variance g.rows) row_variance.old)
        × (column_variance.new ≡ lent cs (variance g.columns) column_variance.old) }
{
    match filter::moments(filter_of(block)) {
        Ok(scale) => {
            *weight = scale.gain;
            *row_order = scale.row_order;
            *column_order = scale.column_order;
            *row_variance = scale.row_variance;
            *column_variance = scale.column_variance;
            0
        }
        Err(refusal) => refusal.number(),
    }
}

// Writes 1 where two recipes are the same, else 0: the first's 1 to 4, then the second's.
#[unsafe(no_mangle)]
pub extern "C" fn bore_equivalent(a: &[u8; 98], b: &[u8; 98], same: &mut u8) -> u8
    ensures { let f = recipe (given a.now) in let g = recipe (given b.now) in let cs = compare_checks f g in
        (result ≡ first cs) × (same.new ≡ lent cs (cond (equivalent f g) 1 0) same.old) }
{
    match equivalence::equivalent(filter_of(a), filter_of(b)) {
        Ok(equal) => {
            *same = u8::from(equal);
            0
        }
        Err(refusal) => refusal.number(),
    }
}
