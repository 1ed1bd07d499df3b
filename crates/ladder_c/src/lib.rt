// The fading ladder for C and Rust: one call for each choice of axes. Each returns the number of
// document 02 or 01, 0 where it is accepted. A refusal writes nothing.
#![tactic(auto)]

ghost use Rattle.spec.specs.Picture.{picture};
ghost use Rattle.spec.specs.Ladder.{rows_only, both_axes};
ghost use Rattle.passes.specs.Climbed.{Climbed};

use passes::{Axes, ladder};
use spec::{Image, outcome};

// All exact sums of a picture by a level of the ladder along the rows: 16, then 1 to 8.
#[unsafe(no_mangle)]
pub extern "C" fn bore_ladder_rows(
    level: usize,
    width: usize,
    height: usize,
    pixels: &[u8],
    out: &mut [u64],
    cells: &mut [u64],
) -> u8
    ensures { Climbed rows_only level (picture width height pixels.now)
        out.old cells.old result out.new cells.new }
{
    let image = Image {
        width,
        height,
        pixels,
    };
    outcome(ladder(level, Axes::Rows, image, out, cells))
}

// The same on both axes: 16, then 1 to 8, of which 4 for levels 6 to 8.
#[unsafe(no_mangle)]
pub extern "C" fn bore_ladder_both(
    level: usize,
    width: usize,
    height: usize,
    pixels: &[u8],
    out: &mut [u64],
    cells: &mut [u64],
) -> u8
    ensures { Climbed both_axes level (picture width height pixels.now)
        out.old cells.old result out.new cells.new }
{
    let image = Image {
        width,
        height,
        pixels,
    };
    outcome(ladder(level, Axes::Both, image, out, cells))
}
