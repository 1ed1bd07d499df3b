// Document 02's fading ladder: blurs that widen level by level. The code climbs: level 1 is worked from
// the picture, and each further level from the exact sums of the level below, by its one new width on
// each axis.
ghost use Rattle.std.specs.Prelude.{◌≡◌, ◌*◌, ◌^◌, ◌≤◌, ◌<◌, length};
ghost use Rattle.spec.specs.Recipe.{widths, recipe};
ghost use Rattle.spec.specs.Picture.{pictured, full_width_of, full};
ghost use Rattle.spec.specs.Ladder.{on_axes, ladder as ladderOf};
ghost use Rattle.spec.specs.Refusals.{bad_level, outcome, full_size};
ghost use Rattle.laws.proofs.Kernels.{at};
ghost use Rattle.laws.proofs.Refusals.{Accepted, AcceptedPicture};
ghost use Rattle.laws.proofs.Flat.{filtered};
ghost use Rattle.laws.proofs.Ladder.{rung_at};
ghost use Rattle.passes.specs.Steps.{Below, Small};
ghost use Rattle.passes.specs.Turned.{turned_all, held, SameBuffers};
ghost use Rattle.passes.specs.Climbed.{axes_of, Climbed};

use crate::buffers::Buffers;
use crate::cascades::begins_in;
use crate::checked_size;
use spec::{Cascade, Filter, Image, Refusal};

// The axes that a ladder widens on.
#[derive(Clone, Copy, Debug, PartialEq, Eq)]
pub enum Axes {
    Rows,
    Both,
}

// The widths of the ladder: level 1 is the first three, and levels 2 to 8 add the others in turn.
const RUNGS: [u8; 10] = [2, 3, 4, 6, 8, 12, 16, 24, 32, 48];

// Some of them as a list.
fn rungs(boxes: &[u8]) -> Cascade
    requires { length boxes.now ≤ 10 }
    ensures { widths result ≡ boxes.now }
{
    let mut widths = [0; 48];
    let count = boxes.len();
    widths[..count].copy_from_slice(boxes);
    Cascade {
        count: count as u8,
        widths,
    }
}

// A list of widths on these axes.
fn on_axes(axes: Axes, list: Cascade) -> Filter
    ensures { recipe result ≡ on_axes (axes_of axes) (widths list) }
{
    match axes {
        Axes::Rows => Filter {
            rows: list,
            columns: Cascade {
                count: 0,
                widths: [0; 48],
            },
        },
        Axes::Both => Filter {
            rows: list,
            columns: list,
        },
    }
}

// The whole recipe of a level.
fn level_filter(axes: Axes, level: usize) -> Filter
    requires { level ≤ 8 }
    ensures { recipe result ≡ ladderOf (axes_of axes) level }
{
    on_axes(axes, rungs(&RUNGS[..level + 2]))
}

// The width at a place, on these axes.
fn rung_at(axes: Axes, i: usize) -> Filter
    requires { i < 10 }
    ensures { recipe result ≡ rung_at (axes_of axes) i }
{
    on_axes(axes, rungs(&RUNGS[i..i + 1]))
}

// The levels up to the one that is named, on what the buffers hold in rows of full_width places: level 1
// by its whole recipe, and each further level by its one new width from the sums of the level below.
fn levels(level: usize, axes: Axes, full_width: usize, buffers: &mut Buffers)
    requires first { 0 < level }
    requires last { level ≤ 8 }
    requires accepted { Accepted (ladderOf (axes_of axes) level) }
    requires wide { 0 < full_width }
    requires offsets { 255 * full_width ≤ 2 ^ 32 }
    requires small { let r = ladderOf (axes_of axes) level in
        Small (length buffers.old.out.now) (filtered r full_width (at (held buffers.old))) }
    ensures same { SameBuffers buffers.old buffers.new }
    ensures holder { buffers.new.holder ≡ turned_all (ladderOf (axes_of axes) level) buffers.old.holder }
    ensures sums { let r = ladderOf (axes_of axes) level in
        Below (length buffers.old.out.now) (filtered r full_width (at (held buffers.old))) (held buffers.new) }
{
    buffers.carry(level_filter(axes, 1), full_width);
    // by number: a rung is named by its place
    for i in 3..level + 2 {
        buffers.carry(rung_at(axes, i), full_width);
    }
}

// The climb to an accepted level over an accepted picture. It begins so that it ends in `out`.
fn climb(
    level: usize,
    axes: Axes,
    image: Image,
    full_width: usize,
    out: &mut [u64],
    work: &mut [u64],
)
    requires first { 0 < level }
    requires last { level ≤ 8 }
    requires accepted { AcceptedPicture (ladderOf (axes_of axes) level) (pictured image) }
    requires grown_width { full_width ≡ full_width_of (ladderOf (axes_of axes) level) image.width }
    requires output { length out.old ≡ full_size (ladderOf (axes_of axes) level) (pictured image) }
    requires paired { length work.old ≡ length out.old }
    ensures { out.new ≡ full (ladderOf (axes_of axes) level) (pictured image.entry) }
{
    let mut buffers = Buffers {
        out,
        work,
        holder: begins_in(level_filter(axes, level)),
    };
    buffers.place(image, full_width);
    levels(level, axes, full_width, &mut buffers);
}

// A level outside 1 to 8.
fn bad_level(level: usize) -> bool
    ensures { result ≡ bad_level level }
{
    level == 0 || 8 < level
}

// All exact sums of a picture by the recipe of a level: refused by 16, then by 1 to 8. The work cells are
// free afterwards.
pub fn ladder(
    level: usize,
    axes: Axes,
    image: Image,
    out: &mut [u64],
    cells: &mut [u64],
) -> Result<(), Refusal>
    ensures { Climbed (axes_of axes) level (pictured image.entry) out.old cells.old (outcome result) out.new cells.new }
{
    if bad_level(level) {
        return Err(Refusal::BadLevel);
    }
    let size = out.len();
    let filter = level_filter(axes, level);
    let sides = checked_size(filter, image, size, cells.len())?;
    climb(level, axes, image, sides.width, out, &mut cells[..size]);
    Ok(())
}
