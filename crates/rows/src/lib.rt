// The one pass over a whole picture: the theorem about a whole list of calls, a call that yields the next
// grown row, and one that passes over grown rows.
#![tactic(auto)]

ghost use Rattle.std.specs.Prelude.{◌≡◌, true, [], ◌∷◌, ◌*◌, leb};
ghost use Rattle.spec.specs.Recipe.{recipe};
ghost use Rattle.spec.specs.Picture.{full_height_of};
ghost use Rattle.spec.specs.Refusals.{check, first, bad_state, number, other_pixels};
ghost use Rattle.stream.specs.Calls.{state_of, called};
ghost use Rattle.rows.specs.Advance.{advance as advanceOf, skipped, skip as skipOf};

use filter::full_size;
use spec::Refusal;
pub use stream::{Refused, State, Stepped};
use stream::{drain, push};

// Whether a slice of `len` pixels has another length than a picture of these sides. It divides, since a
// product need not fit 64 bits.
fn is_other_length(len: usize, width: usize, height: usize) -> bool
    ensures { result ≡ other_pixels len (width * height) }
{
    if width == 0 {
        return len != 0;
    }
    len % width != 0 || len / width != height
}

// Why a picture slice of another length is refused: 9, 10 where all grown rows are out, and else 6.
fn pixels_refusal(state: State) -> Refusal
    ensures { number result ≡ first (check (bad_state (state_of state)) 9 ∷ check (leb (full_height_of (recipe state.filter) state.height) state.emitted) 10 ∷ check true 6 ∷ []) }
{
    let Ok(grown) = full_size(state.filter, state.width, state.height) else {
        return Refusal::BadState;
    };
    let at = state.emitted;
    if grown.height < at {
        Refusal::BadState
    } else if grown.height <= at {
        Refusal::NotDue
    } else {
        Refusal::OtherPixels
    }
}

// The next grown row of a picture: by a row call while rows of the picture are due, then by a drain.
// Refused by 9, by 10 where all grown rows are out, by 6 for a picture slice of another length, by 7 and 8.
pub fn advance(
    state: State,
    pixels: &[u8],
    out: &mut [u64],
    cells: &mut [u64],
) -> Result<Stepped, Refused>
    ensures { called result out.new cells.new ≡ advanceOf state pixels.now out.old cells.old }
{
    let at = state.emitted;
    let width = state.width;
    if is_other_length(pixels.len(), width, state.height) {
        let refusal = pixels_refusal(state);
        return Err(Refused { refusal, state });
    }
    if at < state.height {
        let from = at * width;
        let to = from + width;
        push(state, &pixels[from..to], out, cells)
    } else {
        drain(state, out, cells)
    }
}

// Passes over as many grown rows as `count` says, each as by `advance`, or as many as can be had; the last
// of them stands in `row`, and the state tells how many. It stops where a call is refused: that changes
// nothing, and neither would any further one.
pub fn skip(state: State, count: usize, pixels: &[u8], row: &mut [u64], cells: &mut [u64]) -> State
    ensures { skipped result row.new cells.new ≡ skipOf count state pixels.now row.old cells.old }
{
    let mut at = state;
    for _ in 0..count {
        match advance(at, pixels, row, cells) {
            Ok(next) => at = next.state,
            Err(refused) => return refused.state,
        }
    }
    at
}
