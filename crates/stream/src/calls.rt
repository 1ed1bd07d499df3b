// The calls of the one pass, and the state that goes from one to the next.
ghost use Rattle.std.specs.Prelude.{◌≡◌, ◌≤◌, [], ◌∷◌, length};
ghost use Rattle.spec.specs.Recipe.{recipe};
ghost use Rattle.spec.specs.Refusals.{answer, told, outcome, check, first, bad_state, other_output, too_few_cells, row_checks, drain_checks};
ghost use Rattle.stream.specs.Calls.{state_of, state_at, began, start as start_of, called, steps, push as pushOf, drain as drainOf};
ghost use Rattle.stream.specs.Private.{Ready, sizes};
ghost use Rattle.stream.specs.Stages.{entering};

use crate::cascades::work;
use crate::sizes::{Sizes, sizes_of};
use spec::{Filter, Refusal};

// The recipe, the sides of the picture, and the rows yielded.
#[derive(Clone, Copy)]
pub struct State {
    pub filter: Filter,
    pub width: usize,
    pub height: usize,
    pub emitted: usize,
}

// The next state after a row call or a drain, and its count of additions and subtractions.
#[derive(Clone, Copy)]
pub struct Stepped {
    pub state: State,
    pub count: u64,
}

// A row call or a drain that is refused: why, and the state that it was given.
#[derive(Clone, Copy)]
pub struct Refused {
    pub refusal: Refusal,
    pub state: State,
}

// The sizes for a state: refused by 9.
fn gauge(state: State) -> Result<Sizes, Refusal>
    ensures { let s = state_of state in
        told (λ a. a) result ≡ answer (check (bad_state s) 9 ∷ []) (sizes s.recipe s.width s.height) }
{
    let Ok(sizes) = sizes_of(state.filter, state.width, state.height) else {
        return Err(Refusal::BadState);
    };
    if sizes.height < state.emitted {
        return Err(Refusal::BadState);
    }
    Ok(sizes)
}

// 7 and 8: the output has another length than stated, or there are fewer cells than needed.
#[tactic(auto, unfolding(spec::specs::Refusals::first, spec::specs::Refusals::check, spec::specs::Refusals::other_output, spec::specs::Refusals::too_few_cells))]
fn check_buffers(sizes: Sizes, out: usize, cells: usize) -> Result<(), Refusal>
    ensures { outcome result ≡ first (check (other_output out sizes.width) 7 ∷ check (too_few_cells cells sizes.cells) 8 ∷ []) }
{
    if out != sizes.width {
        return Err(Refusal::OtherOutput);
    }
    if cells < sizes.cells {
        return Err(Refusal::TooFewCells);
    }
    Ok(())
}

// Whether a row call is accepted: refused by 9, 10, 6, 7, 8.
fn check_row(state: State, pixels: usize, out: usize, cells: usize) -> Result<(), Refusal>
    ensures { outcome result ≡ first (row_checks (state_of state) pixels out cells) }
{
    let sizes = gauge(state)?;
    if state.height <= state.emitted {
        return Err(Refusal::NotDue);
    }
    if pixels != state.width {
        return Err(Refusal::OtherPixels);
    }
    check_buffers(sizes, out, cells)
}

// Whether a drain is accepted: refused by 9, 10, 7, 8.
fn check_drain(state: State, out: usize, cells: usize) -> Result<(), Refusal>
    ensures { outcome result ≡ first (drain_checks (state_of state) out cells) }
{
    let sizes = gauge(state)?;
    if state.emitted < state.height || sizes.height <= state.emitted {
        return Err(Refusal::NotDue);
    }
    check_buffers(sizes, out, cells)
}

// The state of a recipe over a picture with these sides, with so many rows yielded. Any numbers make a
// state; 9 refuses what is none.
pub fn state_at(filter: Filter, width: usize, height: usize, emitted: usize) -> State
    ensures { result ≡ state_at filter width height emitted }
{
    State {
        filter,
        width,
        height,
        emitted,
    }
}

// Starts the one pass of a recipe over a picture with these sides: exactly the needed cells are set to
// zero. Refused by 1 to 5, then 8.
pub fn start(
    filter: Filter,
    width: usize,
    height: usize,
    cells: &mut [u64],
) -> Result<State, Refusal>
    ensures { began result cells.new ≡ start_of filter width height cells.old }
{
    let sizes = sizes_of(filter, width, height)?;
    if cells.len() < sizes.cells {
        return Err(Refusal::TooFewCells);
    }
    cells[..sizes.cells].fill(0);
    Ok(state_at(filter, width, height, 0))
}

// All stages on the pixels given and black places after them, and the next state.
fn step(state: State, pixels: &[u8], out: &mut [u64], cells: &mut [u64]) -> Stepped
    requires { Ready (state_of state) (length out.old) (length cells.old) × (length pixels.now ≤ state.width) }
    ensures { called (Ok result) out.new cells.new ≡ steps state (entering (recipe state.filter) state.width pixels.now) cells.old }
{
    let filter = state.filter;
    let count = work(filter, state.emitted, pixels, out, cells);
    Stepped {
        state: state_at(filter, state.width, state.height, state.emitted + 1),
        count,
    }
}

// Takes the next row of the picture and yields the next grown row. Refused by 9, 10, 6, 7, 8.
pub fn push(
    state: State,
    pixels: &[u8],
    out: &mut [u64],
    cells: &mut [u64],
) -> Result<Stepped, Refused>
    ensures { called result out.new cells.new ≡ pushOf state pixels.now out.old cells.old }
{
    match check_row(state, pixels.len(), out.len(), cells.len()) {
        Ok(()) => Ok(step(state, pixels, out, cells)),
        Err(refusal) => Err(Refused { refusal, state }),
    }
}

// Yields the next grown row below the picture, as if a black row had come. Refused by 9, 10, 7, 8.
pub fn drain(state: State, out: &mut [u64], cells: &mut [u64]) -> Result<Stepped, Refused>
    ensures { called result out.new cells.new ≡ drainOf state out.old cells.old }
{
    match check_drain(state, out.len(), cells.len()) {
        Ok(()) => Ok(step(state, &[], out, cells)),
        Err(refusal) => Err(Refused { refusal, state }),
    }
}
