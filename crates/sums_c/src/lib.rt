// The three methods for C and Rust. A recipe is a block of 98 bytes (crate `blocks`). A state of the one
// pass is such a block, which row calls and drains leave as it is, and a block of three words: width,
// height and rows yielded. Every two blocks stand for a state; 9 refuses what is none. Each call returns
// document 01's number, 0 where it is accepted. On a refusal nothing else is written, but for the fields
// that stand beside the number: the state of a refused start, of zeros, and the count of a refused row
// call or drain.
#![tactic(auto)]

ghost use Rattle.std.specs.Prelude.{◌≡◌};
ghost use Rattle.spec.specs.Recipe.{recipe};
ghost use Rattle.spec.specs.Picture.{picture};
ghost use Rattle.direct.specs.Formed.{Formed};
ghost use Rattle.passes.specs.Passed.{Passed};
ghost use Rattle.stream.specs.Calls.{start, push, drain};
ghost use Rattle.blocks.specs.Given.{given};
ghost use Rattle.sums_c.specs.States.{given_state, began, called};

use blocks::{filter_of, put_filter};
use filter::no_filter;
use spec::{Image, outcome};
use stream::{State, state_at};

// All exact sums of a picture by the direct method, with both lists of coefficients: 1 to 7.
#[unsafe(no_mangle)]
pub extern "C" fn bore_direct(
    block: &[u8; 98],
    width: usize,
    height: usize,
    pixels: &[u8],
    row_kernel: &mut [u64],
    column_kernel: &mut [u64],
    out: &mut [u64],
) -> u8
    ensures { Formed (recipe (given block.now)) (picture width height pixels.now)
        row_kernel.old column_kernel.old out.old
        result row_kernel.new column_kernel.new out.new }
{
    let image = Image {
        width,
        height,
        pixels,
    };
    outcome(direct::direct(filter_of(block), image, row_kernel, column_kernel, out))
}

// All exact sums of a picture, pass by pass: 1 to 8.
#[unsafe(no_mangle)]
pub extern "C" fn bore_passes(
    block: &[u8; 98],
    width: usize,
    height: usize,
    pixels: &[u8],
    out: &mut [u64],
    cells: &mut [u64],
) -> u8
    ensures { Passed (recipe (given block.now)) (picture width height pixels.now)
        out.old cells.old result out.new cells.new }
{
    let image = Image {
        width,
        height,
        pixels,
    };
    outcome(passes::passes(filter_of(block), image, out, cells))
}

// The state that two blocks stand for.
fn state_of(block: &[u8; 98], words: &[usize; 3]) -> State
    ensures { result ≡ given_state block.now words.now }
{
    state_at(filter_of(block), words[0], words[1], words[2])
}

// Makes two blocks stand for a state.
fn put_state(state: State, block: &mut [u8; 98], words: &mut [usize; 3])
    ensures { given_state block.new words.new ≡ state }
{
    put_filter(state.filter, block);
    *words = [state.width, state.height, state.emitted];
}

// The start of the one pass: 1 to 5, 8. The last two blocks become the state, of zeros on a refusal.
#[unsafe(no_mangle)]
pub extern "C" fn bore_start(
    block: &[u8; 98],
    width: usize,
    height: usize,
    cells: &mut [u64],
    state: &mut [u8; 98],
    words: &mut [usize; 3],
) -> u8
    ensures { began result (given_state state.new words.new) cells.new
        ≡ start (given block.now) width height cells.old }
{
    match stream::start(filter_of(block), width, height, cells) {
        Ok(begun) => {
            put_state(begun, state, words);
            0
        }
        Err(refusal) => {
            put_state(state_at(no_filter(), 0, 0, 0), state, words);
            refusal.number()
        }
    }
}

// A row call of the one pass: 9, 10, 6, 7, 8. The words become those of the next state, or stay on a
// refusal, and the count of additions and subtractions is 0 then.
#[unsafe(no_mangle)]
pub extern "C" fn bore_push(
    state: &[u8; 98],
    words: &mut [usize; 3],
    pixels: &[u8],
    out: &mut [u64],
    cells: &mut [u64],
    count: &mut u64,
) -> u8
    ensures { let b = state.now in
        called result (given_state b words.new) count.new out.new cells.new
        ≡ push (given_state b words.old) pixels.now out.old cells.old }
{
    match stream::push(state_of(state, words), pixels, out, cells) {
        Ok(pushed) => {
            let next = pushed.state;
            *words = [next.width, next.height, next.emitted];
            *count = pushed.count;
            0
        }
        Err(refused) => {
            *count = 0;
            refused.refusal.number()
        }
    }
}

// A drain of the one pass: 9, 10, 7, 8. The words and the count are as with a row call.
#[unsafe(no_mangle)]
pub extern "C" fn bore_drain(
    state: &[u8; 98],
    words: &mut [usize; 3],
    out: &mut [u64],
    cells: &mut [u64],
    count: &mut u64,
) -> u8
    ensures { let b = state.now in
        called result (given_state b words.new) count.new out.new cells.new
        ≡ drain (given_state b words.old) out.old cells.old }
{
    match stream::drain(state_of(state, words), out, cells) {
        Ok(drained) => {
            let then = drained.state;
            *words = [then.width, then.height, then.emitted];
            *count = drained.count;
            0
        }
        Err(refused) => {
            *count = 0;
            refused.refusal.number()
        }
    }
}
