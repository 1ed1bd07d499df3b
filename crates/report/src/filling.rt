// Filling a text with the next whole lines: the first line, and then those of the next grown rows.
ghost use Rattle.std.specs.Prelude.{◌≡◌, ◌+◌, ◌*◌, ◌≤◌, length};
ghost use Rattle.spec.specs.Program.{line as line_of};
ghost use Rattle.report.specs.Opening.{front};
ghost use Rattle.report.specs.Filling.{row_lines, next_lines, heading, job_lines, filled, fill as fillOf};
ghost use Rattle.report.specs.Private.{Put};

use crate::opening::{Opened, head};
use filter::full_size;
use rows::advance;
use spec::Refusal;
use stream::State;
use text::line;

// The answer of a filling: why the next grown row was refused, where it was, how many bytes stand filled
// at the front of the text, and the job as the next call takes it.
#[derive(Drop)]
pub struct Filled {
    pub end: Option<Refusal>,
    pub count: usize,
    pub opened: Opened,
}

// Why the next grown row was refused, where it was; how many bytes the lines of grown rows have, and the
// state after them.
#[derive(Drop)]
struct Reached {
    end: Option<Refusal>,
    count: usize,
    state: State,
}

// The line of a row at the front of a text with room for it; its length.
fn print(row: &[u64], text: &mut [u8]) -> usize
    requires { 21 * length row.now + 1 ≤ length text.old }
    ensures { let t = line_of row.now in (result ≡ length t) × (text.new ≡ front t text.old) }
{
    let room = 21 * row.len() + 1;
    line(row, &mut text[..room]).unwrap()
}

// The lines of the next grown rows, as many as `count` says or as can be had, each straight to its place.
// It stops where a call is refused: that changes nothing, and neither would any further one.
fn put_lines(
    state: State,
    count: usize,
    pixels: &[u8],
    row: &mut [u64],
    cells: &mut [u64],
    text: &mut [u8],
) -> Reached
    requires { count * (21 * length row.old + 1) ≤ length text.old }
    ensures { Put (row_lines count state pixels.now row.old cells.old) result cells.new text.old text.new }
{
    let mut at = state;
    let mut end = 0;
    for _ in 0..count {
        match advance(at, pixels, row, cells) {
            Ok(next) => at = next.state,
            Err(refused) => {
                return Reached {
                    end: Some(refused.refusal),
                    count: end,
                    state: at,
                };
            }
        }
        end += print(row, &mut text[end..]);
    }
    Reached {
        end: None,
        count: end,
        state: at,
    }
}

// The lines of as many grown rows as surely have room, worked in a row of the grown width. Where the
// state's recipe or sides are refused, so is the row, by 9.
fn put_rows(state: State, pixels: &[u8], cells: &mut [u64], text: &mut [u8]) -> Reached
    requires { 65472 ≤ length text.old }
    ensures { Put (next_lines state pixels.now cells.old) result cells.new text.old text.new }
{
    let Ok(grown) = full_size(state.filter, state.width, state.height) else {
        return Reached {
            end: Some(Refusal::BadState),
            count: 0,
            state,
        };
    };
    // 1,024 + 255, the widest grown row
    let mut row = [0u64; 1279];
    let count = 65472 / (21 * grown.width + 1);
    put_lines(state, count, pixels, &mut row[..grown.width], cells, text)
}

// The first line at the front of a text, where it is not out yet; its length.
fn begin(opened: Opened, text: &mut [u8]) -> usize
    requires { 64 ≤ length text.old }
    ensures { let t = heading opened in (result ≡ length t) × (result ≤ 64) × (text.new ≡ front t text.old) }
{
    if opened.is_begun {
        return 0;
    }
    let mut first = [0u8; 64];
    let count = head(opened, &mut first);
    text[..count].copy_from_slice(&first[..count]);
    count
}

// The first line, where it is not out yet, and the lines of the next grown rows.
fn put_all(opened: Opened, job: &[u8], cells: &mut [u64], text: &mut [u8]) -> Reached
    requires { length text.old ≡ 65536 }
    ensures { Put (job_lines opened job.now cells.old) result cells.new text.old text.new }
{
    let from = begin(opened, text);
    let offset = opened.offset.min(job.len());
    let rows = put_rows(opened.state, &job[offset..], cells, &mut text[from..]);
    Reached {
        count: from + rows.count,
        ..rows
    }
}

// Fills the front of a text with the next whole lines: the first line if it is not out yet, and the lines
// of as many of the next grown rows as surely have room. Where one of these is refused, it stops there and
// the answer has the refusal: 10 where all are out, 9 for a job that was refused; else it has none, and
// a further call goes on.
pub fn fill(opened: Opened, job: &[u8], cells: &mut [u64], text: &mut [u8; 65536]) -> Filled
    ensures text_after { filled result cells.new text.new ≡ fillOf opened job.now cells.old text.old }
    ensures count_bound { result.count ≤ 65536 }
{
    let lines = put_all(opened, job, cells, text);
    Filled {
        end: lines.end,
        count: lines.count,
        opened: Opened {
            state: lines.state,
            is_begun: true,
            ..opened
        },
    }
}
