// Opening a job, and the first line.
ghost use Rattle.std.specs.Prelude.{◌≡◌, length};
ghost use Rattle.spec.specs.Refusals.{number};
ghost use Rattle.report.specs.Opening.{not_opened, opening, job_opened, first_line, front};
ghost use Rattle.report.specs.Private.{opened_or_not};

use filter::{measure, no_filter};
use job::read;
use spec::Refusal;
use stream::{State, start, state_at};
use text::{line, refusal_line};

// A job that the program has opened: 0 or the number of the refusal, the state of the one pass, the
// offset at which the pixels begin, the grown sides and the weight, and whether the first line is out. On
// a refusal all but the number is zero. Anyone may fill one with anything, and `fill` says what it makes of
// every number of 8 bits: so the refusal is told by its number here.
#[derive(Clone, Copy)]
pub struct Opened {
    pub refusal: u8,
    pub state: State,
    pub offset: usize,
    pub width: usize,
    pub height: usize,
    pub gain: u64,
    pub is_begun: bool,
}

// A job that is refused: its number, and all else zero.
fn not_opened(refusal: Refusal) -> Opened
    ensures { result ≡ not_opened (number refusal) }
{
    Opened {
        refusal: refusal.number(),
        state: state_at(no_filter(), 0, 0, 0),
        offset: 0,
        width: 0,
        height: 0,
        gain: 0,
        is_begun: false,
    }
}

// Reads a job and starts the one pass.
fn started(bytes: &[u8], cells: &mut [u64; 8192]) -> Result<Opened, Refusal>
    ensures { opening (opened_or_not result) cells.new ≡ job_opened bytes.now cells.old }
{
    if 65536 < bytes.len() {
        return Err(Refusal::BadFile);
    }
    let job = read(bytes)?;
    let state = start(job.filter, job.width, job.height, cells)?;
    let m = measure(job.filter)?;
    Ok(Opened {
        refusal: 0,
        state,
        offset: job.offset,
        width: job.width + m.row_order,
        height: job.height + m.column_order,
        gain: m.gain,
        is_begun: false,
    })
}

// Opens a job: reads it and starts the one pass. Refused by 14 for over 65,536 bytes, then as a job is,
// then by 8.
pub fn open(bytes: &[u8], cells: &mut [u64; 8192]) -> Opened
    ensures { opening result cells.new ≡ job_opened bytes.now cells.old }
{
    started(bytes, cells).unwrap_or_else(not_opened)
}

// The first line: the grown width, the grown height and the weight, or the refusal, such as
// `refused 8`. Its length.
pub(crate) fn head(opened: Opened, text: &mut [u8; 64]) -> usize
    ensures { let t = first_line opened in (result ≡ length t) × (text.new ≡ front t text.old) }
{
    if opened.refusal != 0 {
        return refusal_line(opened.refusal, text);
    }
    let numbers = [opened.width as u64, opened.height as u64, opened.gain];
    line(&numbers, text).unwrap()
}
