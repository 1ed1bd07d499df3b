// What boresums prints for a job.
#![tactic(auto)]

ghost use Rattle.std.specs.Prelude.{◌≡◌, ◌↔◌, ◌≤◌, length, take, IsNone};
ghost use Rattle.std.specs.Io.KnownBytes.{Appends};
ghost use Rattle.spec.specs.Program.{printed};

use report::{fill, open};
use std::io::Write;
pub use stdio::Progress;

// How many fillings are asked for at most: a grown picture has at most 1,279 rows.
const CALLS: usize = 1280;

// Writes as many bytes of a text, from the first on, up to a write that fails.
fn write<W: Write>(writer: &mut W, text: &[u8; 65536], end: usize) -> Progress
    requires { end ≤ 65536 }
    ensures bound { result.count ≤ end }
    ensures all { IsNone result.error ↔ (result.count ≡ end) }
    ensures sent { Appends (W.contents writer.old) (W.contents writer.new) (take result.count (take end text.now)) }
{
    stdio::write_all(writer, &text[..end])
}

// Prints what boresums prints for a job: its first line and a line for each grown row, or the line of
// the refusal. Where a write fails it stops. A buffer is filled and written out whole, so that a narrow
// picture does not cost a system call for each line.
pub fn print_report<W: Write>(writer: &mut W, job: &[u8]) -> Progress
    ensures bound { result.count ≤ length (printed job.now) }
    ensures all { IsNone result.error ↔ (result.count ≡ length (printed job.now)) }
    ensures sent { Appends (W.contents writer.old) (W.contents writer.new) (take result.count (printed job.now)) }
{
    let mut cells = [0u64; 8192];
    let mut text = [0u8; 65536];
    let mut at = open(job, &mut cells);
    let mut count = 0;
    for _ in 0..CALLS {
        let filled = fill(at, job, &mut cells, &mut text);
        let part = write(writer, &text, filled.count);
        count += part.count;
        if part.error.is_some() || filled.end.is_some() {
            return Progress {
                count,
                error: part.error,
            };
        }
        at = filled.opened;
    }
    Progress { count, error: None }
}
