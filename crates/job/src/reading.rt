// Reading a job.
ghost use Rattle.std.specs.Prelude.{◌≡◌, ◌+◌, ◌≤◌, ◌<◌, length};
ghost use Rattle.spec.specs.Words.{part};
ghost use Rattle.spec.specs.Recipe.{held};
ghost use Rattle.spec.specs.Job.{read16 as read16Of};
ghost use Rattle.spec.specs.Refusals.{told, bad_head};
ghost use Rattle.job.specs.Answers.{job_read};
ghost use Rattle.job.specs.Private.{Whole, rest_read};

use filter::full_size;
use spec::{Cascade, Filter, Refusal};

// A job that was read: the recipe, the sides of the picture, and the offset at which its pixels begin.
#[derive(Clone, Copy)]
pub struct Job {
    pub filter: Filter,
    pub width: usize,
    pub height: usize,
    pub offset: usize,
}

// The 16-bit number at a place, low byte first.
fn read16(bytes: &[u8], at: usize) -> usize
    requires { at + 1 < length bytes.now }
    ensures { (result ≡ read16Of bytes.now at) × (result ≤ 65535) }
{
    usize::from(u16::from_le_bytes([bytes[at], bytes[at + 1]]))
}

// 14: under 7 bytes, or another mark or version.
fn bad_head(bytes: &[u8]) -> bool
    ensures { result ≡ bad_head bytes.now }
{
    bytes.len() < 7 || !bytes.starts_with(b"BOR") || read16(bytes, 3) != 1
}

// The list that stands at a place, with zeros past it.
fn cascade_at(bytes: &[u8], at: usize, count: u8) -> Cascade
    requires { (count ≤ 48) × (at + count ≤ length bytes.now) }
    ensures { result ≡ held (part at count bytes.now) }
{
    let mut widths = [0u8; 48];
    let n = usize::from(count);
    widths[..n].copy_from_slice(&bytes[at..at + n]);
    Cascade { count, widths }
}

// A job whose lists and sides are all there: refused by 2 to 5, then by 14 for another total length.
fn rest(bytes: &[u8], row_count: u8, column_count: u8) -> Result<Job, Refusal>
    requires { Whole bytes.now row_count column_count }
    ensures { told (λ j. j) result ≡ rest_read bytes.now }
{
    let columns_at = 7 + usize::from(row_count);
    let sides_at = columns_at + usize::from(column_count);
    let filter = Filter {
        rows: cascade_at(bytes, 7, row_count),
        columns: cascade_at(bytes, columns_at, column_count),
    };
    let width = read16(bytes, sides_at);
    let height = read16(bytes, sides_at + 2);
    let offset = sides_at + 4;
    full_size(filter, width, height)?;
    if bytes.len() != offset + width * height {
        return Err(Refusal::BadFile);
    }
    Ok(Job {
        filter,
        width,
        height,
        offset,
    })
}

// Reads a job: refused by 14 for under 7 bytes, mark or version; 1; 14 if lists and sides are cut short;
// 2 to 5; 14 for any other total length.
pub fn read(bytes: &[u8]) -> Result<Job, Refusal>
    ensures { told (λ j. j) result ≡ job_read bytes.now }
{
    if bad_head(bytes) {
        return Err(Refusal::BadFile);
    }
    let row_count = bytes[5];
    let column_count = bytes[6];
    if 48 < row_count || 48 < column_count {
        return Err(Refusal::TooLong);
    }
    if bytes.len() < 11 + usize::from(row_count) + usize::from(column_count) {
        return Err(Refusal::BadFile);
    }
    rest(bytes, row_count, column_count)
}
