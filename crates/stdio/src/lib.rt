// Input read to its end and output written whole. A call that was interrupted or would have to wait, and a
// write that took nothing, is made again, a bounded number of times; after a call that failed others get time
// to run before.
#![tactic(auto)]

ghost use Rattle.std.specs.Prelude.{◌≡◌, ◌↔◌, ◌<◌, ◌≤◌, ◌⊎◌, length, take, IsNone, IsTrue};
ghost use Rattle.std.specs.IoError.{error_kind};
ghost use Rattle.std.specs.Io.{ReadsAtMost, WritesAtMost};
ghost use Rattle.std.specs.Io.KnownBytes.{Appends, Consumes, IsAtEnd, ReadConsumes, WriteAppends};

use std::io::{Error, ErrorKind, Read, Result, Write};
use std::thread::yield_now;

// How often a call is made while no byte moves: for some seconds.
const TRIES: usize = 10000000;

// How far a reading or a writing came: how many bytes, and why no further where a call failed.
#[derive(Drop)]
pub struct Progress {
    pub count: usize,
    pub error: Option<Error>,
}

// Whether the call that failed may go well when it is made again: it was interrupted, or it would have
// had to wait.
fn may_pass(error: &Error) -> bool
    ensures { IsTrue result ↔ (error_kind error.now ≡ ErrorKind.Interrupted) ⊎ (error_kind error.now ≡ ErrorKind.WouldBlock) }
{
    let kind = error.kind();
    kind == ErrorKind::Interrupted || kind == ErrorKind::WouldBlock
}

// Reads some bytes; none where the input has ended.
fn read_some<R: Read>(reader: &mut R, bytes: &mut [u8]) -> Result<usize>
    ensures bound { ReadsAtMost result bytes.new }
    ensures read { ReadConsumes (R.remaining reader.old) (R.remaining reader.new) result bytes.new }
{
    let mut last = Error::from(ErrorKind::TimedOut);
    for _ in 0..TRIES {
        match reader.read(bytes) {
            Err(error) if may_pass(&error) => last = error,
            answer => return answer,
        }
        yield_now();
    }
    Err(last)
}

// Reads until the input ends, `bytes` is full or a read fails.
fn read_into<R: Read>(reader: &mut R, bytes: &mut [u8]) -> Progress
    ensures bound { result.count ≤ length bytes.new }
    ensures read { Consumes (R.remaining reader.old) (R.remaining reader.new) (take result.count bytes.new) }
    ensures end { IsNone result.error → result.count < length bytes.new → IsAtEnd (R.remaining reader.new) }
{
    let mut count = 0;
    let error = loop {
        if count == bytes.len() {
            break None;
        }
        match read_some(reader, &mut bytes[count..]) {
            Ok(0) => break None,
            Ok(more) => count += more,
            Err(error) => break Some(error),
        }
    };
    Progress { count, error }
}

// Reads what boresums takes: up to one byte more than the 65,536 of a job, which is enough to see that the
// input is over that.
pub fn read_all<R: Read>(reader: &mut R, bytes: &mut [u8; 65537]) -> Progress
    ensures bound { result.count ≤ length bytes.new }
    ensures read { Consumes (R.remaining reader.old) (R.remaining reader.new) (take result.count bytes.new) }
    ensures end { IsNone result.error → result.count < 65537 → IsAtEnd (R.remaining reader.new) }
{
    read_into(reader, bytes)
}

// Writes some bytes, and answers how many; none where no try takes any.
fn write_some<W: Write>(writer: &mut W, bytes: &[u8]) -> Result<usize>
    ensures bound { WritesAtMost result bytes.now }
    ensures sent { WriteAppends (W.contents writer.old) (W.contents writer.new) result bytes.now }
{
    let mut last = Ok(0);
    for _ in 0..TRIES {
        match writer.write(bytes) {
            Ok(0) => {}
            Err(error) if may_pass(&error) => {
                last = Err(error);
                yield_now();
            }
            answer => return answer,
        }
    }
    last
}

// Writes `bytes` from the first on, and answers how many: all of them, unless a write fails.
pub fn write_all<W: Write>(writer: &mut W, bytes: &[u8]) -> Progress
    ensures bound { result.count ≤ length bytes.now }
    ensures whole { IsNone result.error ↔ (result.count ≡ length bytes.now) }
    ensures sent { Appends (W.contents writer.old) (W.contents writer.new) (take result.count bytes.now) }
{
    let mut rest = bytes;
    let error = loop {
        if rest.is_empty() {
            break None;
        }
        match write_some(writer, rest) {
            Ok(0) => break Some(Error::from(ErrorKind::WriteZero)),
            Ok(count) => rest = &rest[count..],
            Err(error) => break Some(error),
        }
    };
    Progress {
        count: bytes.len() - rest.len(),
        error,
    }
}
