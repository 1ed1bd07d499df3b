// Sweeps along a row, several stages in one: what they carry stays in registers.
ghost use Rattle.std.specs.Prelude.{◌≡◌, ℕ, ◌<◌, length, slice_index_or};
ghost use Rattle.along.specs.Private.{repeat, swept, carried};

use crate::stages::{Stage, Then};

// Each value in more bits.
pub(crate) fn widen<A: Copy, B: From<A> + Copy>(from: &[A], to: &mut [B])
    requires { length from.now ≡ length to.old }
    ensures { (k : ℕ) (a : A) (b : B) → k < length to.old → B.from_gives (slice_index_or from.now k a) (slice_index_or to.new k b) }
{
    for (k, x) in to.iter_mut().enumerate() {
        *x = B::from(from[k]);
    }
}

// One sweep, in place.
fn sweep<S: Stage>(stage: S, row: &mut [S::Value])
    ensures { row.new ≡ swept S.made S.after stage row.old }
{
    let mut stage = stage;
    for x in row {
        *x = stage.next(*x);
    }
}

// A stage so many times, up to four of them in a sweep.
pub(crate) fn repeated<S: Stage>(stage: S, count: usize, row: &mut [S::Value])
    ensures { row.new ≡ repeat count (swept S.made S.after stage) row.old }
{
    let two = Then {
        first: stage,
        second: stage,
    };
    let four = Then {
        first: two,
        second: two,
    };
    for _ in 0..count / 4 {
        sweep(four, row);
    }
    match count % 4 {
        0 => {}
        1 => sweep(stage, row),
        2 => sweep(two, row),
        _ => sweep(
            Then {
                first: stage,
                second: two,
            },
            row,
        ),
    }
}

// One sweep of a row in 16 bits. Returns the stage as it is after it.
fn sweep_from<S: Stage<Value = u64>>(stage: S, narrow: &[u16], row: &mut [u64]) -> S
    requires { length narrow.now ≡ length row.old }
    ensures values { row.new ≡ swept S.made S.after stage narrow.now }
    ensures state { result ≡ carried S.after stage narrow.now }
{
    let mut stage = stage;
    for (k, x) in row.iter_mut().enumerate() {
        *x = stage.next(u64::from(narrow[k]));
    }
    stage
}

// A stage three times in one sweep of a row in 16 bits. Returns the first of them as it is after it. What the
// three carry stands side by side, so that it can be told whether one goes on from another.
fn three_from<S: Stage<Value = u64>>(stage: S, narrow: &[u16], row: &mut [u64]) -> S
    requires { length narrow.now ≡ length row.old }
    ensures values { row.new ≡ repeat 3 (swept S.made S.after stage) narrow.now }
    ensures state { result ≡ carried S.after stage narrow.now }
{
    let mut first = stage;
    let mut second = stage;
    let mut third = stage;
    for (k, x) in row.iter_mut().enumerate() {
        let y = first.next(u64::from(narrow[k]));
        let z = second.next(y);
        *x = third.next(z);
    }
    first
}

// A stage so many times, up to three of them in a first sweep of a row in 16 bits. Returns the first of
// them as it is after that sweep.
pub(crate) fn repeated_from<S: Stage<Value = u64>>(
    stage: S,
    count: usize,
    narrow: &[u16],
    row: &mut [u64],
) -> S
    requires { (0 < count) × (length narrow.now ≡ length row.old) }
    ensures values { row.new ≡ repeat count (swept S.made S.after stage) narrow.now }
    ensures state { result ≡ carried S.after stage narrow.now }
{
    let two = Then {
        first: stage,
        second: stage,
    };
    match count {
        1 => sweep_from(stage, narrow, row),
        2 => sweep_from(two, narrow, row).first,
        _ => {
            let first = three_from(stage, narrow, row);
            repeated(stage, count - 3, row);
            first
        }
    }
}
