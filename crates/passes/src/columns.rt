// A pass down the columns, row by row: each row is the one above it, with the row that comes in added and the
// row that goes out taken away. The last row may be cut short. Rows of less than five places are worked place
// by place, since beginning a loop for each of them costs more than their places.
ghost use Rattle.std.specs.Prelude.{◌≡◌, ℕ, ◌+◌, ◌-◌, ◌*◌, ◌≤◌, ◌<◌, ◌^◌, min, length};
ghost use Rattle.laws.proofs.Kernels.{at, Holds};
ghost use Rattle.laws.proofs.Cascades.{spread};
ghost use Rattle.passes.specs.Steps.{Below, Ready};

// A row, or its first places, from which nothing is to be taken away yet.
fn added_row(above: &[u64], coming: &[u64], row: &mut [u64])
    requires above_long { length row.old ≤ length above.now }
    requires coming_long { length row.old ≤ length coming.now }
    requires fits { (k : ℕ) → k < length row.old → at above.now k + at coming.now k ≤ 2 ^ 61 }
    ensures { Below (length row.old) (λ k. at above.now k + at coming.now k) row.new }
{
    for (i, sum) in row.iter_mut().enumerate() {
        *sum = above[i] + coming[i];
    }
}

// Any other row.
fn slid_row(above: &[u64], coming: &[u64], going: &[u64], row: &mut [u64])
    requires above_long { length row.old ≤ length above.now }
    requires coming_long { length row.old ≤ length coming.now }
    requires going_long { length row.old ≤ length going.now }
    requires fits { (k : ℕ) → k < length row.old → at above.now k + at coming.now k ≤ 2 ^ 61 }
    requires enough { (k : ℕ) → k < length row.old → at going.now k ≤ at above.now k + at coming.now k }
    ensures { Below (length row.old) (λ k. at above.now k + at coming.now k - at going.now k) row.new }
{
    for (i, sum) in row.iter_mut().enumerate() {
        *sum = above[i] + coming[i] - going[i];
    }
}

// One row below the first, or its first places.
fn next_row(step: usize, n: usize, here: usize, width: usize, src: &[u64], dst: &mut [u64])
    requires ready { Ready step n src.now dst.old }
    requires below { step ≤ here }
    requires short { width ≤ step }
    requires inside { here + width ≤ length src.now }
    requires whole { here < n * step → here + step ≤ n * step }
    requires sums { Below here (spread step n (at src.now)) dst.old }
    ensures { Below (here + width) (spread step n (at src.now)) dst.new }
{
    let span = n * step;
    let coming = &src[here..];
    let (done, rest) = dst.split_at_mut(here);
    let above = &done[here - step..];
    let row = &mut rest[..width];
    if here < span {
        added_row(above, coming, row);
    } else {
        let going = &src[here - span..];
        slid_row(above, coming, going, row);
    }
}

// The rows below the first one by one: those that are whole, and what there is of one more. (Inlined beside
// the loops over places it takes 1.2 of the time.)
#[inline(never)]
fn by_rows(step: usize, n: usize, src: &[u64], dst: &mut [u64])
    requires ready { Ready step n src.now dst.old }
    requires first { Below (min step (length src.now)) (spread step n (at src.now)) dst.old }
    ensures { Holds (spread step n (at src.now)) dst.new }
{
    let size = src.len();
    let rows = size / step;
    // by number: each row is made of three other places
    for j in 1..rows {
        next_row(step, n, j * step, step, src, dst);
    }
    let here = rows * step;
    if step <= here && here < size {
        next_row(step, n, here, size - here, src, dst);
    }
}

// The places below the first row from which nothing is to be taken away yet.
fn added_places(step: usize, n: usize, src: &[u64], dst: &mut [u64])
    requires ready { Ready step n src.now dst.old }
    requires first { Below (min step (length src.now)) (spread step n (at src.now)) dst.old }
    ensures { Below (min (n * step) (length src.now)) (spread step n (at src.now)) dst.new }
{
    let stop = (n * step).min(src.len());
    // by number: each place is made of one that is written and one that is read
    for k in step..stop {
        dst[k] = dst[k - step] + src[k];
    }
}

// The other places.
fn slid_places(step: usize, n: usize, src: &[u64], dst: &mut [u64])
    requires ready { Ready step n src.now dst.old }
    requires sums { Below (min (n * step) (length src.now)) (spread step n (at src.now)) dst.old }
    ensures { Holds (spread step n (at src.now)) dst.new }
{
    let span = n * step;
    // by number, for the same reason
    for k in span..src.len() {
        dst[k] = dst[k - step] + src[k] - src[k - span];
    }
}

// One width down the columns, in rows of so many places.
pub(crate) fn column_pass(step: usize, n: usize, src: &[u64], dst: &mut [u64])
    requires { Ready step n src.now dst.old }
    ensures { Holds (spread step n (at src.now)) dst.new }
{
    let first = step.min(src.len());
    dst[..first].copy_from_slice(&src[..first]);
    if step < 5 {
        added_places(step, n, src, dst);
        slid_places(step, n, src, dst);
    } else {
        by_rows(step, n, src, dst);
    }
}
