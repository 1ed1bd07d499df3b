// From each value of a row the value n places earlier taken away, modulo 2^64, in place from the end of
// the row.
ghost use Rattle.std.specs.Prelude.{◌≡◌, ◌+◌, ◌-◌, ◌≤◌, ◌++◌, length, take, drop, if◌then◌else◌, IsTrue};
ghost use Rattle.spec.specs.Words.{tab};
ghost use Rattle.laws.proofs.Kernels.{at};
ghost use Rattle.laws.proofs.Slices.{Leftwards};
ghost use Rattle.along.specs.Along.{wide};
ghost use Rattle.along.specs.Private.{minus, less_earlier, differences, wide_boxes};

fn subtract(row: &mut [u64], by: &[u64])
    requires { length by.now ≡ length row.old }
    ensures { let xs = row.old in
        row.new ≡ tab (length xs) (λ k. minus (at xs k) (at by.now k)) }
{
    for (k, x) in row.iter_mut().enumerate() {
        *x = x.wrapping_sub(by[k]);
    }
}

// Eight differences from a place on. What is taken away is copied first, since it may reach into the
// eight.
fn eight_apart(n: usize, from: usize, row: &mut [u64])
    requires { (n ≤ from) × (from + 8 ≤ length row.old) }
    ensures { let xs = row.old in
        row.new ≡ take from xs ++ (tab 8 (λ k. minus (at xs (from + k)) (at xs (from - n + k))) ++ drop 8 (drop from xs)) }
{
    let mut earlier = [0u64; 8];
    // one by one: the compiler then keeps them in registers
    for (k, x) in earlier.iter_mut().enumerate() {
        *x = row[from - n + k];
    }
    subtract(&mut row[from..from + 8], &earlier);
}

// Eight at a time. Returns the place before which nothing is done yet.
fn eights(n: usize, row: &mut [u64]) -> usize
    requires { n ≤ 255 }
    ensures { Leftwards (less_earlier n row.old) row.old result row.new }
{
    let mut from = row.len();
    // counted by hand: of an iterator over parts that are written nothing is known afterwards
    while n + 8 <= from {
        from -= 8;
        eight_apart(n, from, row);
    }
    from
}

// One width.
fn apart(n: usize, row: &mut [u64])
    requires { n ≤ 255 }
    ensures { row.new ≡ differences n row.old }
{
    let end = eights(n, row);
    // by place: each value needs the one n places earlier
    for k in (n..end).rev() {
        row[k] = row[k].wrapping_sub(row[k - n]);
    }
}

// A width of 1 changes nothing, and the boxes of width 2 are done elsewhere.
pub(crate) fn is_wide(n: u8) -> bool
    ensures { result ≡ wide n }
{
    n != 1 && n != 2
}

// All wide widths of a list.
pub(crate) fn all_apart(boxes: &[u8], row: &mut [u64])
    ensures { row.new ≡ wide_boxes boxes.now row.old }
{
    for &n in boxes {
        if is_wide(n) {
            apart(usize::from(n), row);
        }
    }
}
