// The row list of the one pass on a row of pixels, all its boxes in one call. Boxes along a row may be
// taken in any order, and a box of width n is the running total less the running total n places earlier:
// so first come the running totals, one for each wide box, then the boxes of width 2, and then the
// differences. Without a wide box the row begins in 16 bits.
#![tactic(auto)]

ghost use Rattle.std.specs.Prelude.{◌≡◌, ◌-◌, ◌%◌, ◌^◌, ◌==◌, min, length, replicate, count_by, if◌then◌else◌};
ghost use Rattle.spec.specs.Words.{sum, tab, somewhere};
ghost use Rattle.spec.specs.Recipe.{widths};
ghost use Rattle.laws.proofs.Kernels.{at};
ghost use Rattle.laws.proofs.Cascades.{cascaded};
ghost use Rattle.along.specs.Along.{wide, row_after, total_after};
ghost use Rattle.along.specs.Private.{repeat, paired};

mod differences;
mod stages;
mod sweeps;

use crate::differences::{all_apart, is_wide};
use crate::stages::{Pair, Total};
use crate::sweeps::{repeated, repeated_from, widen};
use spec::Cascade;

// How many boxes have width 2, and how many are wide.
fn counted(boxes: &[u8]) -> (usize, usize)
    ensures twos { result.0 ≡ count_by (λ n. n == 2) boxes.now }
    ensures wides { result.1 ≡ count_by wide boxes.now }
{
    let twos = boxes.iter().filter(|n| **n == 2).count();
    let wides = boxes.iter().filter(|n| is_wide(**n)).count();
    (twos, wides)
}

// The pixels, as many as fit, on a row that was black.
fn load(pixels: &[u8], narrow: &mut [u16])
    requires { narrow.old ≡ replicate (length narrow.old) 0 }
    ensures { narrow.new ≡ tab (length narrow.old) (at pixels.now) }
{
    let fit = pixels.len().min(narrow.len());
    widen(&pixels[..fit], &mut narrow[..fit]);
}

// So many boxes of width 2, as many of them in 16 bits as cannot overflow: 255 * 2^8 is below 2^16.
fn work_pairs(count: usize, narrow: &mut [u16], row: &mut [u64])
    requires { length narrow.old ≡ length row.old }
    ensures { let fast = min count 8 in
        row.new ≡ repeat (count - fast) (paired (2 ^ 64)) (repeat fast (paired (2 ^ 16)) narrow.old) }
{
    let fast = count.min(8);
    repeated(Pair { before: 0 }, fast, narrow);
    widen(narrow, row);
    repeated(Pair { before: 0 }, count - fast, row);
}

// The row list, with a black row in 16 bits to work on.
fn work(boxes: &[u8], pixels: &[u8], narrow: &mut [u16], row: &mut [u64]) -> u64
    requires { narrow.old ≡ replicate (length row.old) 0 }
    ensures { let w = length row.old in let p = at pixels.now in
        (row.new ≡ tab w (λ k. cascaded 1 boxes.now p k % 2 ^ 64))
        × (result ≡ (if somewhere wide boxes.now then sum w p % 2 ^ 64 else 0)) }
{
    load(pixels, narrow);
    let (twos, wides) = counted(boxes);
    if wides == 0 {
        work_pairs(twos, narrow, row);
        return 0;
    }
    // the first running total ends as the total of the pixels
    let first = repeated_from(Total { total: 0 }, wides, narrow, row);
    repeated(Pair { before: 0 }, twos, row);
    all_apart(boxes, row);
    first.total
}

// Works a row list along the pixels of a row and the black places after them, modulo 2^64. What the row
// held is not read, nor are pixels past its end. Returns the total of the pixels where the list has a wide
// box, and 0 where it has none. Where the list is longer than 48, or the row than 1,279, the row is left as
// it was, and the result is 0.
pub fn along(list: Cascade, pixels: &[u8], row: &mut [u64]) -> u64
    ensures { let ns = widths list in let xs = pixels.now in let old = row.old in
        (row.new ≡ row_after ns xs old) × (result ≡ total_after ns xs (length old)) }
{
    if 48 < list.count || 1279 < row.len() {
        return 0;
    }
    let mut narrow = [0u16; 1279];
    work(list.boxes(), pixels, &mut narrow[..row.len()], row)
}
