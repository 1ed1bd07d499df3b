// The column list on a row. Up to eight stages of width 2 that follow each other, or up to three wider ones,
// are a group, and a group is worked in one sweep over the row: for each block of eight columns the stages
// in turn, the values in an array.
ghost use Rattle.std.specs.Prelude.{◌≡◌, ℕ, ◌+◌, ◌-◌, ◌*◌, ◌<◌, ◌≤◌, ◌++◌, List, length, take, drop, if◌then◌else◌, nat_eq, slice_index};
ghost use Rattle.spec.specs.Words.{tab};
ghost use Rattle.spec.specs.Stream.{box_cells, cascade_cells, cascade_cost};
ghost use Rattle.stream.specs.Stages.{Worked, plus, minus, column_pair, column_slot, column_stage, stages};
ghost use Rattle.stream.specs.Private.{pairs_from, rings_from, Acts, Apart, Slots, Rings, Group};

use crate::sizes::cascade_cells;

// Stages that are worked together.
trait Stages {
    // The columns of a row.
    ghost width: { Self → ℕ };

    // So many cells are theirs.
    ghost has: { Self → ℕ → Type 0 };

    // What they make of columns from one on, and of their cells.
    ghost made: { Self → ℕ → List ℕ → List ℕ → Worked };

    // In turn, on at most eight columns from a column on.
    fn apply(&self, from: usize, x: &mut [u64], own: &mut [u64])
        requires { has self.now (length own.old) × (length x.old ≤ 8) × (from + length x.old ≤ width self.now) }
        ensures { let done = made self.now from x.old own.old in
            (x.new ≡ done.row) × (own.new ≡ done.cells) };
}

// Stages of width 2.
#[derive(Drop)]
struct Pairs {
    count: usize,
    width: usize,
}

impl Stages for Pairs {
    ghost width = { λ s. s.width };

    ghost has = { λ s cells. (s.count ≤ 8) × (s.width ≤ 1279) × (cells ≡ s.count * s.width) };

    ghost made = { λ s from. pairs_from from s.width s.count };

    fn apply(&self, from: usize, x: &mut [u64], own: &mut [u64]) {
        // by number: of an iterator over parts that are written nothing is known afterwards
        for s in 0..self.count {
            let at = s * self.width + from;
            let to = at + x.len();
            pair(x, &mut own[at..to]);
        }
    }
}

// The first cells of two slots of a stage of width 3 or more: that of the row before, and the oldest.
#[derive(Clone, Copy)]
struct Slot {
    before: usize,
    oldest: usize,
}

// Wider stages.
#[derive(Drop)]
struct Rings<const N: usize> {
    slots: [Slot; N],
    width: usize,
}

impl<const N: usize> Stages for Rings<N> {
    ghost width = { λ s. s.width };

    ghost has = { λ s cells. Rings s.width N cells s.slots };

    ghost made = { λ s from. rings_from from s.slots N };

    // inlined, as is `ring`, so that a block of eight is known to be one
    #[inline(always)]
    fn apply(&self, from: usize, x: &mut [u64], own: &mut [u64]) {
        for slot in &self.slots {
            ring(x, slot.before + from, slot.oldest + from, own);
        }
    }
}

// Width 2: to each value the one above it, which the cell keeps.
fn pair(x: &mut [u64], own: &mut [u64])
    requires { length own.old ≡ length x.old }
    ensures { let made = column_pair x.old own.old in
        (x.new ≡ made.row) × (own.new ≡ made.cells) }
{
    for (k, value) in x.iter_mut().enumerate() {
        let below = *value;
        *value = below.wrapping_add(own[k]);
        own[k] = below;
    }
}

// The totals with this row.
fn total(x: &[u64], before: &[u64], totals: &mut [u64])
    requires { (length before.now ≡ length x.now) × (length totals.old ≡ length x.now) }
    ensures { totals.new
        ≡ tab (length x.now) (λ j. plus (slice_index before.now j) (slice_index x.now j)) }
{
    for (k, total) in totals.iter_mut().enumerate() {
        *total = before[k].wrapping_add(x[k]);
    }
}

// What is left of the totals, less the oldest.
fn settle(x: &mut [u64], oldest: &[u64], totals: &[u64])
    requires { (length oldest.now ≡ length x.old) × (length totals.now ≡ length x.old) }
    ensures { x.new ≡ tab (length x.old) (λ j. minus (slice_index totals.now j) (slice_index oldest.now j)) }
{
    for (k, value) in x.iter_mut().enumerate() {
        *value = totals[k].wrapping_sub(oldest[k]);
    }
}

// A width of 3 or more, by the first cells of its two slots for these columns. The oldest totals give way to
// those with this row.
#[inline(always)]
fn ring(x: &mut [u64], before: usize, oldest: usize, own: &mut [u64])
    requires { (length x.old ≤ 8) × Apart before oldest (length x.old) (length own.old) }
    ensures { let made = column_slot before oldest x.old own.old in
        (x.new ≡ made.row) × (own.new ≡ made.cells) }
{
    let few = x.len();
    let end = before + few;
    let stop = oldest + few;
    let mut totals = [0u64; 8];
    total(x, &own[before..end], &mut totals[..few]);
    settle(x, &own[oldest..stop], &totals[..few]);
    own[oldest..stop].copy_from_slice(&totals[..few]);
}

// A block of eight columns.
fn block<S: Stages>(stages: &S, from: usize, row: &mut [u64], own: &mut [u64])
    requires { S.has stages.now (length own.old) × (length row.old ≡ S.width stages.now) × (from + 8 ≤ length row.old) }
    ensures { let old = row.old in
        let done = S.made stages.now from (take 8 (drop from old)) own.old in
        (row.new ≡ take from old ++ (done.row ++ drop (from + 8) old)) × (own.new ≡ done.cells) }
{
    let to = from + 8;
    let mut x = [0u64; 8];
    x.copy_from_slice(&row[from..to]);
    stages.apply(from, &mut x, own);
    row[from..to].copy_from_slice(&x);
}

// A group on a row, a block of columns at a time.
fn sweep<S: Stages>(stages: &S, row: &mut [u64], own: &mut [u64])
    requires { S.has stages.now (length own.old) × (length row.old ≡ S.width stages.now)
        × Acts (length row.old) (length own.old) (S.made stages.now) }
    ensures { let done = S.made stages.now 0 row.old own.old in
        (row.new ≡ done.row) × (own.new ≡ done.cells) }
{
    let blocks = row.len() / 8;
    // by number, for the same reason as in `Pairs`
    for k in 0..blocks {
        block(stages, 8 * k, row, own);
    }
    let from = 8 * blocks;
    stages.apply(from, &mut row[from..], own);
}

// How many widths at the front lie between two bounds; not more than `longest`.
fn alike(widths: &[u8], least: u8, most: u8, longest: usize) -> usize
    ensures { (result ≤ longest) × (result ≤ length widths.now)
        × ((s : ℕ) → s < result → (least ≤ slice_index widths.now s) × (slice_index widths.now s ≤ most))
        × (0 < longest → 0 < length widths.now → least ≤ slice_index widths.now 0 → slice_index widths.now 0 ≤ most → 0 < result) }
{
    let front = &widths[..widths.len().min(longest)];
    for (s, &n) in front.iter().enumerate() {
        if n < least || most < n {
            return s;
        }
    }
    front.len()
}

// How many widths at the front are worked together: a width below 2 alone, at most eight of width 2, or at
// most three wider ones.
fn run(widths: &[u8]) -> usize
    requires { 0 < length widths.now }
    ensures { (result ≤ length widths.now) × Group (take result widths.now) }
{
    match widths[0] {
        0 | 1 => 1,
        2 => alike(widths, 2, 2, 8),
        _ => alike(widths, 3, 255, 3),
    }
}

// The slot before the one of a row, in a ring of n.
fn slot_before(slot: usize, n: usize) -> usize
    requires { 0 < n }
    ensures { result ≡ (if nat_eq slot 0 then n - 1 else slot - 1) }
{
    if slot == 0 { n - 1 } else { slot - 1 }
}

// The slots of wider stages, at the row after `emitted` others.
fn slots<const N: usize>(widths: &[u8], emitted: usize, width: usize) -> [Slot; N]
    requires { (N ≤ 3) × (length widths.now ≡ N) × (width ≤ 1279) × ((s : ℕ) → s < N → 2 < slice_index widths.now s) }
    ensures { Slots width emitted widths.now result }
{
    let mut slots = [Slot {
        before: 0,
        oldest: 0,
    }; N];
    let mut start = 0;
    for (s, &box_width) in widths.iter().enumerate() {
        let n = usize::from(box_width);
        let slot = emitted % n;
        slots[s] = Slot {
            before: start + slot_before(slot, n) * width,
            oldest: start + slot * width,
        };
        start += n * width;
    }
    slots
}

// A group of N wider stages, at the row after `emitted` others.
fn wide<const N: usize>(widths: &[u8], emitted: usize, row: &mut [u64], own: &mut [u64])
    requires { (N ≤ 3) × (length widths.now ≡ N) × (length row.old ≤ 1279) × ((s : ℕ) → s < N → 2 < slice_index widths.now s)
        × (length own.old ≡ length row.old * cascade_cells widths.now) }
    ensures { let w = length row.old in
        let made = stages (λ n. w * box_cells n) (column_stage emitted) widths.now row.old own.old in
        (row.new ≡ made.row) × (own.new ≡ made.cells) }
{
    let width = row.len();
    let slots = slots::<N>(widths, emitted, width);
    sweep(&Rings { slots, width }, row, own);
}

// A group of wider stages, whose number is known to the loop over them.
fn wider(widths: &[u8], emitted: usize, row: &mut [u64], own: &mut [u64])
    requires { (length row.old ≤ 1279) × (0 < length widths.now) × (length widths.now ≤ 3)
        × ((s : ℕ) → s < length widths.now → 2 < slice_index widths.now s)
        × (length own.old ≡ length row.old * cascade_cells widths.now) }
    ensures { let w = length row.old in
        let made = stages (λ n. w * box_cells n) (column_stage emitted) widths.now row.old own.old in
        (row.new ≡ made.row) × (own.new ≡ made.cells) }
{
    match widths.len() {
        1 => wide::<1>(widths, emitted, row, own),
        2 => wide::<2>(widths, emitted, row, own),
        _ => wide::<3>(widths, emitted, row, own),
    }
}

// A group of stages, at the row after `emitted` others. Returns its count of additions and subtractions.
fn group(widths: &[u8], emitted: usize, row: &mut [u64], own: &mut [u64]) -> u64
    requires { (length row.old ≤ 1279) × Group widths.now
        × (length own.old ≡ length row.old * cascade_cells widths.now) }
    ensures { let w = length row.old in
        let made = stages (λ n. w * box_cells n) (column_stage emitted) widths.now row.old own.old in
        (result ≡ w * cascade_cost widths.now) × (row.new ≡ made.row) × (own.new ≡ made.cells) }
{
    let count = widths.len();
    let width = row.len();
    let places = (count * width) as u64;
    match widths[0] {
        0 | 1 => 0,
        2 => {
            sweep(&Pairs { count, width }, row, own);
            places
        }
        _ => {
            wider(widths, emitted, row, own);
            2 * places
        }
    }
}

// The column list, at the row after `emitted` others.
pub(crate) fn down(widths: &[u8], emitted: usize, row: &mut [u64], cells: &mut [u64]) -> u64
    requires { (length widths.now ≤ 48) × (0 < length row.old) × (length row.old ≤ 1279)
        × (length row.old * cascade_cells widths.now ≤ length cells.old) }
    ensures { let w = length row.old in
        let made = stages (λ n. w * box_cells n) (column_stage emitted) widths.now row.old cells.old in
        (result ≡ w * cascade_cost widths.now) × (row.new ≡ made.row) × (cells.new ≡ made.cells) }
{
    let mut rest = widths;
    let mut sum = 0;
    let mut start = 0;
    // not by an iterator: each group has a length of its own
    while !rest.is_empty() {
        let (now, later) = rest.split_at(run(rest));
        let end = start + row.len() * cascade_cells(now);
        sum += group(now, emitted, row, &mut cells[start..end]);
        start = end;
        rest = later;
    }
    sum
}
