// A picture row in three parts: the columns in the middle, which have one inside weight, and the rims to
// their left and right, where each place has its own.
ghost use Rattle.std.specs.Prelude.{◌≡◌, ℕ, ◌≤◌, ◌<◌, pos, length, get_or};
ghost use Rattle.spec.specs.Picture.{largest_gray};
ghost use Rattle.spec.specs.Gray.{gray, leftover as leftoverOf};
ghost use Rattle.gray.specs.Division.{divisor, reciprocal_of};
ghost use Rattle.blur.specs.Rims.{weight_at, Weighty, Dim, Level, Inverse, Ready, Shades, shaded};

use gray::{Divisor, reciprocal_of, round_row};

// Picture columns, from one of them to before another.
#[derive(Clone, Copy)]
pub(crate) struct Span {
    from: usize,
    to: usize,
}

// Picture rows of one inside weight down the columns: the weights along a row, that weight, the columns in
// the middle, what divides there, and the reciprocals of the weights at the rims.
#[derive(Drop)]
pub(crate) struct Band<'a> {
    across: &'a [u64],
    down: u64,
    middle: Span,
    by: Divisor,
    reciprocals: [u64; 1024],
}

// Where the run of equal weights around a place begins.
fn run_start(weights: &[u64], at: usize) -> usize
    requires { at < length weights.now }
    ensures { (result ≤ at) × ((k : ℕ) → result ≤ k → k ≤ at → get_or weights.now k 0 ≡ get_or weights.now at 0) }
{
    for from in (0..at).rev() {
        if weights[from] != weights[at] {
            return from + 1;
        }
    }
    0
}

// Where it ends: a loop of its own, since it goes the other way.
fn run_end(weights: &[u64], at: usize) -> usize
    requires { at < length weights.now }
    ensures { (at < result) × (result ≤ length weights.now)
        × ((k : ℕ) → at ≤ k → k < result → get_or weights.now k 0 ≡ get_or weights.now at 0) }
{
    for to in at + 1..weights.len() {
        if weights[to] != weights[at] {
            return to;
        }
    }
    weights.len()
}

// The reciprocals of the weights at one rim.
fn invert(down: u64, across: &[u64], reciprocals: &mut [u64])
    requires { Weighty across.now down × (length reciprocals.old ≡ length across.now) }
    ensures { Inverse across.now down reciprocals.new }
{
    for (k, weight) in across.iter().enumerate() {
        let product = weight * down;
        reciprocals[k] = reciprocal_of(product);
    }
}

// The greys and leftovers at one rim.
fn rim(
    down: u64,
    across: &[u64],
    reciprocals: &[u64],
    sums: &[u64],
    out: &mut [u8],
    leftovers: &mut [i64],
)
    requires { Weighty across.now down × Inverse across.now down reciprocals.now × Dim largest_gray across.now down sums.now
        × (length reciprocals.now ≡ length across.now) × (length sums.now ≡ length across.now)
        × (length out.old ≡ length across.now) × (length leftovers.old ≡ length across.now) }
    ensures { (out.new ≡ shaded gray across.now down sums.now) × (leftovers.new ≡ shaded leftoverOf across.now down sums.now) }
{
    for (k, &sum) in sums.iter().enumerate() {
        let by = Divisor::with_reciprocal(across[k] * down, reciprocals[k]);
        let shade = by.shade(sum);
        out[k] = shade.gray;
        leftovers[k] = shade.leftover;
    }
}

impl<'a> Band<'a> {
    // What there is before the first row: the middle, by the weights along a row.
    pub(crate) fn none(across: &'a [u64]) -> Band<'a>
        requires { (0 < length across.now) × (length across.now ≤ 1024) }
        ensures { Ready result × (result.across.now ≡ across.now) }
    {
        let at = across.len() / 2;
        let from = run_start(across, at);
        let to = run_end(across, at);
        Band {
            across,
            down: 0,
            middle: Span { from, to },
            by: Divisor::of(0),
            reciprocals: [0; 1024],
        }
    }

    // Goes on to the next row, by its weight down the columns: the band stays, or the reciprocals at the
    // rims are found anew.
    pub(crate) fn turn(&mut self, down: u64)
        requires { Ready self.old × Weighty self.old.across.now down }
        ensures { Ready self.new × (self.new.down ≡ down) × (self.new.across.now ≡ self.old.across.now) }
    {
        if down == self.down {
            return;
        }
        let across = self.across;
        let Span { from, to } = self.middle;
        let end = across.len();
        invert(down, &across[..from], &mut self.reciprocals[..from]);
        invert(down, &across[to..], &mut self.reciprocals[to..end]);
        self.down = down;
        self.by = Divisor::of(across[from] * down);
    }

    // The greys and leftovers at both rims.
    fn rims(&self, sums: &[u64], out: &mut [u8], leftovers: &mut [i64])
        requires { Ready self.now × Weighty self.now.across.now self.now.down × Dim largest_gray self.now.across.now self.now.down sums.now
            × (length sums.now ≡ length self.now.across.now) × (length out.old ≡ length self.now.across.now)
            × (length leftovers.old ≡ length self.now.across.now) }
        ensures { Shades gray 0 self.now sums.now out.new × Shades leftoverOf (pos 0) self.now sums.now leftovers.new }
    {
        let across = self.across;
        let end = across.len();
        let left = self.middle.from;
        let right = self.middle.to;
        rim(
            self.down,
            &across[..left],
            &self.reciprocals[..left],
            &sums[..left],
            &mut out[..left],
            &mut leftovers[..left],
        );
        rim(
            self.down,
            &across[right..],
            &self.reciprocals[right..end],
            &sums[right..],
            &mut out[right..],
            &mut leftovers[right..],
        );
    }

    // The greys and leftovers of a picture row: the rims, and then the middle.
    pub(crate) fn shade_row(&self, sums: &[u64], out: &mut [u8], leftovers: &mut [i64])
        requires { Ready self.now × Weighty self.now.across.now self.now.down × Dim largest_gray self.now.across.now self.now.down sums.now
            × (length sums.now ≡ length self.now.across.now) × (length out.old ≡ length self.now.across.now)
            × (length leftovers.old ≡ length self.now.across.now) }
        ensures { (out.new ≡ shaded gray self.now.across.now self.now.down sums.now)
            × (leftovers.new ≡ shaded leftoverOf self.now.across.now self.now.down sums.now) }
    {
        self.rims(sums, out, leftovers);
        let Span { from, to } = self.middle;
        round_row(
            self.by,
            &sums[from..to],
            &mut out[from..to],
            &mut leftovers[from..to],
        )
        .unwrap();
    }
}
