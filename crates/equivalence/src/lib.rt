// Document 01's comparing call: whether two recipes are the same, by how often each width occurs in
// their lists.
#![tactic(auto)]

ghost use Rattle.std.specs.Prelude.{◌≡◌, true, ◌≤◌, replicate};
ghost use Rattle.spec.specs.Words.{everywhere};
ghost use Rattle.spec.specs.Recipe.{recipe, widths};
ghost use Rattle.spec.specs.Same.{same_counts};
ghost use Rattle.spec.specs.Refusals.{first, outcome, compare_checks};
ghost use Rattle.equivalence.specs.Compared.{Compared};
ghost use Rattle.equivalence.specs.Tally.{byte, tally_of, Alike, Decides};

use filter::check;
use spec::{Cascade, Filter, Refusal};

// How often each width occurs in a cascade, with widths of 1 struck out. Every width is a byte.
fn tally(list: Cascade, counts: &mut [u8; 256])
    requires short { list.count ≤ 48 }
    requires zeros { counts.old ≡ replicate 256 0 }
    ensures counted { counts.new ≡ tally_of (widths list) }
    ensures bytes { everywhere byte (widths list) ≡ true }
{
    for &n in list.boxes() {
        counts[usize::from(n)] += 1;
    }
    counts[1] = 0;
}

// Whether two tallies agree at every width. All are looked at: a loop with no early end takes many at once.
fn agree(a: &[u8; 256], b: &[u8; 256]) -> bool
    ensures { Decides result (Alike a.now b.now) }
{
    let mut same = true;
    for (x, y) in a.iter().zip(b) {
        same &= x == y;
    }
    same
}

// Whether every width but 1 occurs as often in one cascade as in another.
fn same_counts(a: Cascade, b: Cascade) -> bool
    requires a_short { a.count ≤ 48 }
    requires b_short { b.count ≤ 48 }
    ensures { result ≡ same_counts (widths a) (widths b) }
{
    let mut of_a = [0u8; 256];
    let mut of_b = [0u8; 256];
    tally(a, &mut of_a);
    tally(b, &mut of_b);
    agree(&of_a, &of_b)
}

// The first recipe's refusal, or else the second's.
fn check_both(a: Filter, b: Filter) -> Result<(), Refusal>
    ensures { outcome result ≡ first (compare_checks (recipe a) (recipe b)) }
{
    check(a)?;
    check(b)
}

// Whether two recipes are the same: refused by the first's 1 to 4 and then by the second's.
pub fn equivalent(a: Filter, b: Filter) -> Result<bool, Refusal>
    ensures { Compared a b result }
{
    check_both(a, b)?;
    Ok(same_counts(a.rows, b.rows) && same_counts(a.columns, b.columns))
}
