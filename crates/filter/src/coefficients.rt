// The coefficients of a cascade. Boxes are convolved in place: running totals, and from each the total
// n places earlier taken away.
ghost use Rattle.std.specs.Prelude.{◌≡◌, [], ℕ, ◌-◌, ◌≤◌, ◌<◌, ◌^◌, length};
ghost use Rattle.spec.specs.Words.{sum, tab};
ghost use Rattle.spec.specs.Recipe.{widths, weight, kernel as kernelOf};
ghost use Rattle.laws.proofs.Kernels.{at};
ghost use Rattle.laws.proofs.Sequences.{running, behind};
ghost use Rattle.spec.specs.Refusals.{outcome};
ghost use Rattle.filter.specs.Coefficients.{KernelFilled};

use crate::checks::measure;
use crate::zeros::alone;
use spec::{Cascade, Refusal};

// The single coefficient 1.
fn impulse(out: &mut [u64])
    ensures { out.new ≡ tab (length out.old) (at (kernelOf [])) }
{
    out.fill(0);
    if let Some(first) = out.first_mut() {
        *first = 1;
    }
}

// Each entry and all before it, added up.
pub(crate) fn accumulate(out: &mut [u64])
    requires { sum (length out.old) (at out.old) ≤ 2 ^ 44 }
    ensures { out.new ≡ tab (length out.old) (running (at out.old)) }
{
    let mut total = 0;
    for x in out.iter_mut() {
        total += *x;
        *x = total;
    }
}

// Each entry less the one n places earlier. The entries do not fall.
fn difference(out: &mut [u64], n: usize)
    requires { (k : ℕ) → k < length out.old → behind (at out.old) n k ≤ at out.old k }
    ensures { out.new ≡ tab (length out.old) (λ k. at out.old k - behind (at out.old) n k) }
{
    // by place: each entry needs the one n places earlier
    for k in (n..out.len()).rev() {
        out[k] -= out[k - n];
    }
}

// The coefficients of a cascade, box by box, as far as the slice goes.
pub(crate) fn convolve(list: Cascade, out: &mut [u64])
    requires { (list.count ≤ 48) × (0 < weight (widths list)) × (weight (widths list) ≤ 2 ^ 44) }
    ensures { out.new ≡ tab (length out.old) (at (kernelOf (widths list))) }
{
    impulse(out);
    for &n in list.boxes() {
        accumulate(out);
        difference(out, usize::from(n));
    }
}

// The coefficients of a cascade into a slice of exactly its reach and one: refused by 1 to 4, for the
// cascade as a recipe of its own, and by 7.
pub fn kernel(list: Cascade, out: &mut [u64]) -> Result<(), Refusal>
    ensures { KernelFilled (widths list) out.old (outcome result) out.new }
{
    let m = measure(alone(list))?;
    if out.len() != m.row_order + 1 {
        return Err(Refusal::OtherOutput);
    }
    convolve(list, out);
    Ok(())
}
