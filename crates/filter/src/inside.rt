// Document 02's inside weights along one axis: at each place of a line, the coefficients of a cascade that
// fall inside it, added up.
ghost use Rattle.std.specs.Prelude.{◌≡◌, ◌+◌, ◌-◌, ◌/◌, ◌≤◌, ◌<◌, ◌^◌, length};
ghost use Rattle.spec.specs.Words.{sum, tab};
ghost use Rattle.spec.specs.Recipe.{widths, order, weight, kernel as kernelOf};
ghost use Rattle.laws.proofs.Kernels.{at};
ghost use Rattle.laws.proofs.Sequences.{boxed};
ghost use Rattle.spec.specs.Refusals.{outcome};
ghost use Rattle.filter.specs.Axis.{AxisFilled};

use crate::checks::measure;
use crate::coefficients::{accumulate, convolve};
use crate::sizes::bad_side;
use crate::zeros::alone;
use spec::{Cascade, Refusal};

// A box of the line's length on the coefficients, at each place of the line: a running total, and the total
// that many places earlier taken away. The coefficients give way to their running totals.
fn box_inside(kernel: &mut [u64], out: &mut [u64])
    requires { (0 < length kernel.old) × (length kernel.old ≤ 256) × (sum (length kernel.old) (at kernel.old) ≤ 2 ^ 44)
        × (length out.old ≤ 1024) }
    ensures { let n = length out.old in
        out.new ≡ tab n (λ k. boxed n (at kernel.old) (k + (length kernel.old - 1) / 2)) }
{
    accumulate(kernel);
    let side = out.len();
    let last = kernel.len() - 1;
    let half = last / 2;
    // by place: each takes totals from two other places
    for k in 0..side {
        let i = k + half;
        let here = if i < last { kernel[i] } else { kernel[last] };
        let earlier = if i < side { 0 } else { kernel[i - side] };
        out[k] = here - earlier;
    }
}

// The same for the coefficients of a cascade, with a slice of exactly its reach and one to form them in.
fn axis_sums(list: Cascade, kernel: &mut [u64], out: &mut [u64])
    requires { (list.count ≤ 48) × (0 < weight (widths list)) × (weight (widths list) ≤ 2 ^ 44) × (order (widths list) ≤ 255)
        × (length kernel.old ≡ order (widths list) + 1) × (length out.old ≤ 1024) }
    ensures { let n = length out.old in
        out.new ≡ tab n (λ k. boxed n (at (kernelOf (widths list))) (k + order (widths list) / 2)) }
{
    convolve(list, kernel);
    box_inside(kernel, out);
}

// The inside weight of a cascade at each place of a line, which the product of both axes takes to that of a
// picture: refused by 1 to 4, for the cascade as a recipe of its own, by 5 for the line's length and by 7.
pub fn axis_weights(list: Cascade, side: usize, out: &mut [u64]) -> Result<(), Refusal>
    ensures { AxisFilled (widths list) side out.old (outcome result) out.new }
{
    let m = measure(alone(list))?;
    if bad_side(side) {
        return Err(Refusal::BadSides);
    }
    if out.len() != side {
        return Err(Refusal::OtherOutput);
    }
    let mut kernel = [0; 256];
    let count = m.row_order + 1;
    axis_sums(list, &mut kernel[..count], out);
    Ok(())
}
