// Document 01's rounding with document 02's leftover: a sum over the weight, and a row of sums.
ghost use Rattle.std.specs.Prelude.{◌≡◌, ◌^◌, ◌<◌, nat_lt};
ghost use Rattle.spec.specs.Words.{somewhere};
ghost use Rattle.spec.specs.Recipe.{recipe};
ghost use Rattle.spec.specs.Refusals.{outcome};
ghost use Rattle.gray.specs.Division.{reciprocal_of, divisor_with, divisor, by_reciprocal, quotient, multiple, leftover_of, shade_gray, shade_leftover};
ghost use Rattle.gray.specs.Rounded.{Shaded, Rounded};

use filter::measure;
use spec::{Filter, Refusal};

// Greys are bytes.
const LARGEST_GRAY: u64 = 255;

// 2 to this power stands for 1 in a reciprocal (`reciprocal_bits`).
const RECIPROCAL_BITS: u32 = 55;

// How a weight divides: a shift where it has a single bit set, and otherwise its reciprocal.
#[derive(Clone, Copy)]
pub enum Way {
    Shift(u32),
    Reciprocal(u64),
}

// A weight to divide by: its half, downwards, and how it divides.
#[derive(Clone, Copy)]
pub struct Divisor {
    pub weight: u64,
    pub half: u64,
    pub way: Way,
}

// A grey, and the leftover of its sum.
#[derive(Clone, Copy)]
pub struct Shade {
    pub gray: u8,
    pub leftover: i64,
}

// 2^55 over a weight, downwards, or 0 for a weight of 0.
pub fn reciprocal_of(weight: u64) -> u64
    ensures { result ≡ reciprocal_of weight }
{
    if weight == 0 {
        0
    } else {
        (1u64 << RECIPROCAL_BITS) / weight
    }
}

impl Divisor {
    // A weight to divide by, whose reciprocal was found before.
    pub fn with_reciprocal(weight: u64, reciprocal: u64) -> Divisor
        ensures { result ≡ divisor_with weight reciprocal }
    {
        Divisor {
            weight,
            half: weight / 2,
            way: if weight.is_power_of_two() {
                Way::Shift(weight.trailing_zeros())
            } else {
                Way::Reciprocal(reciprocal)
            },
        }
    }

    // A weight to divide by.
    pub fn of(weight: u64) -> Divisor
        ensures { result ≡ divisor weight }
    {
        Divisor::with_reciprocal(weight, reciprocal_of(weight))
    }

    // The quotient by the reciprocal. The estimate is the quotient or one less, and the next multiple of the
    // weight tells which. The outcome is added, so that a loop has no branch on the sum.
    #[tactic(auto, unfolding(crate::specs::Division::by_reciprocal, crate::specs::Division::estimate))]
    fn by_reciprocal(self, reciprocal: u64, raised: u64) -> u64
        ensures { result ≡ by_reciprocal self.weight reciprocal raised }
    {
        let estimate = raised.wrapping_mul(reciprocal) >> RECIPROCAL_BITS;
        let next = (estimate + 1).wrapping_mul(self.weight);
        estimate + u64::from(next <= raised)
    }

    // A sum over the weight, to the nearest whole number, a half upwards, by a divisor from `of`, where the
    // weight is at most 2^44 and the sum at most 255 times it; over a weight of 0 it is 1.
    #[tactic(auto, unfolding(crate::specs::Division::quotient))]
    pub fn quotient(self, sum: u64) -> u64
        ensures { result ≡ quotient self sum }
    {
        let raised = sum.wrapping_add(self.half);
        match self.way {
            Way::Shift(places) => raised >> (places % 64),
            Way::Reciprocal(reciprocal) => self.by_reciprocal(reciprocal, raised),
        }
    }

    // So many weights, in 64 bits, by the shift where a sum is divided by it.
    #[tactic(auto, unfolding(crate::specs::Division::multiple))]
    fn multiple(self, count: u64) -> u64
        ensures { result ≡ multiple self count }
    {
        match self.way {
            Way::Shift(places) => count << (places % 64),
            Way::Reciprocal(_) => count.wrapping_mul(self.weight),
        }
    }

    // A sum less so many weights, in 64 bits, read with a sign.
    #[tactic(auto, unfolding(crate::specs::Division::leftover_of, crate::specs::Division::signed64))]
    fn leftover(self, sum: u64, count: u64) -> i64
        ensures { result ≡ leftover_of self sum count }
    {
        let apart = sum.wrapping_sub(self.multiple(count));
        apart.cast_signed()
    }

    // Rounds one sum by a divisor from `of`: its grey, and the leftover, sum less weight times grey, where the
    // weight is at most 2^44 and the sum at most 255 times it.
    #[tactic(auto, unfolding(crate::specs::Division::shade_gray, crate::specs::Division::shade_leftover))]
    pub fn shade(self, sum: u64) -> Shade
        ensures { (result.gray ≡ shade_gray self sum) × (result.leftover ≡ shade_leftover self sum) }
    {
        let quotient = self.quotient(sum);
        Shade {
            gray: (quotient % 256) as u8,
            leftover: self.leftover(sum, quotient),
        }
    }
}

// So each sum of a row, of any length, into as many bytes and as many numbers behind them: refused by 7.
pub fn round_row(
    by: Divisor,
    sums: &[u64],
    out: &mut [u8],
    leftovers: &mut [i64],
) -> Result<(), Refusal>
    ensures { Shaded by sums.now out.old leftovers.old (outcome result) out.new leftovers.new }
{
    let count = sums.len();
    if out.len() != count || leftovers.len() != count {
        return Err(Refusal::OtherOutput);
    }
    for (k, &sum) in sums.iter().enumerate() {
        let shade = by.shade(sum);
        out[k] = shade.gray;
        leftovers[k] = shade.leftover;
    }
    Ok(())
}

// Whether a sum is above a limit. Either its upper bit is set then, or that of the limit less the sum, in 64
// bits. These bits are counted: vectors of plain x86-64 add and shift, but have no comparison of 64 bits.
fn over(most: u64, sums: &[u64]) -> bool
    requires { most < 2 ^ 63 }
    ensures { result ≡ somewhere (λ s. nat_lt most s) sums.now }
{
    let mut count = 0u64;
    for &sum in sums {
        let room = most.wrapping_sub(sum);
        count += (room >> 63) + (sum >> 63);
    }
    count != 0
}

// The greys of a row of sums, of any length, into as many bytes, and their leftovers into as many numbers
// behind them: refused by 1 to 4, 7, 11.
pub fn round(
    filter: Filter,
    sums: &[u64],
    out: &mut [u8],
    leftovers: &mut [i64],
) -> Result<(), Refusal>
    ensures { Rounded (recipe filter) sums.now out.old leftovers.old (outcome result) out.new leftovers.new }
{
    let known = measure(filter)?;
    if out.len() != sums.len() || leftovers.len() != sums.len() {
        return Err(Refusal::OtherOutput);
    }
    if over(LARGEST_GRAY * known.gain, sums) {
        return Err(Refusal::TooBright);
    }
    round_row(Divisor::of(known.gain), sums, out, leftovers)
}
