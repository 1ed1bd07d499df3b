// The scale card of a recipe: its weight, its reaches, and the variance on each axis.
ghost use Rattle.std.specs.Prelude.{◌≡◌, ◌*◌, ◌≤◌, ◌^◌};
ghost use Rattle.spec.specs.Recipe.{widths, recipe};
ghost use Rattle.spec.specs.Gray.{ratio as ratioOf, box_square, squares as squaresOf, variance as variance_of, scale_card};
ghost use Rattle.spec.specs.Refusals.{answer, recipe_checks};
ghost use Rattle.filter.specs.Answers.{card_told};

use crate::checks::measure;
use spec::{Cascade, Filter, Refusal};

// A recipe's weight, its reaches, and the variance on each axis (document 01: the scale card).
#[derive(Clone, Copy)]
pub struct Scale {
    pub gain: u64,
    pub row_order: usize,
    pub column_order: usize,
    pub row_variance: f64,
    pub column_variance: f64,
}

// n * n - 1; 0 for a width of 0, which no accepted recipe has.
fn square(n: u8) -> u64
    ensures { (result ≡ box_square n) × (result ≤ 65024) }
{
    let m = u64::from(n);
    (m * m).saturating_sub(1)
}

// The sum of n * n - 1 over a cascade.
fn squares(list: Cascade) -> u64
    requires { list.count ≤ 48 }
    ensures { (result ≡ squaresOf (widths list)) × (result ≤ 65024 * 48) }
{
    let mut sum = 0;
    for &n in list.boxes() {
        sum += square(n);
    }
    sum
}

// The quotient of two integers that 64-bit floats hold, by one division.
fn ratio(m: u64, d: u64) -> f64
    requires { (m ≤ 2 ^ 53) × (d ≤ 2 ^ 53) }
    ensures { result ≡ ratioOf m d }
{
    (m as f64) / (d as f64)
}

// The variance of a cascade.
fn variance(list: Cascade) -> f64
    requires { list.count ≤ 48 }
    ensures { result ≡ variance_of (widths list) }
{
    ratio(squares(list), 12)
}

// The scale card of a recipe: refused by 1 to 4.
pub fn moments(filter: Filter) -> Result<Scale, Refusal>
    ensures { card_told result ≡ answer (recipe_checks (recipe filter)) (scale_card (recipe filter)) }
{
    let m = measure(filter)?;
    Ok(Scale {
        gain: m.gain,
        row_order: m.row_order,
        column_order: m.column_order,
        row_variance: variance(filter.rows),
        column_variance: variance(filter.columns),
    })
}
