// The checks of a recipe, with its weight and its reaches.
ghost use Rattle.std.specs.Prelude.{◌≡◌, ◌||◌, [], ◌∷◌, ◌+◌, ◌*◌, ◌^◌, ◌≤◌, min, eqb, ltb};
ghost use Rattle.spec.specs.Recipe.{widths, recipe, box_order, order, weight};
ghost use Rattle.spec.specs.Refusals.{check, first, recipe_checks, answer, told, outcome};
ghost use Rattle.filter.specs.Measured.{measured};

use spec::{Cascade, Filter, Refusal};

// The largest weight, and what stands for every weight above it.
pub const HEAVIEST: u64 = 17_592_186_044_416;

const TOO_HEAVY: u64 = 17_592_186_044_417;

// A recipe's weight and its reaches.
#[derive(Clone, Copy)]
pub struct Measures {
    pub gain: u64,
    pub row_order: usize,
    pub column_order: usize,
}

// The reach of one cascade, and a weight times that of the cascade, held at TOO_HEAVY.
#[derive(Drop)]
struct Extent {
    order: usize,
    gain: u64,
}

// The reach of one box.
fn box_order(n: u8) -> usize
    ensures { (result ≡ box_order n) × (result ≤ 254) }
{
    usize::from(n.saturating_sub(1))
}

// A weight times a width, held at TOO_HEAVY.
fn times(gain: u64, n: u8) -> u64
    requires { gain ≤ 2 ^ 44 + 1 }
    ensures { result ≡ min (gain * n) (2 ^ 44 + 1) }
{
    (gain * u64::from(n)).min(TOO_HEAVY)
}

fn survey(list: Cascade, gain: u64) -> Extent
    requires { (list.count ≤ 48) × (gain ≤ 2 ^ 44 + 1) }
    ensures { (result.order ≡ order (widths list)) × (result.gain ≡ min (gain * weight (widths list)) (2 ^ 44 + 1)) }
{
    let mut found = Extent { order: 0, gain };
    for &n in list.boxes() {
        found.order += box_order(n);
        found.gain = times(found.gain, n);
    }
    found
}

// The first of 2 to 4 that holds, from the two reaches and the weight held at TOO_HEAVY.
fn verdict(row_order: usize, column_order: usize, gain: u64) -> Result<(), Refusal>
    ensures { outcome result ≡ first (check (eqb gain 0) 2 ∷ check (ltb 255 row_order || ltb 255 column_order) 3 ∷ check (ltb (2 ^ 44) gain) 4 ∷ []) }
{
    if gain == 0 {
        Err(Refusal::ZeroWidth)
    } else if 255 < row_order || 255 < column_order {
        Err(Refusal::TooFar)
    } else if HEAVIEST < gain {
        Err(Refusal::TooHeavy)
    } else {
        Ok(())
    }
}

// The weight and the reaches of a recipe: refused by 1 to 4.
pub fn measure(filter: Filter) -> Result<Measures, Refusal>
    ensures { told (λ m. m) result ≡ answer (recipe_checks (recipe filter)) (measured (recipe filter)) }
{
    if 48 < filter.rows.count || 48 < filter.columns.count {
        return Err(Refusal::TooLong);
    }
    let across = survey(filter.rows, 1);
    let both = survey(filter.columns, across.gain);
    verdict(across.order, both.order, both.gain)?;
    Ok(Measures {
        gain: both.gain,
        row_order: across.order,
        column_order: both.order,
    })
}

// Whether a recipe is accepted: refused by 1 to 4.
pub fn check(filter: Filter) -> Result<(), Refusal>
    ensures { outcome result ≡ first (recipe_checks (recipe filter)) }
{
    measure(filter)?;
    Ok(())
}
