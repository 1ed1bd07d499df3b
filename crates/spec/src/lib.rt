// The types that hold document 01's recipe and its pictures, and the refusals. Anyone may fill them with
// anything: the calls refuse what document 01 refuses. What the contracts say of them is in specs/.
#![tactic(auto)]

mod refusal;

ghost use Rattle.std.specs.Prelude.{◌≡◌, take};
ghost use Rattle.spec.specs.Recipe.{widths};

pub use refusal::{Refusal, outcome};

// A cascade of box filters along one axis, as a count and the width of each box (document 01: a row
// list or a column list). What stands past the count means nothing.
#[derive(Clone, Copy)]
pub struct Cascade {
    pub count: u8,
    pub widths: [u8; 48],
}

impl Cascade {
    // The widths of its boxes, as far as the array goes.
    pub fn boxes(&self) -> &[u8]
        ensures { result.now ≡ take 48 (widths self.now) }
    {
        let end = usize::from(self.count).min(48);
        &self.widths[..end]
    }
}

// A separable filter: a cascade along the rows and one down the columns (document 01: a recipe).
#[derive(Clone, Copy)]
pub struct Filter {
    pub rows: Cascade,
    pub columns: Cascade,
}

// A grey picture: its sides, and its pixels row by row (document 01: a picture).
#[derive(Clone, Copy)]
pub struct Image<'a> {
    pub width: usize,
    pub height: usize,
    pub pixels: &'a [u8],
}
