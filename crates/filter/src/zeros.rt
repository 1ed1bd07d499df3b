// The filter of zeros, as it stands beside the number of a refusal, and a list as a filter of its own.
ghost use Rattle.std.specs.Prelude.{◌≡◌};
ghost use Rattle.spec.specs.Recipe.{no_filter, recipe, widths};
ghost use Rattle.spec.specs.Refusals.{alone};

use spec::{Cascade, Filter};

// No widths on either axis, and zeros past them.
pub fn no_filter() -> Filter
    ensures { result ≡ no_filter }
{
    let none = Cascade {
        count: 0,
        widths: [0u8; 48],
    };
    Filter {
        rows: none,
        columns: none,
    }
}

// A list along the rows, with none down the columns.
pub(crate) fn alone(list: Cascade) -> Filter
    ensures { recipe result ≡ alone (widths list) }
{
    Filter {
        rows: list,
        columns: no_filter().columns,
    }
}
