// Document 01's recipe: its checks 1 to 4, its weight and reaches, its coefficients, the grown sides, the
// scale card, and the widths of a list one by one; document 02's inside weights along one axis.
#![tactic(auto)]

mod card;
mod checks;
mod coefficients;
mod inside;
mod lists;
mod sizes;
mod zeros;

pub use card::{Scale, moments};
pub use checks::{HEAVIEST, Measures, check, measure};
pub use coefficients::kernel;
pub use inside::axis_weights;
pub use lists::width_at;
pub use sizes::{Sides, full_size};
pub use spec::{Cascade, Filter, Refusal};
pub use zeros::no_filter;
