// The one pass of document 01: the work cells that it needs, a start, a row call and a drain, on a
// running state by value and lent cells.
#![tactic(auto)]

mod calls;
mod cascades;
mod columns;
mod keeping;
mod sizes;

pub use calls::{Refused, State, Stepped, drain, push, start, state_at};
pub use sizes::stream_cells;
