// The text that the program boresums prints, piece by piece: a job is opened, and then a buffer is filled
// with the next whole lines, call after call.
#![tactic(auto)]

mod filling;
mod opening;

pub use filling::{Filled, fill};
pub use opening::{Opened, open};
pub use stream::State;
