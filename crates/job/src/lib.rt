// The job file of document 01: a recipe, the sides of a picture and its pixels, read from bytes and
// written as bytes.
#![tactic(auto)]

mod reading;
mod writing;

pub use reading::{Job, read};
pub use spec::{Cascade, Filter, Image, Refusal};
pub use writing::{size, write};
