// Document 01's greys: rounding, with document 02's leftovers, of one sum and of a row of sums.
#![tactic(auto)]

mod rounding;

pub use rounding::{Divisor, Shade, Way, reciprocal_of, round, round_row};
