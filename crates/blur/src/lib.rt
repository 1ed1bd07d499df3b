// Document 01's same-size blur, by document 02's inside weight and with its leftovers.
#![tactic(auto)]

mod rims;
mod same;

pub use same::blur;
