// Exact figures, and the pairs of whole numbers that hold them.
#![tactic(auto)]

pub mod laws;
pub mod pair;
pub mod rounding;
pub mod shifts;
