// One pass of a prover: its record, the counts in the gate, the masses and the values of the meter.
#![tactic(auto)]

pub mod acceptance;
pub mod denials;
pub mod factor;
pub mod gate;
pub mod kinds;
pub mod masses;
pub mod meter;
pub mod numbers;
pub mod passes;
pub mod ranges;
pub mod readings;
pub mod value;
