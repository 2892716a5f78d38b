// The prover as a reference, over any vessel and any liquid.
#![tactic(auto)]

pub mod products;
pub mod prover;
pub mod weighing;
