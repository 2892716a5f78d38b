// Vessels: what one means, and the pipe prover and the compact prover.
#![tactic(auto)]

pub mod compact;
pub mod pipe;
pub mod section;
pub mod stretch;
pub mod vessel;
pub mod worked;
