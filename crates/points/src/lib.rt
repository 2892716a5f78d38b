// All the figures of a proving, from the rows of its points and the given limits.
#![tactic(auto)]

pub mod entry;
