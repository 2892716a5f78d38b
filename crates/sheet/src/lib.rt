// The sheet of one pass: every figure of it, from the pulses to the values of the meter.
#![tactic(auto)]

pub mod figures;
