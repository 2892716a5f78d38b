// Petroleum liquids, whose density goes exponentially with temperature.
#![tactic(auto)]

pub mod coefficients;
pub mod exponential;
mod units;
pub mod worked;
