// Devices as another maker would write them, outside the library.
#![tactic(auto)]

pub mod sealed;
pub mod tank;
