// References: devices that give the mass that went through the meter in a pass.
#![tactic(auto)]

pub mod master;
pub mod reference;
