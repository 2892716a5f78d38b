// Liquids: the factor that carries a density from the densitometer's conditions to the vessel's.
#![tactic(auto)]

pub mod conditions;
pub mod linear;
pub mod meaning;
pub mod question;
pub mod worked;
