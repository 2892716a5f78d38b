// The range that flow points span: the largest scatter of a mean and random limit, the systematic limit and the error.
#![tactic(auto)]

pub mod deciding;
pub mod error;
pub mod figures;
pub mod gap;
pub mod judging;
pub mod left;
pub mod limits;
pub mod reach;
pub mod span;
pub mod systematic;
pub mod worked;
