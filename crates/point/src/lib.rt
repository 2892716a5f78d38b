// One flow point: the mean of its values, their scatter, the scatter of the mean and the random limit.
#![tactic(auto)]

pub mod bounds;
pub mod deviations;
pub mod ends;
pub mod figures;
pub mod level;
pub mod mean;
pub mod roots;
pub mod scatter;
pub mod statistic;
pub mod student;
pub mod worked;
pub mod working;
