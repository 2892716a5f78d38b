/// A plain row: the two ends of a pass's value, in steps.
#[derive(Clone, Copy, PartialEq, Eq, Debug, Drop)]
pub struct Ends {
    pub low: i64,
    pub high: i64,
}
