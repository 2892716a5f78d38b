/// The least numbers of passes at a point.
#[derive(Clone, Copy, PartialEq, Eq, Debug, Drop)]
pub struct Passes {
    /// For a working meter.
    pub working: u8,
    /// For a check meter.
    pub check: u8,
}
