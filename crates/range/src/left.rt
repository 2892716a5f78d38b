/// Which rules for the error the pairs of Θ and S0 leave.
#[derive(Clone, Copy, PartialEq, Eq, Debug, Drop)]
pub enum Left {
    /// The error is Θ.
    Systematic,
    /// The error is ε.
    Random,
    /// The error is 0.81·(Θ + ε).
    Mixed,
    /// Θ lies so near 8·S0 that the error may be Θ or 0.81·(Θ + ε).
    Upper,
    /// Θ lies so near 0.8·S0 that the error may be ε or 0.81·(Θ + ε).
    Lower,
    /// Θ lies near both: any of the three.
    Both,
}
