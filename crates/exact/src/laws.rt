// What everything later rests on, as theorems.
ghost use Rattle.exact.specs.Fractions.{FractionLaws};
ghost use Rattle.exact.specs.Figures.{FigureLaws};
ghost use Rattle.exact.specs.Pairs.{VerdictLaws};

/// The order of fractions, and the bounds of sums, products and quotients.
pub fn fraction_laws()
    ensures { FractionLaws }
{}

/// Which numbers are at most a figure, and which at least it, keeps the order of numbers.
pub fn figure_laws()
    ensures { FigureLaws }
{}

/// What the ends of a pair that holds a figure say of the figure and a limit.
pub fn verdict_laws()
    ensures { VerdictLaws }
{}
