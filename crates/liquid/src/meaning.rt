// What every liquid owes.
ghost use Rattle.std.specs.Prelude.{◌≡◌, true};
ghost use Rattle.exact.specs.Fractions.{Fraction};
ghost use Rattle.liquid.specs.declared.question.Question.{Question as QuestionT};
ghost use Rattle.liquid.specs.Questions.{takes};
ghost use Rattle.exact.specs.Ends.{Ends};
ghost use Rattle.liquid.specs.Liquids.{Carries, Asked};

use crate::question::Question;
use exact::pair::Pair;
use pass::denials::Field;

/// A liquid, by the factor that carries its density from the densitometer's conditions to the vessel's.
pub trait Liquid {
    // the exact carry factor
    ghost factor: { Self → QuestionT → Fraction };

    // the pair that it answers, in steps: questions alike get the same
    ghost answer: { Self → QuestionT → Ends };

    /// The carry factor in steps, if the four fields are in range; otherwise the lowest field that is not.
    fn ask(&self, question: &Question) -> Result<Pair, Field>
        ensures { Asked question.now (answer self.now question.now) result };

    ghost carries: { (l : Self) (q : QuestionT) → takes q ≡ true → Carries (factor l q) (answer l q) };
}
