// A pattern with a model: tables that meet every question, together.
ghost use Rattle.std.specs.Prelude.{◌≡◌, false, is_some};
ghost use Rattle.models.specs.Machine.{read};
ghost use Rattle.models.specs.Questions.{judged};
ghost use Rattle.patterns.specs.View.{automaton};

use models::model::Model;
use patterns::pattern::Pattern;

pub mod kind;

// It is made only from a pattern and a model that was asked every question for the pattern's signals.
#[derive(Drop)]
pub struct Joint<'a> {
    pattern: Pattern<'a>,
    model: Model<'a>,
    ghost formed: { is_some (judged (automaton pattern).signals (read model)) ≡ false },
}
