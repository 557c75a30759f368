// A pattern's parts with a model as a caller lends them, whatever the tables hold, and the questions asked of them.
ghost use Rattle.std.specs.Prelude.{◌≡◌, Some, None, MatchResult};
ghost use Rattle.patterns.specs.Automaton.{read as read_pattern};
ghost use Rattle.models.specs.Machine.{read as read_model};
ghost use Rattle.joint_kinds.specs.Questions.{joint_judged};
ghost use Rattle.joint_kinds.specs.Tables.{checked_pattern, checked_model};

use crate::fault::JointFault;
use models::model::Model;
use patterns::parts::{Checked, Parts};

#[derive(Clone, Copy)]
pub struct JointParts<'a> {
    pub pattern: Parts<'a>,
    pub model: Model<'a>,
}

// Parts that met every question when they were asked. They come only from `JointParts::checked`.
#[derive(Clone, Copy)]
pub struct CheckedJoint<'a> {
    pub(crate) pattern: Checked<'a>,
    pub(crate) model: Model<'a>,
}

impl<'a> JointParts<'a> {
    // The parts with the mark that they met every question, the pattern's first and then the model's for the pattern's
    // signals; or the first fault. Nothing is written.
    pub fn checked(self) -> Result<CheckedJoint<'a>, JointFault>
        ensures { MatchResult result
            (λ c. (checked_pattern c ≡ read_pattern self.entry.pattern) × (checked_model c ≡ read_model self.entry.model)
            × (joint_judged (checked_pattern c) (checked_model c) ≡ None))
            (λ f. joint_judged (read_pattern self.entry.pattern) (read_model self.entry.model) ≡ Some f) }
    {
        let JointParts { pattern, model } = self;
        let checked = pattern.checked()?;
        model.check(pattern.signals)?;
        Ok(CheckedJoint {
            pattern: checked,
            model,
        })
    }
}
