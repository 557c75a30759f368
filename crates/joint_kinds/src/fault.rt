// What is wrong with a pattern and a model taken together.
ghost use Rattle.std.specs.Prelude.{◌≡◌};
ghost use Rattle.joint_kinds.specs.declared.fault.JointFault.TheVariants as joint;
ghost use Rattle.joint_kinds.specs.Refusals.{number, place};

use models::fault::ModelFault;
use patterns::fault::Fault;

#[derive(Clone, Copy, PartialEq, Eq, Debug)]
pub enum JointFault {
    // The pattern's tables have this fault.
    Pattern(Fault),
    // The pattern meets its questions, and the model has this fault for the pattern's signals.
    Model(ModelFault),
}

impl From<Fault> for JointFault {
    ghost from_gives = { λ e r. r ≡ joint.Pattern e };

    fn from(e: Fault) -> JointFault {
        JointFault::Pattern(e)
    }
}

impl From<ModelFault> for JointFault {
    ghost from_gives = { λ e r. r ≡ joint.Model e };

    fn from(e: ModelFault) -> JointFault {
        JointFault::Model(e)
    }
}

// Stays: other faults have two matches like these over layers of theirs: a trait for all would say them once more.
impl JointFault {
    // The number under which the fault is refused.
    pub fn number(self) -> u8
        ensures { result ≡ number self }
    {
        match self {
            JointFault::Pattern(fault) => fault.number(),
            JointFault::Model(fault) => fault.number(),
        }
    }

    // Where the fault lies: the state of a root, the number of a row or of an arrow, otherwise 0.
    pub fn place(self) -> usize
        ensures { result ≡ place self }
    {
        match self {
            JointFault::Pattern(fault) => fault.place(),
            JointFault::Model(fault) => fault.place(),
        }
    }
}
