// Why a list was not inspected.
ghost use Rattle.std.specs.Prelude.{◌≡◌};
ghost use Rattle.joint_kinds.specs.declared.fault.JointFault.TheVariants as joint;
ghost use Rattle.inspections.specs.declared.fault.InspectionFault.TheVariants as inspection;
ghost use Rattle.inspections.specs.Refusals.{number, place};

use inspector::answers::Refused;
use joint_kinds::fault::JointFault;
use patterns::fault::Fault;

#[derive(Clone, Copy, PartialEq, Eq, Debug)]
pub enum InspectionFault {
    // The pattern, or the model with it, has this fault.
    Tables(JointFault),
    // The tables meet their questions, and the list is refused.
    List(Refused),
}

impl From<Fault> for InspectionFault {
    ghost from_gives = { λ e r. r ≡ inspection.Tables (joint.Pattern e) };

    fn from(e: Fault) -> InspectionFault {
        InspectionFault::Tables(JointFault::Pattern(e))
    }
}

impl From<JointFault> for InspectionFault {
    ghost from_gives = { λ e r. r ≡ inspection.Tables e };

    fn from(e: JointFault) -> InspectionFault {
        InspectionFault::Tables(e)
    }
}

impl From<Refused> for InspectionFault {
    ghost from_gives = { λ e r. r ≡ inspection.List e };

    fn from(e: Refused) -> InspectionFault {
        InspectionFault::List(e)
    }
}

// Stays: a joint fault has two matches like these over other layers, and a trait for both would say them once more.
impl InspectionFault {
    // The number under which the inspection is refused.
    pub fn number(self) -> u8
        ensures { result ≡ number self }
    {
        match self {
            InspectionFault::Tables(fault) => fault.number(),
            InspectionFault::List(refused) => refused.number(),
        }
    }

    // Where the fault lies: as in the tables, or the entry of the list, otherwise 0.
    pub fn place(self) -> usize
        ensures { result ≡ place self }
    {
        match self {
            InspectionFault::Tables(fault) => fault.place(),
            InspectionFault::List(refused) => refused.place(),
        }
    }
}
