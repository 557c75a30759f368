// The inspection of lists that anyone may have made, for a pattern and for a pattern with a model.
#![tactic(auto)]

ghost use Rattle.std.specs.Prelude.{◌≡◌, None, Ok};
ghost use Rattle.kind_shapes.specs.Acceptance.{PatternAcceptance, JointAcceptance, NeverMatches, NeverTogether};
ghost use Rattle.models.specs.Machine.{read as read_model};
ghost use Rattle.patterns.specs.Automaton.{read as read_pattern};
ghost use Rattle.patterns.specs.Questions.{judged};
ghost use Rattle.inspections.specs.Inspections.{pattern_inspected, joint_inspected};
ghost use Rattle.joint_kinds.specs.Questions.{joint_judged};

use crate::fault::InspectionFault;
use inspector::answers::Inspection;
use inspector::inspect;
use joint_kinds::parts::JointParts;
use kind_shapes::JointConfig;
use models::model::Model;
use pattern_kinds::pattern::Single;
use patterns::parts::Parts;
use sets::States;

pub mod fault;

// Asks the pattern's questions, and then inspects the list for it. If the list passes, the pattern accepts no sequence of
// events at all, of any length and with any bits. The pattern kind accepts what the pattern accepts.
pub fn inspect_pattern(parts: Parts, list: &[States]) -> Result<Inspection, InspectionFault>
    ensures value { result ≡ pattern_inspected (read_pattern parts.entry) list.now }
    ensures ok { result ≡ Ok Inspection.Passed → NeverMatches (read_pattern parts.entry) }
    ensures accepted { judged (read_pattern parts.entry) ≡ None → PatternAcceptance (read_pattern parts.entry) }
{
    examine_pattern(parts, list)
}

// Asks the pattern's questions and the model's, and then inspects the list for the two together. If the list passes, the
// model sends no sequence of events that the pattern accepts, of any length and with any bits. The joint kind accepts
// what the pattern accepts and the model sends.
pub fn inspect_joint<'a>(
    parts: Parts<'a>,
    model: Model<'a>,
    list: &[JointConfig],
) -> Result<Inspection, InspectionFault>
    ensures value { result ≡ joint_inspected (read_pattern parts.entry) (read_model model.entry) list.now }
    ensures ok { result ≡ Ok Inspection.Passed → NeverTogether (read_pattern parts.entry) (read_model model.entry) }
    ensures accepted { joint_judged (read_pattern parts.entry) (read_model model.entry) ≡ None
        → JointAcceptance (read_pattern parts.entry) (read_model model.entry) }
{
    examine_joint(parts, model, list)
}

// Stays: parts and list are two sides of one question: a struct of them would be made only to be taken apart.
// Stays: one generic function over both kinds of tables would need a trait that names each clause by a ghost member.
fn examine_pattern(parts: Parts, list: &[States]) -> Result<Inspection, InspectionFault>
    ensures { result ≡ pattern_inspected (read_pattern parts.entry) list.now }
{
    let pattern = parts.checked()?.seal();
    Ok(inspect(&Single::new(pattern), list)?)
}

fn examine_joint<'a>(
    parts: Parts<'a>,
    model: Model<'a>,
    list: &[JointConfig],
) -> Result<Inspection, InspectionFault>
    ensures { result ≡ joint_inspected (read_pattern parts.entry) (read_model model.entry) list.now }
{
    let tables = JointParts {
        pattern: parts,
        model,
    };
    let joint = tables.checked()?.seal();
    Ok(inspect(&joint, list)?)
}
