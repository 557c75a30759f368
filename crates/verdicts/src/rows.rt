// Which tables a search may be made over, and what its verdict means in the words of sequences of events.
ghost use Rattle.std.specs.Prelude.{Decides};
ghost use Rattle.kind_shapes.specs.Shapes.{pattern_shape, joint_shape};
ghost use Rattle.pattern_kinds.specs.PatternKind.{single_pattern};
ghost use Rattle.joint_kinds.specs.JointKind.{joint_pattern, joint_model};
ghost use Rattle.search.specs.Promise.{Admits};
ghost use Rattle.verdicts.specs.Promises.{EventKeeps, EventSearches, PatternKeeps, JointKeeps, PatternSearches, JointSearches};

use joint_kinds::joint::Joint;
use kinds::language::Language;
use pattern_kinds::pattern::Single;
use search::admits_rows;

// Yes if and only if a search of this kind may be made over a table of this many rows. What searches of every kind
// promise means, for the language of this one, what `EventPromise` says in the words of sequences of events; and every
// state of every search over such a table keeps it.
pub fn event_rows<K: Language>(kind: &K, rows: usize) -> bool
    ensures test { Decides result (Admits (K.shape kind.now) rows) }
    ensures keeps_promise { EventKeeps (K.shape kind.now) (K.signals kind.now) (K.accepts kind.now) }
    ensures searches { EventSearches (K.shape kind.now) (K.signals kind.now) (K.accepts kind.now) }
{
    admits_rows(kind, rows)
}

// The same of a pattern, and `PatternPromise`.
//
// Stays: a call of its own for each kind, whose contract names the pattern, or the pattern and the model.
pub fn pattern_rows(pattern: &Single, rows: usize) -> bool
    ensures test { Decides result (Admits (pattern_shape (single_pattern pattern.now)) rows) }
    ensures keeps_promise { PatternKeeps (single_pattern pattern.now) }
    ensures searches { PatternSearches (single_pattern pattern.now) }
{
    event_rows(pattern, rows)
}

// The same of a pattern with a model, and `JointPromise`.
pub fn joint_rows(joint: &Joint, rows: usize) -> bool
    ensures test { Decides result (Admits (joint_shape (joint_pattern joint.now) (joint_model joint.now)) rows) }
    ensures keeps_promise { JointKeeps (joint_pattern joint.now) (joint_model joint.now) }
    ensures searches { JointSearches (joint_pattern joint.now) (joint_model joint.now) }
{
    event_rows(joint, rows)
}
