// A check on a pattern, and on a pattern with a model: what a script of calls leaves, in the words of sequences of
// events.
#![tactic(auto)]

ghost use Rattle.std.specs.Prelude.{◌≡◌, length, Some, None, MatchResult};
ghost use Rattle.kind_shapes.specs.Shapes.{pattern_shape, joint_shape};
ghost use Rattle.pattern_kinds.specs.PatternKind.{single_pattern};
ghost use Rattle.joint_kinds.specs.JointKind.{joint_pattern, joint_model};
ghost use Rattle.checks.specs.Questions.{open_refusal};
ghost use Rattle.pattern_checks.specs.Runs.{EventRan, PatternRan, JointRan};

use checks::states::Progress;
use finds::refusals::Refused;
use joint_kinds::joint::Joint;
use kind_shapes::JointConfig;
use kinds::language::Language;
use pattern_kinds::pattern::Single;
use scripts::{Step, run};
use search::Find;
use sets::States;
use stores::Store;

// Opens a check on the pattern and makes the calls of the script on it. What it leaves and what each call answered is
// that of the defined search, and for every script and every store: at MATCHES the pattern accepts the sequence, and
// accepts none with fewer events; at NEVER the inspector passes the certificate, and the pattern accepts nothing;
// otherwise every sequence that it accepts is longer than the cleared length; and enough grants bring a verdict.
//
// Stays: a call of its own for each kind, whose contract names the pattern, or the pattern and the model.
pub fn run_pattern<'a, S: Store<Single<'a>>>(
    pattern: &Single<'a>,
    table: &mut [Find<States>],
    store: &mut S,
    script: &mut [Step<States>],
) -> Result<Progress, Refused>
    ensures cases { MatchResult result
        (λ p. (open_refusal (pattern_shape (single_pattern pattern.now)) (length table.old) (S.held store.old) (S.limit store.old) ≡ None)
        × PatternRan (single_pattern pattern.now) table.old script.old p table.new (S.held store.new) (S.limit store.new) script.new)
        (λ e. (open_refusal (pattern_shape (single_pattern pattern.now)) (length table.old) (S.held store.old) (S.limit store.old) ≡ Some e)
        × (table.new ≡ table.old) × (store.new ≡ store.old) × (script.new ≡ script.old)) }
    ensures limit { S.limit store.new ≡ S.limit store.old }
{
    run_events(pattern, table, store, script)
}

// The same on a pattern with a model: sequences that the pattern accepts and the model sends.
pub fn run_joint<'a, S: Store<Joint<'a>>>(
    joint: &Joint<'a>,
    table: &mut [Find<JointConfig>],
    store: &mut S,
    script: &mut [Step<JointConfig>],
) -> Result<Progress, Refused>
    ensures cases { MatchResult result
        (λ p. (open_refusal (joint_shape (joint_pattern joint.now) (joint_model joint.now)) (length table.old) (S.held store.old) (S.limit store.old) ≡ None)
        × JointRan (joint_pattern joint.now) (joint_model joint.now) table.old script.old p table.new (S.held store.new) (S.limit store.new) script.new)
        (λ e. (open_refusal (joint_shape (joint_pattern joint.now) (joint_model joint.now)) (length table.old) (S.held store.old) (S.limit store.old) ≡ Some e)
        × (table.new ≡ table.old) × (store.new ≡ store.old) × (script.new ≡ script.old)) }
    ensures limit { S.limit store.new ≡ S.limit store.old }
{
    run_events(joint, table, store, script)
}

// Makes the calls of the script on a check of any kind whose language is known.
fn run_events<K: Language, S: Store<K>>(
    kind: &K,
    table: &mut [Find<K::Config>],
    store: &mut S,
    script: &mut [Step<K::Config>],
) -> Result<Progress, Refused>
    ensures cases { MatchResult result
        (λ p. (open_refusal (K.shape kind.now) (length table.old) (S.held store.old) (S.limit store.old) ≡ None)
        × EventRan (K.shape kind.now) (K.signals kind.now) (K.accepts kind.now) table.old script.old p table.new (S.held store.new) (S.limit store.new) script.new)
        (λ e. (open_refusal (K.shape kind.now) (length table.old) (S.held store.old) (S.limit store.old) ≡ Some e)
        × (table.new ≡ table.old) × (store.new ≡ store.old) × (script.new ≡ script.old)) }
    ensures limit { S.limit store.new ≡ S.limit store.old }
{
    run(kind, table, store, script)
}
