// The joint kind: what a pattern accepts and a model sends.
ghost use Rattle.std.specs.Prelude.{◌≡◌, ◌*◌, ◌≤◌, map, length};
ghost use Rattle.std.specs.List.{slice_get};
ghost use Rattle.kind_shapes.specs.Acceptance.{JointAcceptance};
ghost use Rattle.kind_shapes.specs.Shapes.{members, joined, crossed};
ghost use Rattle.models.specs.Machine.{read};
ghost use Rattle.patterns.specs.View.{automaton};
ghost use Rattle.joint_kinds.specs.JointKind.{joint_pattern, joint_model, joint_kind, joint_kind_laws};
ghost use Rattle.joint_kinds.specs.Sound.{sound_pattern, sound_model};
ghost use Rattle.joint_kinds.specs.Tables.{checked_pattern, checked_model};

use crate::joint::Joint;
use crate::members::{member, member_count};
use crate::parts::CheckedJoint;
use kind_shapes::JointConfig;
use kind_shapes::reading::{
    arrow_of, event_count, event_of, finals_of, predecessors, start_of, state_count,
};
use kinds::{Kind, Move};
use models::arrow::Arrow;
use models::model::Model;
use patterns::pattern::Pattern;
use sets::{Event, States, holds, is_below, is_within};

impl<'a> CheckedJoint<'a> {
    // The pattern with the model. The model is asked once more, since nothing but its making says that it was: one that
    // fails would give the model that sends nothing, and `JointParts::checked` lets none through. The kind accepts the
    // sequences that the pattern accepts and the model sends.
    pub fn seal(self) -> Joint<'a>
        ensures pattern { joint_pattern result ≡ sound_pattern (checked_pattern self.entry) }
        ensures model { joint_model result ≡ sound_model (sound_pattern (checked_pattern self.entry)).signals (checked_model self.entry) }
        ensures accepted { JointAcceptance (joint_pattern result) (joint_model result) }
    {
        let CheckedJoint { pattern, model } = self;
        join(pattern.seal(), model)
    }
}

// The pattern with the model if it meets every question for the pattern's signals, otherwise with the model that sends
// nothing.
fn join<'a>(pattern: Pattern<'a>, model: Model<'a>) -> Joint<'a>
    ensures pattern { joint_pattern result ≡ automaton pattern.entry }
    ensures model { joint_model result ≡ sound_model (automaton pattern.entry).signals (read model.entry) }
{
    let model = sound_or_silent(model, pattern.parts().signals);
    Joint { pattern, model }
}

// The model if it meets every question for so many signals, otherwise the one that sends nothing: no end state.
fn sound_or_silent(model: Model, signals: u8) -> Model
    ensures { read result ≡ sound_model signals (read model.entry) }
{
    match model.check(signals) {
        Ok(()) => model,
        Err(_) => Model {
            states: 1,
            start: 0,
            ends: 0,
            arrows: &[],
        },
    }
}

// A configuration is a state of the model with a set of states of the pattern. Arrows are worked back from their head to
// their tail under the events that they admit, and the set with them.
impl<'a> Kind for Joint<'a> {
    type Config = JointConfig;

    ghost shape = { joint_kind };

    ghost laws = { joint_kind_laws };

    fn fits(&self, x: JointConfig) -> bool {
        x.state < self.model.states && is_below(x.set, state_count(&self.pattern))
    }

    fn within(&self, x: JointConfig, y: JointConfig) -> bool {
        x.state == y.state && is_within(x.set, y.set)
    }

    fn first_count(&self) -> usize {
        self.firsts().count()
    }

    fn first(&self, i: usize) -> Option<JointConfig> {
        self.firsts().nth(i)
    }

    fn moves(&self) -> Move {
        move_count(self.model.arrows.len(), event_count(&self.pattern))
    }

    fn event(&self, k: Move) -> Event {
        event_of(&self.pattern, k)
    }

    fn goal(&self, x: JointConfig) -> bool {
        x.state == self.model.start && holds(x.set, start_of(&self.pattern))
    }

    fn back(&self, k: Move, y: JointConfig) -> Option<JointConfig> {
        let arrow = arrow_at(self.model.arrows, arrow_of(&self.pattern, k))?;
        cross(&self.pattern, event_of(&self.pattern, k), y, arrow)
    }
}

impl<'a> Joint<'a> {
    // What the first configurations are made of.
    fn firsts(&self) -> Firsts
        ensures ends { result.ends ≡ (joint_model self.now).ends }
        ensures states { result.states ≡ (joint_model self.now).states }
        ensures finals { result.finals ≡ (joint_pattern self.now).finals }
    {
        Firsts {
            ends: self.model.ends,
            states: self.model.states,
            finals: finals_of(&self.pattern),
        }
    }
}

// The first configurations: each end state, in ascending order, with the final set.
#[derive(Clone, Copy)]
struct Firsts {
    ends: States,
    states: u8,
    finals: States,
}

impl Firsts {
    // How many there are: the final set is the same in all of them, and only the contract names it.
    fn count(self) -> usize
        ensures { result ≡ length (map (λ q. joined q self.finals) (members self.ends self.states)) }
    {
        member_count(self.ends, self.states)
    }

    // The one that has number i, and none where there are no more than i.
    fn nth(self, i: usize) -> Option<JointConfig>
        ensures { result ≡ slice_get (map (λ q. joined q self.finals) (members self.ends self.states)) i }
    {
        member(self.ends, self.states, i).map(|state| JointConfig {
            state,
            set: self.finals,
        })
    }
}

// How many moves so many arrows make: one for each event. A model has at most 256 arrows, and there are at most 65,536
// events.
fn move_count(arrows: usize, events: Move) -> Move
    requires arrows { arrows ≤ 256 }
    requires events { events ≤ 65536 }
    ensures { result ≡ arrows * events }
{
    arrows as Move * events
}

// The arrow that has number i, and none where there are no more than i.
fn arrow_at(arrows: &[Arrow], i: usize) -> Option<Arrow>
    ensures { result ≡ slice_get arrows.now i }
{
    arrows.get(i).copied()
}

// Where the arrow leads back to from y under the event, if it admits the event and enters y's model state.
fn cross(pattern: &Pattern, event: Event, y: JointConfig, arrow: Arrow) -> Option<JointConfig>
    ensures { result ≡ crossed (automaton pattern.now) event y arrow }
{
    // Stays: `then` with a closure leaves the goal open, since what it gives is known only where the test is true.
    if arrow.admits(event) && arrow.to == y.state {
        Some(JointConfig {
            state: arrow.from,
            set: predecessors(pattern, event, y.set),
        })
    } else {
        None
    }
}
