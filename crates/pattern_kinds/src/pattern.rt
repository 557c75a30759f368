// The pattern kind: what a pattern accepts.
ghost use Rattle.std.specs.Prelude.{◌≡◌};
ghost use Rattle.kind_shapes.specs.Acceptance.{PatternAcceptance};
ghost use Rattle.patterns.specs.View.{automaton};
ghost use Rattle.pattern_kinds.specs.PatternKind.{single_pattern, pattern_kind, pattern_kind_laws};

use kind_shapes::reading::{event_count, event_of, finals_of, predecessors, start_of, state_count};
use kinds::{Kind, Move};
use patterns::pattern::Pattern;
use sets::{Event, States, holds, is_below, is_within};

// A pattern by itself, with no model.
#[derive(Drop)]
pub struct Single<'a> {
    pattern: Pattern<'a>,
}

impl<'a> Single<'a> {
    // The pattern as a kind. It accepts the sequences that the pattern accepts.
    pub fn new(pattern: Pattern<'a>) -> Single<'a>
        ensures value { single_pattern result ≡ automaton pattern.entry }
        ensures accepted { PatternAcceptance (single_pattern result) }
    {
        alone(pattern)
    }
}

fn alone<'a>(pattern: Pattern<'a>) -> Single<'a>
    ensures { single_pattern result ≡ automaton pattern.entry }
{
    Single { pattern }
}

// A configuration is a set of states. Worked back from the final set, an event leads from a set to all the states whose
// condition the set meets; a sequence is accepted if that arrives at a set that holds the start.
impl<'a> Kind for Single<'a> {
    type Config = States;

    ghost shape = { pattern_kind };

    ghost laws = { pattern_kind_laws };

    fn fits(&self, x: States) -> bool {
        is_below(x, state_count(&self.pattern))
    }

    fn within(&self, x: States, y: States) -> bool {
        is_within(x, y)
    }

    fn first_count(&self) -> usize {
        1
    }

    fn first(&self, i: usize) -> Option<States> {
        (i == 0).then_some(finals_of(&self.pattern))
    }

    fn moves(&self) -> Move {
        event_count(&self.pattern)
    }

    fn event(&self, k: Move) -> Event {
        event_of(&self.pattern, k)
    }

    fn goal(&self, x: States) -> bool {
        holds(x, start_of(&self.pattern))
    }

    // Stays: a closure in `then` leaves the goal open, since what it gives is known only where the test is true.
    fn back(&self, k: Move, y: States) -> Option<States> {
        if k < event_count(&self.pattern) {
            Some(predecessors(&self.pattern, event_of(&self.pattern, k), y))
        } else {
            None
        }
    }
}
