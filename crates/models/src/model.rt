// A model as a caller lends it, whatever the table holds, the questions asked of it, and what it sends.
ghost use Rattle.std.specs.Prelude.{◌≡◌, ℕ, ◌<◌, true, List, length, reverse, is_ok, Some, None, Decides, MatchResult};
ghost use Rattle.std.specs.List.{fold};
ghost use Rattle.models.specs.Formed.{Formed};
ghost use Rattle.models.specs.Machine.{read, arrow};
ghost use Rattle.models.specs.Questions.{judged, sized};
ghost use Rattle.sets.specs.Events.{lowered};
ghost use Rattle.models.specs.Sent.{Sends};
ghost use Rattle.models.specs.Sources.{sources};

use crate::arrow::Arrow;
use crate::fault::ModelFault;
use crate::questions::{MAX_ARROWS, check_arrows};
use crate::sources::sources;
use sets::{Event, MAX_STATES, States, holds, is_below};

// The table is the caller's and may hold any numbers: states that there are not, and more states than there may be.
#[derive(Clone, Copy)]
pub struct Model<'a> {
    pub states: u8,
    pub start: u8,
    pub ends: States,
    pub arrows: &'a [Arrow],
}

impl<'a> Model<'a> {
    // Asks every question in order, of a model over so many signals, and answers with the first fault. Nothing is
    // written. What a model that meets them all sends does not depend on the events' bits from the number of signals up.
    pub fn check(self, signals: u8) -> Result<(), ModelFault>
        ensures cases { MatchResult result
            (λ _. judged signals (read self.entry) ≡ None)
            (λ f. judged signals (read self.entry) ≡ Some f) }
        ensures formed { Decides (is_ok result) (Formed signals (read self.entry)) }
        ensures bits { is_ok result ≡ true → (es : List ℕ)
            → (Sends (read self.entry) es → Sends (read self.entry) (lowered signals es))
            × (Sends (read self.entry) (lowered signals es) → Sends (read self.entry) es) }
    {
        self.ask(signals)
    }

    // Whether the model sends the events, or the first fault of the model.
    pub fn sends(self, signals: u8, events: &[Event]) -> Result<bool, ModelFault>
        ensures { MatchResult result
            (λ b. (judged signals (read self.entry) ≡ None) × Decides b (Sends (read self.entry) events.now))
            (λ f. judged signals (read self.entry) ≡ Some f) }
    {
        self.check(signals)?;
        Ok(self.is_sent(events))
    }

    // Whether the model sends the events: worked back from the end states, they lead to the start.
    fn is_sent(self, events: &[Event]) -> bool
        requires { (i : ℕ) → i < length self.arrows.now → (arrow (read self) i).from < 64 }
        ensures { Decides result (Sends (read self.entry) events.now) }
    {
        holds(self.worked_back(events), usize::from(self.start))
    }

    // The states from which the model sends the events: from the end states, the last event first.
    fn worked_back(self, events: &[Event]) -> States
        ensures { result ≡ fold (λ d a. sources self.entry.arrows.now a d) self.entry.ends (reverse events.now) }
    {
        events.iter().rev().fold(
            self.ends,
            |states, event| sources(self.arrows, *event, states),
        )
    }

    // The questions in order: sizes, start and end states, then arrow by arrow.
    fn ask(self, signals: u8) -> Result<(), ModelFault>
        ensures { MatchResult result
            (λ _. judged signals (read self.entry) ≡ None)
            (λ f. judged signals (read self.entry) ≡ Some f) }
    {
        if !self.is_sized() {
            return Err(ModelFault::Sizes);
        }
        check_arrows(self.arrows, self.states, signals)
    }

    // Whether there are 1 to 64 states and at most 256 arrows, and the start and each end state is one of the states.
    // Where the start is one of them, there is at least one.
    fn is_sized(self) -> bool
        ensures { result ≡ sized self.entry.states self.entry.start self.entry.ends (length self.entry.arrows.now) }
    {
        let states = usize::from(self.states);
        states <= MAX_STATES
            && self.arrows.len() <= MAX_ARROWS
            && self.start < self.states
            && is_below(self.ends, states)
    }
}
