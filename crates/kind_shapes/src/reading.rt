// What both kinds read of a pattern.
ghost use Rattle.std.specs.Prelude.{◌≡◌, ◌/◌, ◌%◌, ◌^◌, ◌<◌, ◌≤◌};
ghost use Rattle.patterns.specs.Automaton.{states};
ghost use Rattle.patterns.specs.Values.{back};
ghost use Rattle.patterns.specs.View.{automaton};

use kinds::Move;
use patterns::pattern::Pattern;
use sets::{Event, States};

// How many states the pattern has.
pub fn state_count(pattern: &Pattern) -> usize
    ensures { result ≡ states (automaton pattern.now) }
{
    pattern.parts().roots.len()
}

// The start state.
pub fn start_of(pattern: &Pattern) -> usize
    ensures { result ≡ (automaton pattern.now).start }
{
    usize::from(pattern.parts().start)
}

// The final states.
pub fn finals_of(pattern: &Pattern) -> States
    ensures { result ≡ (automaton pattern.now).finals }
{
    pattern.parts().finals
}

// How many events there are over the pattern's signals: the numbers below 2^m, where m is the number of signals.
pub fn event_count(pattern: &Pattern) -> Move
    ensures { result ≡ 2 ^ (automaton pattern.now).signals }
{
    1 << signal_count(pattern)
}

// The event of a move: its low m bits, and so a number below 2^m stands for itself.
pub fn event_of(pattern: &Pattern, k: Move) -> Event
    ensures value { result ≡ k % 2 ^ (automaton pattern.now).signals }
    ensures same { k < 2 ^ (automaton pattern.now).signals → result ≡ k }
{
    (k % (1 << signal_count(pattern))) as Event
}

// The number of a move's arrow: what is above the low m bits.
pub fn arrow_of(pattern: &Pattern, k: Move) -> usize
    ensures { result ≡ k / 2 ^ (automaton pattern.now).signals }
{
    (k >> signal_count(pattern)) as usize
}

// The states that the event leads from into the set.
pub fn predecessors(pattern: &Pattern, event: Event, set: States) -> States
    ensures { result ≡ back (automaton pattern.now) event set }
{
    pattern.back(event, set)
}

// How many signals the pattern has: no more than an event has bits.
fn signal_count(pattern: &Pattern) -> u8
    ensures value { result ≡ (automaton pattern.now).signals }
    ensures few { result ≤ 16 }
{
    pattern.parts().signals
}
