// The dual of a pattern and "B without A": definitions, and what they accept.
#![tactic(auto)]

ghost use Rattle.std.specs.Prelude.{◌≡◌, None, Decides};
ghost use Rattle.patterns.specs.Accepted.{Accepted};
ghost use Rattle.patterns.specs.Questions.{judged};
ghost use Rattle.patterns.specs.View.{automaton};
ghost use Rattle.duals.specs.Complement.{Complements, Fits, Separates};
ghost use Rattle.duals.specs.Dual.{dual};
ghost use Rattle.duals.specs.Without.{without};

use patterns::pattern::Pattern;
use sets::Event;

// Whether the dual of the pattern accepts the events: exactly if the pattern does not. So it is for every sequence.
pub fn dual_matches(pattern: &Pattern, events: &[Event]) -> bool
    ensures accepted { Decides result (Accepted (dual (automaton pattern.now)) events.now) }
    ensures complement { Complements (automaton pattern.now) }
{
    rejects(pattern, events)
}

// Whether `later` accepts the events and `earlier` does not, which is what "later without earlier" accepts. Within the
// sizes of a pattern that is a pattern, and it accepts so for every sequence.
pub fn pair_matches(later: &Pattern, earlier: &Pattern, events: &[Event]) -> bool
    ensures accepted { Decides result (Accepted (automaton later.now) events.now
        × (Accepted (automaton earlier.now) events.now → ⊥)) }
    ensures pattern { Fits (automaton later.now) (automaton earlier.now)
        → judged (without (automaton later.now) (automaton earlier.now)) ≡ None }
    ensures separated { Fits (automaton later.now) (automaton earlier.now)
        → Separates (automaton later.now) (automaton earlier.now) }
{
    matches_alone(later, earlier, events)
}

fn matches_alone(later: &Pattern, earlier: &Pattern, events: &[Event]) -> bool
    ensures { Decides result (Accepted (automaton later.now) events.now
        × (Accepted (automaton earlier.now) events.now → ⊥)) }
{
    later.matches(events) && rejects(earlier, events)
}

// Whether the pattern does not accept the events.
fn rejects(pattern: &Pattern, events: &[Event]) -> bool
    ensures { Decides result (Accepted (automaton pattern.now) events.now → ⊥) }
{
    !pattern.matches(events)
}
