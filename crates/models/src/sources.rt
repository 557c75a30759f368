// One step of a model, backwards.
ghost use Rattle.std.specs.Prelude.{◌≡◌};
ghost use Rattle.models.specs.Sources.{sources};

use crate::arrow::Arrow;
use sets::{Event, States, add, holds};

// The states from which an arrow that admits the event leads into the set.
pub(crate) fn sources(arrows: &[Arrow], event: Event, states: States) -> States
    ensures { result ≡ sources arrows.now event states }
{
    let mut found = 0;
    for arrow in arrows {
        if arrow.admits(event) && holds(states, usize::from(arrow.to)) {
            found = add(found, usize::from(arrow.from));
        }
    }
    found
}
