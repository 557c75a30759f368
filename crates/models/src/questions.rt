// The questions asked of a model's arrows, one by one.
ghost use Rattle.std.specs.Prelude.{◌≡◌, Some, None, MatchResult};
ghost use Rattle.models.specs.Questions.{arrows_fault, proper};

use crate::arrow::Arrow;
use crate::fault::ModelFault;
use sets::{States, is_below, is_within};

// A model has at most this many arrows.
pub(crate) const MAX_ARROWS: usize = 256;

// Whether each arrow is one that a model may have, of so many states and signals.
pub(crate) fn check_arrows(arrows: &[Arrow], states: u8, signals: u8) -> Result<(), ModelFault>
    ensures { MatchResult result
        (λ _. arrows_fault states signals 0 arrows.now ≡ None)
        (λ f. arrows_fault states signals 0 arrows.now ≡ Some f) }
{
    for (i, arrow) in arrows.iter().enumerate() {
        if !is_proper(*arrow, states, signals) {
            return Err(ModelFault::Arrow(i));
        }
    }
    Ok(())
}

// Whether the arrow joins two of the states, its mask has only signals that there are, and its value is inside the mask.
fn is_proper(arrow: Arrow, states: u8, signals: u8) -> bool
    ensures { result ≡ proper states signals arrow }
{
    arrow.from < states
        && arrow.to < states
        && is_below(States::from(arrow.mask), usize::from(signals))
        && is_within(States::from(arrow.value), States::from(arrow.mask))
}
