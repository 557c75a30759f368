// Kinds whose accepted sequences are known in the words of events.
ghost use Rattle.std.specs.Prelude.{ℕ, List};
ghost use Rattle.kinds.specs.Language.{Speaks};

use crate::Kind;

// A kind of which it is known what sequences of events it accepts, with no word on configurations and moves. An event
// is a number whose bits are signals. A sequence of the language may have any events, of any length and with any bits;
// the bits that stand for no signal make no difference, and the kind accepts the sequences that have none.
//
// `signals` is how many signals its events have, `accepts` its language, and `speaks` the proof that they are that.
pub trait Language: Kind {
    ghost signals: { Self → ℕ };

    ghost accepts: { Self → List ℕ → Type 0 };

    ghost speaks: { (s : Self) → Speaks (Self.shape s) (signals s) (accepts s) };
}
