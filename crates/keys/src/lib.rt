// Keys of configurations: short lists of numbers in which to look for what covers a configuration.
#![tactic(auto)]

ghost use Rattle.std.specs.Prelude.{◌≡◌, ℕ, true, List};
ghost use Rattle.keys.specs.Numbers.{proper};
ghost use Rattle.keys.specs.Listed.{numbers};
ghost use Rattle.keys.specs.Keys.{KeyOrder};

use crate::key::Key;
use kinds::Kind;

pub mod joint;
pub mod key;
pub mod pattern;

// A kind with keys is a kind whose configurations each have a key: a list of numbers, of which the first, as many as
// LEADS says, are 64 and more and the others below 64. One configuration is within another if and only if the key of the
// other has no number that its own has not.
//
// `word` is the key of a configuration, and `config` the configuration that has a key.
pub trait Keyed<const LEADS: usize>: Kind {
    ghost word: { Self.Config → List ℕ };

    ghost config: { List ℕ → Self.Config };

    // The key of x. It tells x from every other configuration.
    fn key(&self, x: Self::Config) -> Key
        ensures value { numbers result ≡ word x }
        ensures proper { proper LEADS (word x) ≡ true }
        ensures same { config (word x) ≡ x }
        ensures order { KeyOrder LEADS (Self.Kind.shape self.now) config };
}
