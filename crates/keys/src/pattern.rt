// Keys in the pattern kind.
ghost use Rattle.keys.specs.Keys.{pattern_key, pattern_config};

use crate::Keyed;
use crate::key::Key;
use pattern_kinds::pattern::Single;
use sets::States;

// The key of a set is the states that it has not.
impl<'a> Keyed<0> for Single<'a> {
    ghost word = { pattern_key };

    ghost config = { pattern_config };

    fn key(&self, x: States) -> Key {
        Key { lead: None, set: x }
    }
}
