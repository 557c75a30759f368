// Keys in the joint kind.
ghost use Rattle.std.specs.Prelude.{◌≡◌, ◌+◌};
ghost use Rattle.keys.specs.Keys.{joint_key, joint_config};

use crate::Keyed;
use crate::key::Key;
use joint_kinds::joint::Joint;
use kind_shapes::JointConfig;

// The key of a model state with a set is 64 plus the state, and the states that the set has not.
impl<'a> Keyed<1> for Joint<'a> {
    ghost word = { joint_key };

    ghost config = { joint_config };

    fn key(&self, x: JointConfig) -> Key {
        Key {
            lead: Some(lead_of(x.state)),
            set: x.set,
        }
    }
}

// The number that leads the keys with a model state.
fn lead_of(state: u8) -> u16
    ensures { result ≡ 64 + state }
{
    64 + state as u16
}
