// The finder: the least move that leads back to something new.
ghost use Rattle.std.specs.Prelude.{◌≡◌};
ghost use Rattle.search.specs.Search.{least_move_of};

use kinds::{Kind, Move};
use stores::Store;

// The least move that leads back from y to a configuration that the store does not cover, with that configuration;
// none if no move does. Moves are tried from 0, each once, and the store is asked once for each that can be worked
// back.
pub fn least_move<K: Kind, S: Store<K>>(
    kind: &K,
    store: &S,
    y: K::Config,
) -> Option<(Move, K::Config)>
    ensures { result ≡ least_move_of (K.shape kind.now) (S.held store.now) y }
{
    // Stays: a kind is asked for one move at a time, so this is a range of numbers and no walk over a slice.
    for k in 0..kind.moves() {
        if let Some(x) = kind.back(k, y) {
            if !store.covers(kind, x) {
                return Some((k, x));
            }
        }
    }
    None
}
