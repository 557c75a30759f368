// The interface of a kind, and whether a list of configurations covers one.
#![tactic(auto)]

ghost use Rattle.std.specs.Prelude.{◌≡◌, length, Decides};
ghost use Rattle.std.specs.List.{slice_get, list_any};
ghost use Rattle.kinds.specs.Shape.{Shape};
ghost use Rattle.kinds.specs.Laws.{Laws};
ghost use Rattle.kinds.specs.Certificate.{covered, CoveringEntry};

use sets::Event;

pub mod language;

// The number of a move.
pub type Move = u64;

// A kind is a transition system that is worked backwards. It has configurations, of a type of its own; some of them
// are first configurations and some are goals. From a configuration y a move k may be worked back, or
// not; if it can be, it leads to one configuration, back(k, y). A list of moves is accepted if working it back from
// some first configuration, its last move first, is always possible and ends in a goal. Each move stands for an
// event, and the events of an accepted list of moves are an accepted sequence.
//
// Configurations are ordered: "x is within y", or "y covers x", says that y can do whatever x can. That is what
// lets a search keep only configurations that cover the others. So a kind shows these laws, of configurations that
// fit it:
// - First configurations fit, and so does back of what fits.
// - Within is reflexive.
// - Within is transitive.
// - If y is within z and back(k, y) exists, then back(k, z) exists and covers it.
// - What covers a goal is a goal.
//
// And back(k, y) exists only for moves, which are the numbers below `moves`.
//
// `shape` is what the kind means and `laws` its proof of the laws. Every method answers what the shape says: a
// question changes nothing, gives the same answer whenever it is asked, and may be asked of any configuration.
pub trait Kind {
    type Config: Copy;

    ghost shape: { Self → Shape Self.Config };

    ghost laws: { (s : Self) → Laws (shape s) };

    // Yes if and only if x is a configuration of this system.
    fn fits(&self, x: Self::Config) -> bool
        ensures { result ≡ (shape self.now).fits x };

    // Yes if and only if x is within y, that is, y covers x.
    fn within(&self, x: Self::Config, y: Self::Config) -> bool
        ensures { result ≡ (shape self.now).within x y };

    // How many first configurations there are.
    fn first_count(&self) -> usize
        ensures { result ≡ length (shape self.now).firsts };

    // The first configuration numbered i from 0, and none where there are no more than i.
    fn first(&self, i: usize) -> Option<Self::Config>
        ensures { result ≡ slice_get (shape self.now).firsts i };

    // How many moves there are.
    fn moves(&self) -> Move
        ensures { result ≡ (shape self.now).moves };

    // The event that move k stands for; of a number that is no move, whatever the shape says.
    fn event(&self, k: Move) -> Event
        ensures { result ≡ (shape self.now).event k };

    // Yes if and only if x is a goal.
    fn goal(&self, x: Self::Config) -> bool
        ensures { result ≡ (shape self.now).goal x };

    // Where move k leads back to from y, and none if it cannot be worked back there.
    fn back(&self, k: Move, y: Self::Config) -> Option<Self::Config>
        ensures { result ≡ (shape self.now).back k y };
}

// Yes if and only if some entry of the list covers x.
pub fn covers<K: Kind>(kind: &K, list: &[K::Config], x: K::Config) -> bool
    ensures value { result ≡ covered (K.shape kind.now) list.now x }
    ensures test { Decides result (CoveringEntry (K.shape kind.now) list.now x) }
{
    some_covers(kind, list, x)
}

// Asks each entry in turn whether it covers x.
fn some_covers<K: Kind>(kind: &K, list: &[K::Config], x: K::Config) -> bool
    ensures { result ≡ list_any (λ y. (K.shape kind.now).within x y) list.now }
{
    // Stays: as `any`, it misses a bar of speed, since the compiler no longer asks two entries at a time.
    for y in list {
        if kind.within(x, *y) {
            return true;
        }
    }
    false
}
