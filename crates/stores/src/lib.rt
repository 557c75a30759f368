// The interface of a store of configurations, and an insertion that leaves out what is covered.
#![tactic(auto)]

ghost use Rattle.std.specs.Prelude.{◌≡◌, ℕ, ◌≤◌, true, List, length, Ok, MatchResult, OnOk};
ghost use Rattle.kinds.specs.Certificate.{covered};
ghost use Rattle.stores.specs.Holding.{Reordered, Apart, inserted, alike};
ghost use Rattle.stores.specs.Admission.{admitted, answered_new, IfPut};
ghost use Rattle.stores.specs.Growth.{Grows};

use kinds::Kind;

pub mod list;
pub mod refusals;

use crate::refusals::Refused;

// A store is an antichain: it means a set of configurations of a kind, none within another, and a maximum, the most
// that it can hold. It answers whether what it holds covers a configuration, and takes new ones in. Since a
// configuration that covers others can do whatever they can, putting one in drops all that it covers.
//
// `held` is the set, written as a list in an order that is the store's own: no call shows the order, and an insertion
// may change it. `limit` is the maximum, and `roomy` the proof that no more than that are held.
//
// The covers and holds questions, size and maximum change nothing: neither the set nor the maximum. Only insert
// does. A store is made empty, and insert keeps none within another, for the kind that it is called with: so that is
// true of every store whose insertions were all made with one kind.
// Stays: kind and x are just what each question is about, so a struct of them would be taken apart in each call.
pub trait Store<K: Kind> {
    ghost held: { Self → List K.Config };

    ghost limit: { Self → ℕ };

    ghost roomy: { (s : Self) → length (held s) ≤ limit s };

    // Yes if and only if some held configuration covers x.
    fn covers(&self, kind: &K, x: K::Config) -> bool
        ensures { result ≡ covered (K.shape kind.now) (held self.now) x };

    // Yes if and only if x and some held configuration are within each other.
    fn holds(&self, kind: &K, x: K::Config) -> bool
        ensures { result ≡ alike (K.shape kind.now) (held self.now) x };

    // How many configurations are held.
    fn size(&self) -> usize
        ensures { result ≡ length (held self.now) };

    // The most configurations that can be held.
    fn maximum(&self) -> usize
        ensures { result ≡ limit self.now };

    // Puts x in and drops all that x covers. Refused if and only if x is covered already or, where it is not, as many
    // are held as can be, even if x would cover some of them. A refusal leaves the store as it was. The maximum never
    // changes, and if none was within another, none is after it.
    fn insert(&mut self, kind: &K, x: K::Config) -> Result<(), Refused>
        ensures value { result ≡ admitted (K.shape kind.now) x (held self.old) (limit self.old) }
        ensures items { MatchResult result (λ _. Reordered (inserted (K.shape kind.now) x (held self.old)) (held self.new)) (λ _. self.new ≡ self.old) }
        ensures limit { limit self.new ≡ limit self.old }
        ensures apart { Apart (K.shape kind.now) (held self.old) → Apart (K.shape kind.now) (held self.new) };
}

// Has the store cover x: puts x in unless it is covered already, and answers whether it was put in. Refused if and
// only if x is not covered and the store is full; then, and if x was covered, the store stays as it was.
//
// If x and all that is held fit the kind, the store covers after it exactly what it covered before and what x covers,
// x itself among that. So whatever was once put in stays covered, if not held. And what was put in just now is held.
pub fn insert_new<K: Kind, S: Store<K>>(
    store: &mut S,
    kind: &K,
    x: K::Config,
) -> Result<bool, Refused>
    ensures value { result ≡ answered_new (K.shape kind.now) x (S.held store.old) (S.limit store.old) }
    ensures items { IfPut result (Reordered (inserted (K.shape kind.now) x (S.held store.old)) (S.held store.new)) (store.new ≡ store.old) }
    ensures limit { S.limit store.new ≡ S.limit store.old }
    ensures apart { Apart (K.shape kind.now) (S.held store.old) → Apart (K.shape kind.now) (S.held store.new) }
    ensures ok { OnOk result (Grows (K.shape kind.now) x (S.held store.old) (S.held store.new)) }
    ensures test { result ≡ Ok true → (K.shape kind.now).fits x ≡ true → alike (K.shape kind.now) (S.held store.new) x ≡ true }
{
    if store.covers(kind, x) {
        return Ok(false);
    }
    store.insert(kind, x)?;
    Ok(true)
}
