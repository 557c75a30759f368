// What a call is lent beside its kind, and recording a row in it.
ghost use Rattle.std.specs.Prelude.{◌≡◌, ◌<◌, false, length, slice_set};
ghost use Rattle.kinds.specs.Certificate.{covered};
ghost use Rattle.stores.specs.Holding.{Reordered, inserted};
ghost use Rattle.checks.specs.Lending.{Same};

use kinds::Kind;
use search::Find;
use stores::Store;

// The table of finds and the store.
// Stays: the kind goes beside it, since in it each contract would also have to say that the kind is the same after it.
#[derive(Drop)]
pub(crate) struct Lent<'a, C, S> {
    pub(crate) table: &'a mut [Find<C>],
    pub(crate) store: &'a mut S,
}

// Records the find in row i and puts its configuration, which is not covered, into the store.
pub(crate) fn record_find<K: Kind, S: Store<K>>(
    kind: &K,
    lent: &mut Lent<K::Config, S>,
    i: usize,
    find: Find<K::Config>,
)
    requires room { i < length lent.old.table.now }
    requires fresh { covered (K.shape kind.now) (S.held lent.old.store.now) find.configuration ≡ false }
    requires space { length (S.held lent.old.store.now) < S.limit lent.old.store.now }
    ensures rows { lent.new.table.now ≡ slice_set lent.old.table.now i find }
    ensures items { Reordered (inserted (K.shape kind.now) find.configuration (S.held lent.old.store.now)) (S.held lent.new.store.now) }
    ensures same { Same S.limit lent.old lent.new }
{
    let x = find.configuration;
    lent.table[i] = find;
    let _ = lent.store.insert(kind, x);
}
