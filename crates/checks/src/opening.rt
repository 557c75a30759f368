// Opening a check.
ghost use Rattle.std.specs.Prelude.{◌≡◌, ◌<◌, ◌≤◌, false, length, if◌then◌else◌, Some, None, MatchResult, nat_lt, slice_set};
ghost use Rattle.kinds.specs.Certificate.{covered};
ghost use Rattle.stores.specs.Holding.{Reordered, inserted};
ghost use Rattle.search.specs.Search.{start as started};
ghost use Rattle.checks.specs.Lending.{Same};
ghost use Rattle.checks.specs.View.{counts_of, verdict_of};
ghost use Rattle.checks.specs.Calls.{Opened, begun_with};
ghost use Rattle.checks.specs.Questions.{open_refusal};

use crate::asking::ask_open;
use crate::counts::Counts;
use crate::lending::{Lent, record_find};
use crate::states::{Matched, Never, Progress, Running};
use finds::refusals::Refused;
use kinds::Kind;
use search::{Find, Verdict};
use stores::Store;

// Opens a check of the kind over the table and the store, which must be empty. The first configurations are taken in
// order: each that is not covered is recorded and put into the store, and the first goal among them ends in MATCHES. A
// refusal leaves table and store as they were.
pub fn open<K: Kind, S: Store<K>>(
    kind: &K,
    table: &mut [Find<K::Config>],
    store: &mut S,
) -> Result<Progress, Refused>
    ensures cases { MatchResult result
        (λ p. (open_refusal (K.shape kind.now) (length table.old) (S.held store.old) (S.limit store.old) ≡ None)
        × Opened (K.shape kind.now) table.old p table.new (S.held store.new) (S.limit store.new))
        (λ e. (open_refusal (K.shape kind.now) (length table.old) (S.held store.old) (S.limit store.old) ≡ Some e)
        × (table.new ≡ table.old) × (store.new ≡ store.old)) }
    ensures limit { S.limit store.new ≡ S.limit store.old }
{
    ask_open(kind, table.len(), store)?;
    let mut lent = Lent { table, store };
    Ok(take_firsts(kind, &mut lent))
}

// Takes the first configurations in order, into a table and a store that will do for them.
fn take_firsts<K: Kind, S: Store<K>>(kind: &K, lent: &mut Lent<K::Config, S>) -> Progress
    requires { open_refusal (K.shape kind.now) (length lent.old.table.now) (S.held lent.old.store.now) (S.limit lent.old.store.now) ≡ None }
    ensures opened { Opened (K.shape kind.now) lent.old.table.now result lent.new.table.now (S.held lent.new.store.now) (S.limit lent.new.store.now) }
    ensures same { Same S.limit lent.old lent.new }
{
    let rows = lent.table.len();
    let mut finds = 0;
    // Stays: each first configuration changes table, store and count, and a goal ends the walk: a chain would carry all.
    for i in 0..kind.first_count() {
        if let Some(x) = kind.first(i) {
            if !lent.store.covers(kind, x) {
                put_first(kind, lent, finds, x);
                finds += 1;
                if kind.goal(x) {
                    return Progress::Matched(Matched {
                        counts: Counts::begun(rows, finds),
                    });
                }
            }
        }
    }
    start(rows, finds)
}

// Records a first configuration in row i and puts it into the store.
fn put_first<K: Kind, S: Store<K>>(kind: &K, lent: &mut Lent<K::Config, S>, i: usize, x: K::Config)
    requires room { i < length lent.old.table.now }
    requires fresh { covered (K.shape kind.now) (S.held lent.old.store.now) x ≡ false }
    requires space { length (S.held lent.old.store.now) < S.limit lent.old.store.now }
    ensures rows { lent.new.table.now ≡ slice_set lent.old.table.now i (started x) }
    ensures items { Reordered (inserted (K.shape kind.now) x (S.held lent.old.store.now)) (S.held lent.new.store.now) }
    ensures same { Same S.limit lent.old lent.new }
{
    let find = Find {
        configuration: x,
        origin: 0,
        via: 0,
        length: 0,
    };
    record_find(kind, lent, i, find);
}

// The check that has recorded so many first configurations, none of them a goal.
fn start(rows: usize, finds: usize) -> Progress
    requires few { finds ≤ rows }
    requires small { rows ≤ 4096 }
    ensures counts { counts_of result ≡ begun_with rows finds }
    ensures verdict { verdict_of result ≡ (if nat_lt 0 finds then None else Some Verdict.Never) }
{
    let counts = Counts::begun(rows, finds);
    if finds > 0 {
        Progress::Running(Running { counts })
    } else {
        Progress::Never(Never { counts })
    }
}
