// One query, and the row that it may record.
ghost use Rattle.std.specs.Prelude.{◌≡◌, ◌+◌, ◌<◌, ◌≤◌, false, length, if◌then◌else◌, Some, None, nat_lt, slice_set};
ghost use Rattle.kinds.specs.Certificate.{covered};
ghost use Rattle.stores.specs.Holding.{Reordered, inserted};
ghost use Rattle.checks.specs.Lending.{Same};
ghost use Rattle.checks.specs.View.{counts_of, verdict_of};
ghost use Rattle.checks.specs.Calls.{Ready, Answered, new_row, noted, passed, made_counts, made_verdict, made_rows, made_item, Put};

use crate::counts::Counts;
use crate::lending::{Lent, record_find};
use crate::states::{Full, Matched, Never, Progress, Running};
use kinds::{Kind, Move};
use search::{Find, Verdict};
use stores::Store;

impl Running {
    // One query, answered with the least move that leads back from the row that is being expanded to what the store does
    // not cover.
    pub(crate) fn query<K: Kind, S: Store<K>>(
        self,
        kind: &K,
        lent: &mut Lent<K::Config, S>,
        answer: Option<(Move, K::Config)>,
    ) -> Progress
        requires ready { Ready (K.shape kind.now) self.counts lent.old.table.now (S.held lent.old.store.now) (S.limit lent.old.store.now) }
        requires answered { Answered (K.shape kind.now) self.counts lent.old.table.now (S.held lent.old.store.now) answer }
        ensures counts { counts_of result ≡ made_counts self.counts (length lent.old.table.now) answer }
        ensures verdict { verdict_of result ≡ made_verdict (K.shape kind.now) self.counts (length lent.old.table.now) answer }
        ensures rows { lent.new.table.now ≡ made_rows self.counts lent.old.table.now answer }
        ensures items { Put (K.shape kind.now) (made_item self.counts (length lent.old.table.now) answer) (S.held lent.old.store.now) (S.held lent.new.store.now) }
        ensures same { Same S.limit lent.old lent.new }
    {
        let Some((k, x)) = answer else {
            return self.close();
        };
        let rows = lent.table.len();
        match (self.counts, (k, x)) {
            (counts, _) if counts.is_full(rows) => Progress::Full(Full {
                counts: Counts {
                    queries: counts.queries + 1,
                    ..counts
                },
            }),
            (counts, (k, x)) if kind.goal(x) => Progress::Matched(Matched {
                counts: counts.note_find(kind, lent, k, x),
            }),
            (counts, (k, x)) => Progress::Running(Running {
                counts: counts.note_find(kind, lent, k, x),
            }),
        }
    }

    // The row that is being expanded is closed: the next is expanded, or there is none.
    fn close(self) -> Progress
        ensures counts { counts_of result ≡ passed self.counts }
        ensures verdict { verdict_of result ≡ (if nat_lt (self.counts.row + 1) self.counts.finds then None else Some Verdict.Never) }
    {
        let counts = Counts {
            row: self.counts.row + 1,
            queries: self.counts.queries + 1,
            ..self.counts
        };
        if counts.row < counts.finds {
            Progress::Running(Running { counts })
        } else {
            Progress::Never(Never { counts })
        }
    }
}

impl Counts {
    // Records the find in the next row and puts it into the store.
    fn note_find<K: Kind, S: Store<K>>(
        self,
        kind: &K,
        lent: &mut Lent<K::Config, S>,
        k: Move,
        x: K::Config,
    ) -> Counts
        requires ready { Ready (K.shape kind.now) self lent.old.table.now (S.held lent.old.store.now) (S.limit lent.old.store.now) }
        requires here { self.row < self.finds }
        requires room { self.finds < length lent.old.table.now }
        requires small { length lent.old.table.now ≤ 4096 }
        requires counted { self.queries + self.starts ≡ self.finds + self.row }
        requires fresh { covered (K.shape kind.now) (S.held lent.old.store.now) x ≡ false }
        ensures value { result ≡ noted self }
        ensures rows { lent.new.table.now ≡ slice_set lent.old.table.now self.finds (new_row self lent.old.table.now k x) }
        ensures items { Reordered (inserted (K.shape kind.now) x (S.held lent.old.store.now)) (S.held lent.new.store.now) }
        ensures same { Same S.limit lent.old lent.new }
    {
        let length = lent.table[self.row].length + 1;
        let find = Find {
            configuration: x,
            origin: self.row,
            via: k,
            length,
        };
        record_find(kind, lent, self.finds, find);
        Counts {
            finds: self.finds + 1,
            queries: self.queries + 1,
            ..self
        }
    }
}
