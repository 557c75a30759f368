// Advancing a check.
ghost use Rattle.std.specs.Prelude.{◌≡◌, true, false, length, Some, None, MatchResult};
ghost use Rattle.search.specs.Like.{Like};
ghost use Rattle.search.specs.Search.{query, queried};
ghost use Rattle.checks.specs.Lending.{Same};
ghost use Rattle.checks.specs.View.{stood, view};
ghost use Rattle.checks.specs.Calls.{Ready, Answered, NextReady, Kept, Advanced};
ghost use Rattle.checks.specs.Questions.{is_grant, advance_refusal};

use crate::lending::Lent;
use crate::states::{Progress, Running};
use finds::finder::least_move;
use finds::refusals::Refused;
use kinds::{Kind, Move};
use search::Find;
use stores::Store;

// The most queries that a call may grant.
pub const MAX_GRANT: u32 = 65_535;

// Done if a call may grant so many queries.
pub fn ask_grant(grant: u32) -> Result<(), Refused>
    ensures { MatchResult result
        (λ _. is_grant grant ≡ true)
        (λ e. (is_grant grant ≡ false) × (e ≡ Refused.Grant)) }
{
    if 1 <= grant && grant <= MAX_GRANT {
        Ok(())
    } else {
        Err(Refused::Grant)
    }
}

impl Running {
    // Makes as many queries as are granted, or fewer if a verdict comes. Refused if the table or the store is not as the
    // check left it, or the grant is not 1 to 65,535; the check is then given back, and table and store stay as they were.
    pub fn advance<K: Kind, S: Store<K>>(
        self,
        kind: &K,
        table: &mut [Find<K::Config>],
        store: &mut S,
        grant: u32,
    ) -> Result<Progress, (Running, Refused)>
        ensures cases { MatchResult result
            (λ p. (advance_refusal (K.shape kind.now) self.counts table.old (S.held store.old) (S.limit store.old) grant ≡ None)
            × Advanced (K.shape kind.now) self.counts table.old (S.held store.old) grant p table.new (S.held store.new) (S.limit store.new))
            (λ e. (advance_refusal (K.shape kind.now) self.counts table.old (S.held store.old) (S.limit store.old) grant ≡ Some e.1)
            × (e.0 ≡ self) × (table.new ≡ table.old) × (store.new ≡ store.old)) }
        ensures limit { S.limit store.new ≡ S.limit store.old }
    {
        match self.counts.ask_advance(kind, table, store, grant) {
            Ok(()) => {
                let mut lent = Lent { table, store };
                Ok(self.turns(kind, &mut lent, grant))
            }
            Err(refused) => Err((self, refused)),
        }
    }

    // So many queries, or fewer if a verdict comes.
    fn turns<K: Kind, S: Store<K>>(
        self,
        kind: &K,
        lent: &mut Lent<K::Config, S>,
        grant: u32,
    ) -> Progress
        requires { Ready (K.shape kind.now) self.counts lent.old.table.now (S.held lent.old.store.now) (S.limit lent.old.store.now) }
        ensures advanced { Advanced (K.shape kind.now) self.counts lent.old.table.now (S.held lent.old.store.now) grant result lent.new.table.now (S.held lent.new.store.now) (S.limit lent.new.store.now) }
        ensures same { Same S.limit lent.old lent.new }
    {
        let mut running = self;
        for _ in 0..grant {
            running = match running.make_query(kind, lent) {
                Progress::Running(next) => next,
                ended => return ended,
            };
        }
        Progress::Running(running)
    }

    // One query, as the search makes it.
    fn make_query<K: Kind, S: Store<K>>(self, kind: &K, lent: &mut Lent<K::Config, S>) -> Progress
        requires { Ready (K.shape kind.now) self.counts lent.old.table.now (S.held lent.old.store.now) (S.limit lent.old.store.now) }
        ensures like { Like (view result lent.new.table.now (S.held lent.new.store.now))
            (query (K.shape kind.now) (length lent.old.table.now) (stood self.counts None lent.old.table.now (S.held lent.old.store.now))) }
        ensures same { Same S.limit lent.old lent.new }
        ensures kept { Kept self.counts lent.old.table.now result lent.new.table.now }
        ensures ready { NextReady (K.shape kind.now) result lent.new.table.now (S.held lent.new.store.now) (S.limit lent.new.store.now) }
    {
        let answer = self.expand(kind, lent);
        self.query(kind, lent, answer)
    }

    // The least move that leads back from the row that is being expanded to what the store does not cover.
    fn expand<K: Kind, S: Store<K>>(
        &self,
        kind: &K,
        lent: &Lent<K::Config, S>,
    ) -> Option<(Move, K::Config)>
        requires { length lent.now.table.now ≡ self.now.counts.rows }
        ensures { Answered (K.shape kind.now) self.now.counts lent.now.table.now (S.held lent.now.store.now) result }
    {
        let row = self.counts.row;
        least_move(kind, lent.store, lent.table[row].configuration)
    }
}
