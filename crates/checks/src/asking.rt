// What the calls of a check ask before they do anything.
ghost use Rattle.std.specs.Prelude.{◌≡◌, ◌≢◌, ◌≤◌, true, false, ◌&&◌, length, Some, None, MatchResult};
ghost use Rattle.checks.specs.Questions.{admitted, open_refusal, unaltered, store_kept, advance_refusal};

use crate::advancing::ask_grant;
use crate::counts::Counts;
use finds::is_intact;
use finds::refusals::Refused;
use kinds::Kind;
use search::{Find, admits_rows};
use stores::Store;

// Done if a check of this kind may be opened over so many rows and this store.
pub(crate) fn ask_open<K: Kind, S: Store<K>>(
    kind: &K,
    rows: usize,
    store: &S,
) -> Result<(), Refused>
    ensures { MatchResult result
        (λ _. open_refusal (K.shape kind.now) rows (S.held store.now) (S.limit store.now) ≡ None)
        (λ e. open_refusal (K.shape kind.now) rows (S.held store.now) (S.limit store.now) ≡ Some e) }
{
    if !are_rows_admitted(kind, rows) {
        return Err(Refused::Rows);
    }
    if store.size() == 0 && rows <= store.maximum() {
        Ok(())
    } else {
        Err(Refused::Store)
    }
}

impl Counts {
    // Done if a check with these counts may be advanced by so many queries over this table and store.
    pub(crate) fn ask_advance<K: Kind, S: Store<K>>(
        self,
        kind: &K,
        table: &[Find<K::Config>],
        store: &S,
        grant: u32,
    ) -> Result<(), Refused>
        requires { self.finds ≤ self.rows }
        ensures { MatchResult result
            (λ _. advance_refusal (K.shape kind.now) self table.now (S.held store.now) (S.limit store.now) grant ≡ None)
            (λ e. advance_refusal (K.shape kind.now) self table.now (S.held store.now) (S.limit store.now) grant ≡ Some e) }
    {
        self.ask_lent(kind, table, store)?;
        ask_grant(grant)
    }

    // Done if table and store are as the check left them.
    pub(crate) fn ask_lent<K: Kind, S: Store<K>>(
        self,
        kind: &K,
        table: &[Find<K::Config>],
        store: &S,
    ) -> Result<(), Refused>
        requires { self.finds ≤ self.rows }
        ensures { MatchResult result
            (λ _. (unaltered (K.shape kind.now) self table.now && store_kept self (S.held store.now) (S.limit store.now)) ≡ true)
            (λ e. ((unaltered (K.shape kind.now) self table.now && store_kept self (S.held store.now) (S.limit store.now)) ≡ false) × (e ≡ Refused.Altered)) }
    {
        self.ask_table(kind, table)?;
        if store.size() <= self.finds && self.rows <= store.maximum() {
            Ok(())
        } else {
            Err(Refused::Altered)
        }
    }

    // Done if the table is as long as at opening and its recorded rows are as a search records them.
    pub(crate) fn ask_table<K: Kind>(
        self,
        kind: &K,
        table: &[Find<K::Config>],
    ) -> Result<(), Refused>
        requires { self.finds ≤ self.rows }
        ensures { MatchResult result
            (λ _. unaltered (K.shape kind.now) self table.now ≡ true)
            (λ e. (unaltered (K.shape kind.now) self table.now ≡ false) × (e ≡ Refused.Altered)) }
    {
        self.ask_length(table)?;
        if is_intact(kind, self.starts, &table[..self.finds]) {
            Ok(())
        } else {
            Err(Refused::Altered)
        }
    }

    // Done if the table is as long as at opening.
    pub(crate) fn ask_length<C>(self, table: &[Find<C>]) -> Result<(), Refused>
        ensures { MatchResult result
            (λ _. length table.now ≡ self.rows)
            (λ e. (length table.now ≢ self.rows) × (e ≡ Refused.Altered)) }
    {
        if table.len() == self.rows {
            Ok(())
        } else {
            Err(Refused::Altered)
        }
    }
}

// Whether a search of this kind may be made over so many rows.
fn are_rows_admitted<K: Kind>(kind: &K, rows: usize) -> bool
    ensures { result ≡ admitted (K.shape kind.now) rows }
{
    admits_rows(kind, rows)
}
