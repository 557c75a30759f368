// What a check tells: its tally, a row, and at the end its sequence or its certificate.
ghost use Rattle.std.specs.Prelude.{◌≡◌, ◌≤◌, [], length, take};
ghost use Rattle.finds.specs.Results.{Answered};
ghost use Rattle.search.specs.Search.{cleared_at, length_at, sequence, certificate};
ghost use Rattle.checks.specs.declared.states.Progress.TheVariants as progress;
ghost use Rattle.checks.specs.View.{counts_of, verdict_of, view};
ghost use Rattle.checks.specs.Answers.{tallied, looked, sequence_asked, certificate_asked};

use crate::counts::Counts;
use crate::states::{Matched, Never, Progress};
use finds::certificates::write_certificate;
use finds::refusals::Refused;
use finds::sequences::write_sequence;
use kinds::Kind;
use search::{Find, Tally, Verdict};
use sets::Event;
use stores::Store;

impl Progress {
    // The verdict, if there is one, and the counts. Refused if the table is not as the check left it.
    pub fn tally<K: Kind>(&self, kind: &K, table: &[Find<K::Config>]) -> Result<Tally, Refused>
        ensures { result ≡ tallied (K.shape kind.now) self.now table.now }
    {
        let counts = self.counts();
        counts.ask_table(kind, table)?;
        Ok(Tally {
            verdict: self.verdict(),
            finds: counts.finds,
            starts: counts.starts,
            queries: counts.queries,
            cleared: self.cleared(table),
        })
    }

    // One recorded row. Refused if the table is not as the check left it, or the row is not recorded.
    pub fn look<K: Kind>(
        &self,
        kind: &K,
        table: &[Find<K::Config>],
        row: usize,
    ) -> Result<Find<K::Config>, Refused>
        ensures { result ≡ looked (K.shape kind.now) self.now table.now row }
    {
        let counts = self.counts();
        counts.ask_table(kind, table)?;
        match table[..counts.finds].get(row) {
            Some(find) => Ok(copied(find)),
            None => Err(Refused::NoRow),
        }
    }

    fn counts(&self) -> Counts
        ensures value { result ≡ counts_of self.now }
        ensures room { result.finds ≤ result.rows }
    {
        match self {
            Progress::Running(check) => check.counts,
            Progress::Matched(check) => check.counts,
            Progress::Never(check) => check.counts,
            Progress::Full(check) => check.counts,
        }
    }

    // The verdict, if there is one.
    pub fn verdict(&self) -> Option<Verdict>
        ensures { result ≡ verdict_of self.now }
    {
        match self {
            Progress::Running(_) => None,
            Progress::Matched(_) => Some(Verdict::Matches),
            Progress::Never(_) => Some(Verdict::Never),
            Progress::Full(_) => Some(Verdict::Full),
        }
    }

    // The cleared length: the length of the row that is being expanded, without a verdict or at FULL.
    fn cleared<C>(&self, table: &[Find<C>]) -> usize
        requires { length table.now ≡ (counts_of self.now).rows }
        ensures { result ≡ cleared_at (verdict_of self.now) (length_at (take (counts_of self.now).finds table.now) (counts_of self.now).row) }
    {
        match self {
            Progress::Running(check) => check.counts.length_at(table),
            Progress::Full(check) => check.counts.length_at(table),
            Progress::Matched(_) | Progress::Never(_) => 0,
        }
    }
}

impl Matched {
    // Writes the sequence into the front of the list and answers how many events it has. Refused, with the list as it
    // was, if the table is not as the check left it, or the list is too short.
    pub fn sequence<K: Kind>(
        &self,
        kind: &K,
        table: &[Find<K::Config>],
        list: &mut [Event],
    ) -> Result<usize, Refused>
        ensures { Answered (sequence (K.shape kind.now) (view (progress.Matched self.now) table.now []))
            (sequence_asked (K.shape kind.now) self.now.counts table.now (length list.old)) list.old list.new result }
    {
        let counts = self.counts;
        counts.ask_length(table)?;
        write_sequence(kind, counts.starts, &table[..counts.finds], list)
    }
}

impl Never {
    // Writes the certificate into the front of the list and answers how many configurations it has. Refused, with the
    // list as it was, if the table or the store is not as the check left it, or the list is too short.
    pub fn certificate<K: Kind, S: Store<K>>(
        &self,
        kind: &K,
        table: &[Find<K::Config>],
        store: &S,
        list: &mut [K::Config],
    ) -> Result<usize, Refused>
        ensures { Answered (certificate (K.shape kind.now) (view (progress.Never self.now) table.now (S.held store.now)))
            (certificate_asked (K.shape kind.now) self.now.counts table.now (S.held store.now) (S.limit store.now) (length list.old)) list.old list.new result }
    {
        let counts = self.counts;
        counts.ask_lent(kind, table, store)?;
        write_certificate(kind, store, &table[..counts.finds], list)
    }
}

// A row, field by field.
// Stays: a rule of the project has finds read field by field, and written whole.
fn copied<C: Copy>(find: &Find<C>) -> Find<C>
    ensures { result ≡ find.now }
{
    Find {
        configuration: find.configuration,
        origin: find.origin,
        via: find.via,
        length: find.length,
    }
}
