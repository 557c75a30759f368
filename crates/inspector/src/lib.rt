// The inspector: whether a list of configurations is a certificate that a kind accepts nothing.
#![tactic(auto)]

ghost use Rattle.std.specs.Prelude.{◌≡◌, length, Ok, nat_lt};
ghost use Rattle.std.specs.List.{slice_get};
ghost use Rattle.kinds.specs.Accepted.{NothingAccepted};
ghost use Rattle.inspector.specs.Inspected.{max_entries, has_such, uncovered, leads_out, unfit_entry, uncovered_first, goal_entry, escape, examined, inspected};
ghost use Rattle.inspector.specs.Meaning.{Says, PassesExactly};

use kinds::{Kind, Move, covers};

pub mod answers;

use crate::answers::{Inspection, Refused};

// The most entries that a list may have.
pub const MAX_ENTRIES: usize = 4_096;

// Inspects a list that anyone may have made; nothing about where it comes from is assumed. The list is refused if
// it is too long or an entry does not fit the kind. Otherwise it passes if it is a certificate: it covers every
// first configuration, no entry is a goal, and it covers all that a move leads back to from an entry. If it passes,
// the kind accepts no list of moves and no sequence of events. If not, the answer says at what it failed first.
pub fn inspect<K: Kind>(kind: &K, list: &[K::Config]) -> Result<Inspection, Refused>
    ensures value { result ≡ inspected (K.shape kind.now) list.now }
    ensures cases { Says (K.shape kind.now) list.now result }
    ensures test { PassesExactly (K.shape kind.now) list.now result }
    ensures ok { result ≡ Ok Inspection.Passed → NothingAccepted (K.shape kind.now) }
{
    let claim = Claim { kind, list };
    if claim.is_too_long() {
        return Err(Refused::TooLong);
    }
    if let Some(entry) = claim.first_unfit() {
        return Err(Refused::Unfit(entry));
    }
    Ok(claim.examine())
}

// A list that is to be a certificate that the kind accepts nothing.
#[derive(Clone, Copy)]
struct Claim<'a, K: Kind> {
    kind: &'a K,
    list: &'a [K::Config],
}

impl<'a, K: Kind> Claim<'a, K> {
    // Yes if and only if the list has more entries than it may have.
    fn is_too_long(&self) -> bool
        ensures { result ≡ nat_lt max_entries (length self.now.list.now) }
    {
        self.list.len() > MAX_ENTRIES
    }

    // The least entry that does not fit the kind.
    fn first_unfit(&self) -> Option<usize>
        ensures { result ≡ unfit_entry (K.shape self.now.kind.now) self.now.list.now }
    {
        self.list.iter().position(|y| !self.kind.fits(*y))
    }

    // What a list whose entries all fit is found to be.
    fn examine(&self) -> Inspection
        ensures { result ≡ examined (K.shape self.now.kind.now) self.now.list.now }
    {
        if let Some(first) = self.first_uncovered() {
            return Inspection::First(first);
        }
        if let Some(entry) = self.first_goal() {
            return Inspection::Goal(entry);
        }
        match self.first_escape() {
            Some((entry, k)) => Inspection::Back(entry, k),
            None => Inspection::Passed,
        }
    }

    // Yes if and only if there is a first configuration numbered i and the list does not cover it.
    #[tactic(auto, using(crate::proofs::Finds::such))]
    fn misses_first(&self, i: usize) -> bool
        ensures { result ≡ has_such (uncovered (K.shape self.now.kind.now) self.now.list.now)
            (slice_get (K.shape self.now.kind.now).firsts i) }
    {
        self.kind
            .first(i)
            .is_some_and(|x| !covers(self.kind, self.list, x))
    }

    // Yes if and only if move k leads back from y to what the list does not cover.
    #[tactic(auto, using(crate::proofs::Finds::such))]
    fn leads_out(&self, k: Move, y: K::Config) -> bool
        ensures { result ≡ leads_out (K.shape self.now.kind.now) self.now.list.now k y }
    {
        self.kind
            .back(k, y)
            .is_some_and(|x| !covers(self.kind, self.list, x))
    }

    // The least first configuration that the list does not cover.
    fn first_uncovered(&self) -> Option<usize>
        ensures { result ≡ uncovered_first (K.shape self.now.kind.now) self.now.list.now }
    {
        (0..self.kind.first_count()).find(|i| self.misses_first(*i))
    }

    // The least entry that is a goal.
    fn first_goal(&self) -> Option<usize>
        ensures { result ≡ goal_entry (K.shape self.now.kind.now) self.now.list.now }
    {
        self.list.iter().position(|y| self.kind.goal(*y))
    }

    // The least entry from which a move leads back to what the list does not cover, and the least such move.
    #[tactic(auto, using(crate::proofs::Finds::no_escape, crate::proofs::Finds::escape_here))]
    fn first_escape(&self) -> Option<(usize, Move)>
        ensures { result ≡ escape (K.shape self.now.kind.now) self.now.list.now }
    {
        // Stays: to look entry by entry and move by move, and to leave by a label, is a rule of the project.
        let mut found = None;
        'entries: for (i, y) in self.list.iter().enumerate() {
            for k in 0..self.kind.moves() {
                if self.leads_out(k, *y) {
                    found = Some((i, k));
                    break 'entries;
                }
            }
        }
        found
    }
}
