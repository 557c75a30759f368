// The parts of a pattern as a caller lends them, whatever the tables hold, and the questions asked of them.
ghost use Rattle.std.specs.Prelude.{◌≡◌, false, is_some, is_ok, Some, None, Decides, MatchResult};
ghost use Rattle.patterns.specs.Automaton.{read};
ghost use Rattle.patterns.specs.Formed.{Formed};
ghost use Rattle.patterns.specs.Questions.{judged};

use crate::fault::Fault;
use crate::questions::{check_roots, check_rows, is_ended, is_sized};
use crate::row::Row;
use sets::States;

// The roots' table has a row number for each state, so its length is the number of states.
#[derive(Clone, Copy)]
pub struct Parts<'a> {
    pub signals: u8,
    pub start: u8,
    pub finals: States,
    pub roots: &'a [u16],
    pub rows: &'a [Row],
}

// Parts that meet every question. They come only from `Parts::checked`.
#[derive(Clone, Copy)]
pub struct Checked<'a> {
    pub(crate) parts: Parts<'a>,
    ghost sound: { is_some (judged (read parts)) ≡ false },
}

impl<'a> Parts<'a> {
    ghost use Rattle.patterns.specs.Tables.{tables};

    // Asks every question in order, and answers with the first fault. Nothing is written.
    pub fn check(self) -> Result<(), Fault>
        ensures cases { MatchResult result
            (λ _. judged (read self.entry) ≡ None)
            (λ f. judged (read self.entry) ≡ Some f) }
        ensures formed { Decides (is_ok result) (Formed (read self.entry)) }
    {
        ask(self)
    }

    // The parts with the mark that they met every question, from which a pattern is made; or the first fault.
    pub fn checked(self) -> Result<Checked<'a>, Fault>
        ensures { MatchResult result
            (λ c. (tables c ≡ read self.entry) × (judged (tables c) ≡ None))
            (λ f. judged (read self.entry) ≡ Some f) }
    {
        self.check()?;
        Ok(Checked { parts: self })
    }
}

// The questions in order: sizes, start and final states, roots, then row by row.
#[tactic(auto, unfolding(crate::specs::Questions::judged))]
fn ask(parts: Parts) -> Result<(), Fault>
    ensures { MatchResult result
        (λ _. judged (read parts.entry) ≡ None)
        (λ f. judged (read parts.entry) ≡ Some f) }
{
    if !is_sized(parts.roots.len(), parts.signals, parts.rows.len()) {
        return Err(Fault::Sizes);
    }
    if !is_ended(parts.roots.len(), parts.start, parts.finals) {
        return Err(Fault::Ends);
    }
    check_roots(parts.roots, parts.rows.len())?;
    check_rows(parts.rows, parts.roots.len(), parts.signals)
}
