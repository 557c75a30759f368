// The text that a program prints of a check that has ended: the verdict, the queries and the finds, then what the
// verdict has to show, each on a line of its own.
#![tactic(auto)]

ghost use Rattle.std.specs.Prelude.{◌++◌, Some, codes};
ghost use Rattle.reports.specs.Reports.{line, head_text, report_text};
ghost use Rattle.reports.specs.Shown.{outcome_of, lines_of};

use sets::{Event, States};
use std::fmt;

// What a check ended in, with what is printed of it.
#[derive(Clone, Copy)]
pub enum Outcome<'a> {
    // MATCHES, with the events of the sequence.
    Matches(&'a [Event]),
    // NEVER, with the sets of the certificate.
    Never(&'a [States]),
    // FULL, with the cleared length.
    Full(usize),
}

// The report of a check that has ended.
#[derive(Clone, Copy)]
pub struct Report<'a> {
    pub queries: usize,
    pub finds: usize,
    pub outcome: Outcome<'a>,
}

impl fmt::Display for Report<'_> {
    ghost output = { λ r. Some (report_text r.queries r.finds (outcome_of r.outcome)) };

    #[tactic(auto, using(crate::proofs::Adding::lines_of_numbers))]
    fn fmt<W: fmt::Write>(&self, f: &mut fmt::Formatter<W>) -> fmt::Result {
        match self.outcome {
            Outcome::Matches(events) => {
                let head = WithLength(Head("MATCHES", self), events.len());
                let lines = Lines("event", events);
                write!(f, "{head}{lines}")
            }
            Outcome::Never(sets) => {
                let head = Head("NEVER", self);
                let lines = Lines("held", sets);
                write!(f, "{head}{lines}")
            }
            Outcome::Full(cleared) => WithLength(Head("FULL", self), cleared).fmt(f),
        }
    }
}

// The lines that a report begins with: its verdict is this word.
#[derive(Drop)]
struct Head<'a>(&'a str, &'a Report<'a>);

impl fmt::Display for Head<'_> {
    ghost output = { λ h. Some (head_text h.0.now h.1.now.queries h.1.now.finds) };

    #[tactic(auto, unfolding(crate::specs::Reports::head_text))]
    fn fmt<W: fmt::Write>(&self, f: &mut fmt::Formatter<W>) -> fmt::Result {
        let Head(verdict, report) = self;
        let Report { queries, finds, .. } = report;
        write!(f, "verdict {verdict}\n")?;
        write!(f, "queries {queries}\n")?;
        write!(f, "finds {finds}\n")
    }
}

// These lines, and one more for this length.
#[derive(Drop)]
struct WithLength<'a>(Head<'a>, usize);

impl fmt::Display for WithLength<'_> {
    ghost output = { λ h. Some (head_text h.0.0.now h.0.1.now.queries h.0.1.now.finds ++ line (codes "length") h.1) };

    fn fmt<W: fmt::Write>(&self, f: &mut fmt::Formatter<W>) -> fmt::Result {
        let WithLength(head, length) = self;
        write!(f, "{head}length {length}\n")
    }
}

// A line for each item: this word and the item, with a space between them.
#[derive(Drop)]
struct Lines<'a, T>(&'a str, &'a [T]);

impl<T: fmt::Display> fmt::Display for Lines<'_, T> {
    ghost output = { λ l. lines_of T.output l.0.now l.1.now };

    fn fmt<W: fmt::Write>(&self, f: &mut fmt::Formatter<W>) -> fmt::Result {
        let Lines(word, items) = self;
        for item in *items {
            write!(f, "{word} {item}\n")?;
        }
        Ok(())
    }
}
