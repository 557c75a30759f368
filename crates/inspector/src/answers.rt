// What the inspector answers, and why it may refuse.
ghost use Rattle.std.specs.Prelude.{◌≡◌};
ghost use Rattle.inspector.specs.Refusals.{number_and_place};

use kinds::Move;

// What an inspection found.
// Stays: an Option of a flaw would nest in the Result of `inspect`, where a list that passes would be `Ok(None)`.
#[derive(Clone, Copy, PartialEq, Eq, Debug)]
pub enum Inspection {
    // PASS: the list is a certificate, so no list of moves is accepted.
    Passed,
    // FIRST: the first configuration with this number is not covered, and all before it are.
    First(usize),
    // GOAL: this entry of the list is a goal, and none before it is.
    Goal(usize),
    // BACK: from this entry this move leads back to what is not covered; no smaller move of the entry does, and no
    // move of an earlier entry.
    Back(usize, Move),
}

// Why a list was not inspected.
#[derive(Clone, Copy, PartialEq, Eq, Debug)]
pub enum Refused {
    // The list has more than MAX_ENTRIES entries.
    TooLong,
    // This entry does not fit the kind, and all before it do.
    Unfit(usize),
}

impl Refused {
    // The number of the question that was answered no.
    pub fn number(&self) -> u8
        ensures { result ≡ (number_and_place self.now).0 }
    {
        match *self {
            Refused::TooLong => 18,
            Refused::Unfit(_) => 19,
        }
    }

    // The place that the question was about, 0 where it has none.
    pub fn place(&self) -> usize
        ensures { result ≡ (number_and_place self.now).1 }
    {
        match *self {
            Refused::TooLong => 0,
            Refused::Unfit(entry) => entry,
        }
    }
}
