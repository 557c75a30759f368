// A row over the rows before it.
ghost use Rattle.std.specs.Prelude.{◌≡◌, true, length};
ghost use Rattle.patterns.specs.Operations.{code};
ghost use Rattle.patterns.specs.Questions.{free, known, negatable, ordered};
ghost use Rattle.patterns.specs.Values.{row_value_of};

use crate::row::{Operation, Row};
use sets::{Event, States, holds};

// A row that is known, with one bit for each row before it. The operands of the row that are rows are among these.
#[derive(Clone, Copy)]
pub(crate) struct Over<'a> {
    pub(crate) row: Row,
    pub(crate) before: &'a [bool],
    ghost is_known: { known row ≡ true },
    ghost is_ordered: { ordered (length before.now) row ≡ true },
}

impl Over<'_> {
    // Whether a NOT stands over a row that is free of states, where the bits say which rows are. Other rows may stand
    // over any row.
    pub(crate) fn is_negatable(self) -> bool
        ensures { result ≡ negatable self.entry.before.now self.entry.row }
    {
        self.operation() != Operation::Not || self.before[self.row.left as usize]
    }

    // Whether no state stands at the row or below it, where the bits say the same of the rows before it.
    pub(crate) fn is_free(self) -> bool
        ensures { result ≡ free self.entry.before.now self.entry.row }
    {
        let Over { row, before } = self;
        let (left, right) = (row.left as usize, row.right as usize);
        match self.operation() {
            Operation::State => false,
            Operation::False | Operation::True | Operation::Signal => true,
            Operation::And | Operation::Or => before[left] && before[right],
            Operation::Not => before[left],
        }
    }

    // The value of the row under the event and the set, where the bits are the values of the rows before it.
    pub(crate) fn value(self, event: Event, states: States) -> bool
        ensures { result ≡ row_value_of event states self.entry.before.now self.entry.row }
    {
        let Over { row, before } = self;
        let (left, right) = (row.left as usize, row.right as usize);
        match self.operation() {
            Operation::False => false,
            Operation::True => true,
            Operation::State => holds(states, left),
            Operation::Signal => holds(event as States, left),
            Operation::And => before[left] && before[right],
            Operation::Or => before[left] || before[right],
            Operation::Not => !before[left],
        }
    }

    // The operation, which one of the seven numbers stands for. NOT is what the other six leave: so a branch tells it
    // apart, and they go by a table of jumps. With all seven in the table, more jumps are guessed wrong, and some programs
    // take up to two fifths more time.
    fn operation(self) -> Operation
        ensures { code result ≡ self.entry.row.operation }
    {
        match self.row.operation {
            0 => Operation::False,
            1 => Operation::True,
            2 => Operation::State,
            3 => Operation::Signal,
            4 => Operation::And,
            5 => Operation::Or,
            _ => Operation::Not,
        }
    }
}
