// The dual of a pattern's rows, each row giving two: its copy if it is free of states, and its dual.
ghost use Rattle.std.specs.Prelude.{◌≡◌, ◌*◌, ◌<◌, ◌≤◌, [], length};
ghost use Rattle.patterns.specs.Automaton.{read};
ghost use Rattle.patterns.specs.Formed.{Formed};
ghost use Rattle.files.specs.Layout.{fronted};
ghost use Rattle.duals.specs.Dual.{copy_at, dual_at, row_copy, row_dual, dual_rows};

use patterns::parts::Parts;
use patterns::questions::{MAX_ROWS, check_row};
use patterns::row::{Operation, Row};

// Where a pattern's rows are dualised to: their pairs stand from row `base` of a table on, and its states follow
// `states` others.
#[derive(Clone, Copy)]
pub(crate) struct Shift {
    pub base: usize,
    pub states: usize,
    ghost few_rows: { base ≤ 1024 },
    ghost few_states: { states ≤ 64 },
}

impl Shift {
    // Writes the pairs of the earlier pattern's rows into the front of `rows`, the part of a table from row `base` on.
    pub(crate) fn dualise(self, rows: &mut [Row], earlier: Parts)
        requires formed { Formed (read earlier) }
        requires room { 2 * length (read earlier).rows ≤ length rows.old }
        ensures { rows.new ≡ fronted (dual_rows self.base self.states [] (read earlier.entry).rows) rows.old }
    {
        let mut frees = [false; MAX_ROWS];
        for (i, row) in earlier.rows.iter().enumerate() {
            let free = check_row(*row, earlier.roots.len(), earlier.signals, &frees[..i]).unwrap();
            rows[2 * i] = self.copy_of(*row, free);
            rows[2 * i + 1] = self.dual_of(*row, free, i);
            frees[i] = free;
        }
    }

    // The first row that a row gives: the same over the copies of its operands, or constant 0 if it depends on a state.
    fn copy_of(self, row: Row, free: bool) -> Row
        requires { (row.left < 1024) × (row.right < 1024) }
        ensures { result ≡ row_copy self.base free row }
    {
        if !free {
            return Row::default();
        }
        match Operation::try_from(row.operation) {
            Ok(Operation::False | Operation::True | Operation::State | Operation::Signal) => row,
            Ok(Operation::Not) => Row {
                operation: row.operation,
                left: self.copy_place(row.left),
                right: 0,
            },
            _ => Row {
                operation: row.operation,
                left: self.copy_place(row.left),
                right: self.copy_place(row.right),
            },
        }
    }

    // The second row that row `place` gives: NOT of its copy, or if it depends on a state, the state raised by `states`,
    // or AND for OR and OR for AND over the duals of its operands.
    fn dual_of(self, row: Row, free: bool, place: usize) -> Row
        requires { (row.left < 1024) × (row.right < 1024) × (place < 1024) }
        ensures { result ≡ row_dual self.base self.states place free row }
    {
        if free {
            return Row {
                operation: Operation::Not as u8,
                left: self.copy_place(place as u16),
                right: 0,
            };
        }
        match Operation::try_from(row.operation) {
            Ok(Operation::State) => Row {
                operation: row.operation,
                left: self.states as u16 + row.left,
                right: 0,
            },
            Ok(Operation::And) => Row {
                operation: Operation::Or as u8,
                left: self.dual_place(row.left),
                right: self.dual_place(row.right),
            },
            _ => Row {
                operation: Operation::And as u8,
                left: self.dual_place(row.left),
                right: self.dual_place(row.right),
            },
        }
    }

    // Where the copy of a row stands.
    fn copy_place(self, place: u16) -> u16
        requires { place < 1024 }
        ensures { result ≡ copy_at self.base place }
    {
        self.base as u16 + 2 * place
    }

    // Where the dual of a row stands.
    pub(crate) fn dual_place(self, place: u16) -> u16
        requires { place < 1024 }
        ensures { result ≡ dual_at self.base place }
    {
        self.copy_place(place) + 1
    }
}
