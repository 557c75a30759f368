// The questions asked of a pattern's tables, one by one.
ghost use Rattle.std.specs.Prelude.{◌≡◌, ◌≤◌, [], length, position, nat_le, Some, None, MatchResult};
ghost use Rattle.patterns.specs.Questions.{sized, ended, row_fault, rows_fault, roots_fault, free, known, placed};

use crate::fault::Fault;
use crate::over::Over;
use crate::row::{Operation, Row, UnknownOperation};
use sets::{MAX_STATES, States, is_below};

// A pattern has at most this many rows.
pub const MAX_ROWS: usize = 1024;
// A pattern has at most this many signals.
pub const MAX_SIGNALS: u8 = 16;

// Whether there are 1 to 64 states, at most 16 signals and 1 to 1,024 rows.
pub fn is_sized(states: usize, signals: u8, rows: usize) -> bool
    ensures { result ≡ sized states signals rows }
{
    0 < states && states <= MAX_STATES && signals <= MAX_SIGNALS && 0 < rows && rows <= MAX_ROWS
}

// Whether the start state and each final state is one of the states.
pub fn is_ended(states: usize, start: u8, finals: States) -> bool
    ensures { result ≡ ended states start finals }
{
    (start as usize) < states && is_below(finals, states)
}

// Whether each root is one of the rows, of which there are `count`.
#[tactic(auto, using(crate::proofs::Asking::roots_at))]
pub(crate) fn check_roots(roots: &[u16], count: usize) -> Result<(), Fault>
    ensures { MatchResult result
        (λ _. roots_fault count 0 roots.now ≡ None)
        (λ f. roots_fault count 0 roots.now ≡ Some f) }
{
    match rootless(roots, count) {
        Some(state) => Err(Fault::Root(state)),
        None => Ok(()),
    }
}

// The first state whose root is none of the rows.
fn rootless(roots: &[u16], count: usize) -> Option<usize>
    ensures { result ≡ position (nat_le count) roots.now }
{
    roots.iter().position(|root| count <= *root as usize)
}

// Whether each row is one that a pattern may have, of so many states and signals.
// Stays: the library has no heap, so the bits of the rows so far are the front of a table as long as a pattern's.
// Stays: `states` and `signals` go on to the public `check_row`, which takes them apart, so no struct holds both.
pub(crate) fn check_rows(rows: &[Row], states: usize, signals: u8) -> Result<(), Fault>
    requires { length rows.now ≤ 1024 }
    ensures { MatchResult result
        (λ _. rows_fault states signals [] rows.now ≡ None)
        (λ f. rows_fault states signals [] rows.now ≡ Some f) }
{
    let mut frees = [false; MAX_ROWS];
    for (i, row) in rows.iter().enumerate() {
        let free = check_row(*row, states, signals, &frees[..i])?;
        frees[i] = free;
    }
    Ok(())
}

// Whether the row is free of states, given which rows before it are; or what is wrong with it. The row's number is how
// many come before it.
pub fn check_row(row: Row, states: usize, signals: u8, before: &[bool]) -> Result<bool, Fault>
    ensures { MatchResult result
        (λ b. (row_fault states signals before.now row ≡ None) × (b ≡ free before.now row))
        (λ f. row_fault states signals before.now row ≡ Some f) }
{
    let i = before.len();
    if !is_known(row) {
        return Err(Fault::Operation(i));
    }
    if !is_placed(row, states, signals, i) {
        return Err(Fault::Operand(i));
    }
    let row = Over { row, before };
    if !row.is_negatable() {
        return Err(Fault::Negation(i));
    }
    Ok(row.is_free())
}

// Whether the operation is one of the seven, and the operands that it does not use are 0.
fn is_known(row: Row) -> bool
    ensures { result ≡ known row }
{
    match Operation::try_from(row.operation) {
        Ok(Operation::False | Operation::True) => row.left == 0 && row.right == 0,
        Ok(Operation::State | Operation::Signal | Operation::Not) => row.right == 0,
        Ok(Operation::And | Operation::Or) => true,
        Err(UnknownOperation(_)) => false,
    }
}

// Whether row i names a state, a signal, rows before its own. A row of an unknown operation is taken for a pair.
fn is_placed(row: Row, states: usize, signals: u8, i: usize) -> bool
    ensures { result ≡ placed states signals i row }
{
    let (left, right) = (row.left as usize, row.right as usize);
    match Operation::try_from(row.operation) {
        Ok(Operation::False | Operation::True) => true,
        Ok(Operation::State) => left < states,
        Ok(Operation::Signal) => left < signals as usize,
        Ok(Operation::Not) => left < i,
        Ok(Operation::And | Operation::Or) | Err(UnknownOperation(_)) => left < i && right < i,
    }
}
