// Writing a pattern's file: its tables laid out as a payload, and that laid into blocks.
ghost use Rattle.std.specs.Prelude.{◌≡◌, ◌+◌, ◌*◌, ◌≤◌, cond, ◌++◌, length, take, drop, is_ok, IfOk, Some, None, Ok, Err, MatchResult, nat_le};
ghost use Rattle.std.specs.List.{flat_map};
ghost use Rattle.patterns.specs.Automaton.{read};
ghost use Rattle.patterns.specs.View.{automaton};
ghost use Rattle.files.specs.declared.fault.RecordCause.TheVariants as record-cause;
ghost use Rattle.files.specs.declared.fault.RecordFault.TheVariants as record-fault;
ghost use Rattle.files.specs.declared.fault.TableFault.TheVariants as table-fault;
ghost use Rattle.files.specs.Laying.{laid};
ghost use Rattle.files.specs.Layout.{encoded, file_of, heading_bytes};
ghost use Rattle.files.specs.Questions.{write_fault};
ghost use Rattle.files.specs.RoundTrips.{ReadsBack};

use crate::entry::Entry;
use crate::fault::{RecordCause, RecordFault, TableFault};
use crate::heading::{EDITION, HEADING_LEN, ROOT_LEN, ROW_LEN};
use blocks::writer::write_file;
use patterns::parts::Parts;
use patterns::pattern::Pattern;
use patterns::questions::MAX_ROWS;
use patterns::row::Row;
use sets::MAX_STATES;

// The payload of the largest pattern: the heading, 64 roots and 1,024 rows.
const MAX_PAYLOAD: usize = HEADING_LEN + ROOT_LEN * MAX_STATES + ROW_LEN * MAX_ROWS;

// Writes the pattern's file to the front of the buffer, and says how many bytes it has.
// Reading these gives the same pattern; what is behind stays, and a refusal changes nothing.
pub fn write_pattern(parts: Parts, buffer: &mut [u8]) -> Result<usize, TableFault>
    ensures cases { MatchResult result
        (λ n. (write_fault (read parts.entry) (length buffer.old) ≡ None) × (n ≡ length (file_of (read parts.entry))))
        (λ f. write_fault (read parts.entry) (length buffer.old) ≡ Some f) }
    ensures after { buffer.new ≡ cond (is_ok result)
        (file_of (read parts.entry) ++ drop (length (file_of (read parts.entry))) buffer.old)
        buffer.old }
    ensures again { IfOk result (λ n. ReadsBack (take n buffer.new) (read parts.entry)) }
{
    let pattern = parts.checked()?.seal();
    write_formed(&pattern, buffer)
}

// Writes the file of a pattern, unless the buffer is shorter: a pattern's payload always has a file.
fn write_formed(pattern: &Pattern, buffer: &mut [u8]) -> Result<usize, TableFault>
    ensures value { result ≡ cond (nat_le (length (file_of (automaton pattern.now))) (length buffer.old))
        (Ok (length (file_of (automaton pattern.now))))
        (Err (table-fault.Record (record-fault.Record record-cause.Buffer))) }
    ensures after { buffer.new ≡ cond (is_ok result)
        (file_of (automaton pattern.now) ++ drop (length (file_of (automaton pattern.now))) buffer.old)
        buffer.old }
    ensures again { IfOk result (λ n. ReadsBack (take n buffer.new) (automaton pattern.now)) }
{
    // Stays: the library has no heap, so the payload stands in a fixed array with its length beside it.
    let mut payload = [0; MAX_PAYLOAD];
    let len = lay_out(pattern, &mut payload);
    match write_file(&payload[..len], buffer) {
        Ok(file_len) => Ok(file_len),
        Err(_) => Err(TableFault::Record(RecordFault::Record(RecordCause::Buffer))),
    }
}

// Lays the pattern's payload out at the front of `payload`, and says how many bytes it has.
fn lay_out(pattern: &Pattern, payload: &mut [u8]) -> usize
    requires { 6288 ≤ length payload.old }
    ensures value { result ≡ length (encoded (automaton pattern.now)) }
    ensures after { payload.new ≡ laid 0 (encoded (automaton pattern.now)) payload.old }
{
    let parts = pattern.parts();
    let rows_place = find_rows(parts.roots.len());
    lay_heading(pattern, payload);
    lay(parts.roots, payload, HEADING_LEN);
    lay(parts.rows, payload, rows_place);
    rows_place + ROW_LEN * parts.rows.len()
}

// Where the rows begin in the payload of a pattern with so many states.
fn find_rows(states: usize) -> usize
    requires { states ≤ 64 }
    ensures { result ≡ 16 + 2 * states }
{
    HEADING_LEN + ROOT_LEN * states
}

// The heading: edition, states, signals, start; from place 4 on the rows, from 6 on the final set, from 14 on two zeros.
fn lay_heading(pattern: &Pattern, payload: &mut [u8])
    requires { 16 ≤ length payload.old }
    ensures { payload.new ≡ laid 0 (heading_bytes (automaton pattern.now)) payload.old }
{
    let parts = pattern.parts();
    let states = parts.roots.len() as u8;
    let rows = parts.rows.len() as u16;
    payload[..4].copy_from_slice(&[EDITION, states, parts.signals, parts.start]);
    payload[4..6].copy_from_slice(&rows.to_le_bytes());
    payload[6..14].copy_from_slice(&parts.finals.to_le_bytes());
    payload[14..16].copy_from_slice(&[0, 0]);
}

// The entries one after the other, from place `at` on.
fn lay<T: Entry<N>, const N: usize>(entries: &[T], payload: &mut [u8], at: usize)
    requires { at + N * length entries.now ≤ length payload.old }
    ensures { payload.new ≡ laid at (flat_map T.bytes entries.now) payload.old }
{
    for (i, entry) in entries.iter().enumerate() {
        let place = at + N * i;
        payload[place..place + N].copy_from_slice(&entry.to_bytes());
    }
}
