// Reading a pattern file: every question is asked on the lent bytes, before a table is written.
ghost use Rattle.std.specs.Prelude.{◌≡◌, ℕ, ◌+◌, ◌*◌, ◌<◌, ◌≤◌, true, cond, ◌&&◌, [], ◌++◌, length, drop, is_ok, Some, None, MatchResult, OnOk, nat_le};
ghost use Rattle.blocks.specs.Layout.{payload};
ghost use Rattle.blocks.specs.Reading.{rest};
ghost use Rattle.patterns.specs.Questions.{judged, roots_fault, rows_fault, known};
ghost use Rattle.files.specs.Heading.{heading_of, heading_in, length_of, tables_of};
ghost use Rattle.files.specs.Layout.{each, root_of, row_of, roots_in, table_in, decoded, fronted};
ghost use Rattle.files.specs.Questions.{file_fault, read_fault};
ghost use Rattle.files.specs.RoundTrips.{WritesBack};

use crate::entry::Entry;
use crate::fault::{RecordCause, RecordFault, TableCause, TableFault};
use crate::heading::{EDITION, HEADING_LEN, Heading, ROOT_LEN, ROW_LEN};
use blocks::check::check_file;
use blocks::reader::{Reader, payload_len};
use patterns::fault::Fault;
use patterns::questions::{MAX_ROWS, check_row, is_ended, is_sized};
use patterns::row::Row;

// The length of the longest pattern file: 13 blocks, since 64 states and 1,024 rows take 6,288 bytes of payload.
pub const MAX_FILE: usize = 6_656;

// Reads a pattern file into the caller's tables: its roots and its rows go to their fronts, and what lies behind stays.
// Every question is asked before a table is written, so a refusal leaves both as they were. The answer is the file's
// heading. A file that is read is the one that writing its pattern gives, byte by byte.
// Stays: with both lent slices in a struct, each contract would also have to say that they are still those slices.
pub fn read_pattern(file: &[u8], roots: &mut [u16], rows: &mut [Row]) -> Result<Heading, TableFault>
    ensures cases { MatchResult result
        (λ h. (read_fault file.now (length roots.old) (length rows.old) ≡ None)
        × (h ≡ heading_of (payload file.now)))
        (λ f. read_fault file.now (length roots.old) (length rows.old) ≡ Some f) }
    ensures again { OnOk result (WritesBack file.now) }
    ensures roots { roots.new ≡ cond (is_ok result)
        (fronted (decoded (payload file.now)).roots roots.old) roots.old }
    ensures rows { rows.new ≡ cond (is_ok result)
        (fronted (decoded (payload file.now)).rows rows.old) rows.old }
{
    let heading = check_pattern(file, roots.len(), rows.len())?;
    fill_tables(file, heading, roots, rows);
    Ok(heading)
}

// The heading of the file, if it holds a pattern and tables of so many roots and rows hold that.
fn check_pattern(file: &[u8], roots: usize, rows: usize) -> Result<Heading, TableFault>
    ensures { MatchResult result
        (λ h. (read_fault file.now roots rows ≡ None) × (h ≡ heading_of (payload file.now)))
        (λ f. read_fault file.now roots rows ≡ Some f) }
{
    let heading = check_record(file)?;
    check_tables(file, heading)?;
    if !has_room(heading, roots, rows) {
        return Err(TableFault::Table(TableCause::Room));
    }
    Ok(heading)
}

// Whether tables of so many roots and rows hold what the heading announces.
fn has_room(heading: Heading, roots: usize, rows: usize) -> bool
    ensures { result ≡ (nat_le heading.states roots && nat_le heading.rows rows) }
{
    heading.states as usize <= roots && heading.rows as usize <= rows
}

// The heading of the file, if its blocks and its record are right.
fn check_record(file: &[u8]) -> Result<Heading, RecordFault>
    ensures { MatchResult result
        (λ h. (file_fault file.now ≡ None) × (h ≡ heading_of (payload file.now))
        × (length (payload file.now) ≡ length_of h))
        (λ f. file_fault file.now ≡ Some f) }
{
    check_file(file, MAX_FILE)?;
    let Some(heading) = read_heading(file) else {
        return Err(RecordFault::Record(RecordCause::Heading));
    };
    if payload_len(file)
        != HEADING_LEN + ROOT_LEN * heading.states as usize + ROW_LEN * heading.rows as usize
    {
        return Err(RecordFault::Record(RecordCause::Length));
    }
    Ok(heading)
}

// Writes the tables behind the heading into the fronts of the caller's.
fn fill_tables(file: &[u8], heading: Heading, roots: &mut [u16], rows: &mut [Row])
    requires long { length (payload file.now) ≡ length_of heading }
    requires room { (heading.states ≤ length roots.old) × (heading.rows ≤ length rows.old) }
    requires known { (i : ℕ) → i < heading.rows
        → known (row_of (drop (6 * i) (drop (16 + 2 * heading.states) (payload file.now)))) ≡ true }
    ensures roots { roots.new ≡ roots_in heading.states (payload file.now) ++ drop heading.states roots.old }
    ensures rows { rows.new
        ≡ table_in heading.states heading.rows (payload file.now) ++ drop heading.rows rows.old }
{
    let mut reader = tables_reader(file);
    fill(&mut reader, &mut roots[..heading.states as usize]);
    fill(&mut reader, &mut rows[..heading.rows as usize]);
}

// The heading of a checked file's payload, unless the payload is too short for one, of another edition or has something
// in the heading's zero bytes.
fn read_heading(file: &[u8]) -> Option<Heading>
    ensures { result ≡ heading_in (payload file.now) }
{
    let mut reader = Reader::new(file);
    let edition = reader.next()?;
    let states = reader.next()?;
    let signals = reader.next()?;
    let start = reader.next()?;
    let rows = reader.next_u16()?;
    let finals = reader.next_u64()?;
    let zeros = reader.next_u16()?;
    if edition != EDITION || zeros != 0 {
        return None;
    }
    Some(Heading {
        states,
        signals,
        start,
        rows,
        finals,
    })
}

// Whether the tables behind the heading are a pattern.
fn check_tables(file: &[u8], heading: Heading) -> Result<(), Fault>
    requires { length (payload file.now) ≡ length_of heading }
    ensures { MatchResult result
        (λ _. judged (tables_of heading (payload file.now)) ≡ None)
        (λ f. judged (tables_of heading (payload file.now)) ≡ Some f) }
{
    let states = heading.states as usize;
    let rows = heading.rows as usize;
    if !is_sized(states, heading.signals, rows) {
        return Err(Fault::Sizes);
    }
    if !is_ended(states, heading.start, heading.finals) {
        return Err(Fault::Ends);
    }
    let mut reader = tables_reader(file);
    check_roots(&mut reader, states, rows)?;
    check_rows(&mut reader, rows, states, heading.signals)?;
    Ok(())
}

// A reader with all of the payload but its heading to come.
fn tables_reader(file: &[u8]) -> Reader
    ensures { rest result ≡ drop 16 (payload file.now) }
{
    let mut reader = Reader::new(file);
    let _ = reader.next_u64();
    let _ = reader.next_u64();
    reader
}

// Whether each of the next `states` roots is one of the rows, of which there are `count`. They are passed over.
fn check_roots(reader: &mut Reader, states: usize, count: usize) -> Result<(), Fault>
    requires { 2 * states ≤ length (rest reader.old) }
    ensures { MatchResult result
        (λ _. (roots_fault count 0 (each 2 root_of states (rest reader.old)) ≡ None)
        × (rest reader.new ≡ drop (2 * states) (rest reader.old)))
        (λ f. roots_fault count 0 (each 2 root_of states (rest reader.old)) ≡ Some f) }
{
    // Stays: the roots come out of the reader one by one, and a chain would have to change what it captures.
    for q in 0..states {
        let root = next_word(reader);
        if root as usize >= count {
            return Err(Fault::Root(q));
        }
    }
    Ok(())
}

// Whether the next `count` rows are rows that a pattern of so many states and signals may have.
fn check_rows(reader: &mut Reader, count: usize, states: usize, signals: u8) -> Result<(), Fault>
    requires few { count ≤ 1024 }
    requires long { 6 * count ≤ length (rest reader.old) }
    ensures { MatchResult result
        (λ _. rows_fault states signals [] (each 6 row_of count (rest reader.old)) ≡ None)
        (λ f. rows_fault states signals [] (each 6 row_of count (rest reader.old)) ≡ Some f) }
{
    // Stays: the library has no heap, and row i is asked with the answers of the rows before it, which stand in the
    // same array that its own goes to.
    let mut frees = [false; MAX_ROWS];
    for i in 0..count {
        let Some(row) = Row::next(reader) else {
            return Err(Fault::Operation(i));
        };
        let free = check_row(row, states, signals, &frees[..i])?;
        frees[i] = free;
    }
    Ok(())
}

// Writes the next entries into the table.
fn fill<T: Entry<N>, const N: usize>(reader: &mut Reader, table: &mut [T])
    requires long { N * length table.old ≤ length (rest reader.old) }
    requires stand { (i : ℕ) → i < length table.old → T.stands (drop (N * i) (rest reader.old)) ≡ true }
    ensures items { table.new ≡ each N T.front (length table.old) (rest reader.old) }
    ensures after { rest reader.new ≡ drop (N * length table.old) (rest reader.old) }
{
    for slot in table.iter_mut() {
        if let Some(entry) = T::next(reader) {
            *slot = entry;
        }
    }
}

// The number in the next two bytes.
fn next_word(reader: &mut Reader) -> u16
    requires { 2 ≤ length (rest reader.old) }
    ensures value { result ≡ root_of (rest reader.old) }
    ensures after { rest reader.new ≡ drop 2 (rest reader.old) }
{
    reader.next_u16().unwrap()
}
