// Changes made to the rows of a trie.
ghost use Rattle.std.specs.Prelude.{◌≡◌, ◌-◌, ◌<◌, ◌≤◌, true, not, ◌&&◌, [], ◌∷◌, length, take, drop};
ghost use Rattle.keys.specs.Listed.{numbers};
ghost use Rattle.keys.specs.Numbers.{none};
ghost use Rattle.tries.specs.Rows.{paths, shaped};
ghost use Rattle.tries.specs.Changes.{released, sprouts, Standing, Settled};

use crate::asking::{follow, measure};
use crate::row::Row;
use crate::word::Word;
use keys::key::{Key, MAX_NUMBERS};

// Lets go the keys that contain all of this one, and answers how many are left. No row is moved.
pub(crate) fn release(rows: &mut [Row], key: Key) -> usize
    requires { shaped 0 rows.old ≡ true }
    ensures rows { rows.new ≡ released (numbers key) [] rows.old }
    ensures count { result ≡ length (paths [] (released (numbers key) [] rows.old)) }
{
    // Stays: one key for each depth of a way, in fixed memory; a list that grows would be made on the heap.
    let mut left = [key; MAX_NUMBERS];
    let mut count = 0;
    for row in rows.iter_mut() {
        let rest = follow(&mut left, key, *row);
        row.ends = keeps(*row, rest);
        if row.ends {
            count += 1;
        }
    }
    count
}

// Whether a key ends at the row, and on the way to it something is left.
fn keeps(row: Row, rest: Key) -> bool
    ensures { result ≡ (row.ends && not (none (numbers rest))) }
{
    row.ends && !rest.is_empty()
}

// Moves the rows from `from` to below `upto` up, to stand before those from `start` on, without the rows that bear
// nothing. The answer is where they begin then.
pub(crate) fn settle_rows(rows: &mut [Row], from: usize, upto: usize, start: usize) -> usize
    requires order { from ≤ upto }
    requires place { upto ≤ start }
    requires part { Standing start rows.old }
    ensures { Settled (upto - from) (take (upto - from) (drop from rows.old)) rows.old start rows.new result }
{
    let mut begin = start;
    for i in (from..upto).rev() {
        let row = rows[i];
        begin = settle(rows, begin, row);
    }
    begin
}

// Puts the rows that hold the numbers of the word from a depth on before those from `start` on. The answer is where they
// begin then.
// Stays: one function for this and settle_rows would take a closure from the rows and a place to a row, and be longer
// than the two loops.
pub(crate) fn settle_word(rows: &mut [Row], word: Word, depth: usize, start: usize) -> usize
    requires deep { depth ≤ length word.list.now }
    requires place { length word.list.now - depth ≤ start }
    requires part { Standing start rows.old }
    ensures { Settled (length word.entry.list.now - depth) (sprouts word.entry.list.now depth (length word.entry.list.now - depth)) rows.old start rows.new result }
{
    let mut begin = start;
    for i in (depth..word.list.len()).rev() {
        begin = settle(rows, begin, word.sprout(i));
    }
    begin
}

// Puts the row before those from `start` on, unless no key ends at it and none is beneath it. The answer is where they
// begin then.
fn settle(rows: &mut [Row], start: usize, row: Row) -> usize
    requires place { 0 < start }
    requires part { Standing start rows.old }
    ensures { Settled 1 (row ∷ []) rows.old start rows.new result }
{
    let below = measure(&rows[start..], row.depth);
    if !row.ends && below == 0 {
        return start;
    }
    rows[start - 1] = row.over(below);
    start - 1
}
