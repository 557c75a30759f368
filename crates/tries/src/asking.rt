// Questions asked of the rows of a trie.
ghost use Rattle.std.specs.Prelude.{◌≡◌, ◌<◌, true, [], slice_set};
ghost use Rattle.keys.specs.Listed.{numbers};
ghost use Rattle.keys.specs.Numbers.{without};
ghost use Rattle.tries.specs.Rows.{paths, run, linked, reached, matched};
ghost use Rattle.tries.specs.Forests.{in_use};
ghost use Rattle.tries.specs.Changes.{Spotted};
ghost use Rattle.tries.specs.Trails.{before};

use crate::forest::Forest;
use crate::row::Row;
use crate::word::Word;
use keys::key::{Key, MAX_NUMBERS};

// A place among the rows, and how many numbers are shared with the rows before it.
#[derive(Clone, Copy)]
pub(crate) struct Spot {
    pub at: usize,
    pub depth: usize,
}

impl Forest {
    // The rows in use.
    fn in_use(&self) -> &[Row]
        ensures { result.now ≡ in_use self.now }
    {
        &self.rows[..self.used]
    }

    // Whether some key in the rows has no number that this one has not. The way down takes only numbers that the key
    // has.
    pub(crate) fn reaches(&self, key: &Key) -> bool
        ensures { result ≡ reached (numbers key.now) (paths [] (in_use self.now)) }
    {
        let mut ahead = self.in_use();
        while let Some((next, rest)) = ahead.split_first() {
            if next.leads_away(key) {
                ahead = next.past(rest);
            } else if next.ends {
                return true;
            } else {
                ahead = rest;
            }
        }
        false
    }

    // Whether some key in the rows has just the numbers of this one.
    pub(crate) fn matches(&self, key: Key) -> bool
        ensures { result ≡ matched (numbers key) (paths [] (in_use self.now)) }
    {
        // Stays: one key for each depth of a way, in fixed memory; a list that grows would be made on the heap.
        let mut left = [key; MAX_NUMBERS];
        let mut ahead = self.in_use();
        while let Some((row, rest)) = ahead.split_first() {
            if row.leads_away(&key) {
                ahead = row.past(rest);
            } else if follow(&mut left, key, *row).is_empty() && row.ends {
                return true;
            } else {
                ahead = rest;
            }
        }
        false
    }

    // Where the rest of the word goes: behind all that is beneath the last row that it shares. Its last number is not
    // shared.
    pub(crate) fn place(&self, word: Word) -> Spot
        ensures { Spotted word.entry.list.now (in_use self.now) result.at result.depth }
    {
        let rows = self.in_use();
        let mut depth = 0;
        let mut ahead = rows;
        while let Some((row, rest)) = ahead.split_first() {
            if (row.depth as usize) < depth {
                break;
            }
            if word.shares(*row, depth) {
                depth += 1;
                ahead = rest;
            } else {
                ahead = row.past(rest);
            }
        }
        Spot {
            at: rows.len() - ahead.len(),
            depth,
        }
    }
}

// What is left of the key once the numbers on the way to the row are taken away. `left` has this for each depth on the
// way to the row before.
pub(crate) fn follow(left: &mut [Key; MAX_NUMBERS], key: Key, row: Row) -> Key
    requires { row.depth < 65 }
    ensures value { numbers result ≡ without row.number (numbers (before key left.old row.depth)) }
    ensures left { left.new ≡ slice_set left.old row.depth result }
{
    let depth = row.depth as usize;
    let above = if depth == 0 { key } else { left[depth - 1] };
    let rest = above.without(row.number);
    left[depth] = rest;
    rest
}

// How many rows, from the front on, lie deeper.
pub(crate) fn measure(rows: &[Row], depth: u8) -> usize
    requires { linked rows.now ≡ true }
    ensures { result ≡ run depth rows.now }
{
    let mut ahead = rows;
    while let Some((row, rest)) = ahead.split_first() {
        if row.depth <= depth {
            break;
        }
        ahead = row.past(rest);
    }
    rows.len() - ahead.len()
}
