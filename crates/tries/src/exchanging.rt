// An insertion into the rows of a trie.
ghost use Rattle.std.specs.Prelude.{◌≡◌, ◌+◌, ◌-◌, ◌≤◌, true, [], length, take, drop};
ghost use Rattle.stores.specs.Holding.{Reordered};
ghost use Rattle.keys.specs.Listed.{numbers};
ghost use Rattle.keys.specs.Numbers.{none};
ghost use Rattle.tries.specs.Rows.{paths, shaped, bearing};
ghost use Rattle.tries.specs.Forests.{in_use};
ghost use Rattle.tries.specs.Words.{words};
ghost use Rattle.tries.specs.Changes.{released, put, Spotted, PutIn};

use crate::asking::Spot;
use crate::changing::{release, settle_rows, settle_word};
use crate::forest::Forest;
use crate::row::Row;
use crate::word::Word;
use keys::key::{Key, MAX_NUMBERS};

impl Forest {
    // Drops the keys that contain all of this one, and puts it in: at the root where it has no number, and otherwise in
    // the rows. The answer is how many keys are held then.
    pub(crate) fn change(&mut self, key: Key) -> usize
        requires { self.old.used + 65 ≤ length self.old.rows.items }
        ensures items { Reordered (put (numbers key) (paths [] (in_use self.old))) (words (none (numbers key)) (in_use self.new)) }
        ensures size { result ≡ length (words (none (numbers key)) (in_use self.new)) }
        ensures bearing { bearing (in_use self.new) ≡ true }
        ensures room { length self.new.rows.items ≡ length self.old.rows.items }
    {
        let mut numbers = [0; MAX_NUMBERS];
        if let Some(word) = Word::of(key, &mut numbers) {
            self.exchange(word)
        } else {
            self.used = 0;
            1
        }
    }

    // Drops the keys in the rows that contain all of the word, and puts it in. Rows that bear nothing any more are free
    // again. The answer is how many keys the rows hold then.
    fn exchange(&mut self, word: Word) -> usize
        requires { self.old.used + 65 ≤ length self.old.rows.items }
        ensures items { Reordered (put word.entry.list.now (paths [] (in_use self.old))) (paths [] (in_use self.new)) }
        ensures size { result ≡ length (paths [] (in_use self.new)) }
        ensures bearing { bearing (in_use self.new) ≡ true }
        ensures room { length self.new.rows.items ≡ length self.old.rows.items }
    {
        let left = self.let_go(word.key);
        self.put_in(word);
        left + 1
    }

    // Lets go the keys that contain all of this one, and answers how many are left.
    fn let_go(&mut self, key: Key) -> usize
        ensures rows { in_use self.new ≡ released (numbers key) [] (in_use self.old) }
        ensures count { result ≡ length (paths [] (released (numbers key) [] (in_use self.old))) }
        ensures room { length self.new.rows.items ≡ length self.old.rows.items }
        ensures used { self.new.used ≡ self.old.used }
    {
        release_used(&mut self.rows, self.used, key)
    }

    // Puts the rows of the word in.
    fn put_in(&mut self, word: Word)
        requires { self.old.used + 65 ≤ length self.old.rows.items }
        ensures items { PutIn word.entry.list.now (in_use self.old) (in_use self.new) }
        ensures room { length self.new.rows.items ≡ length self.old.rows.items }
    {
        let spot = self.place(word);
        self.used = grow(&mut self.rows, self.used, word, spot);
    }
}

// Lets go the keys in the rows in use that contain all of this one, and answers how many are left.
fn release_used(rows: &mut [Row], used: usize, key: Key) -> usize
    requires within { used ≤ length rows.old }
    requires shaped { shaped 0 (take used rows.old) ≡ true }
    ensures rows { take used rows.new ≡ released (numbers key) [] (take used rows.old) }
    ensures count { result ≡ length (paths [] (released (numbers key) [] (take used rows.old))) }
{
    release(&mut rows[..used], key)
}

// Puts the rows of the word in at their place, and answers how many rows are in use then.
fn grow(rows: &mut [Row], used: usize, word: Word, spot: Spot) -> usize
    requires room { used + 65 ≤ length rows.old }
    requires spotted { Spotted word.list.now (take used rows.old) spot.at spot.depth }
    ensures within { result ≤ length rows.old }
    ensures items { PutIn word.entry.list.now (take used rows.old) (take result rows.new) }
{
    let end = rows.len();
    let behind = settle_rows(rows, spot.at, used, end);
    let middle = settle_word(rows, word, spot.depth, behind);
    let start = settle_rows(rows, 0, spot.at, middle);
    move_down(rows, start);
    end - start
}

// Moves the rows from `start` on to the front.
fn move_down(rows: &mut [Row], start: usize)
    requires { start ≤ length rows.old }
    ensures { take (length rows.old - start) rows.new ≡ drop start rows.old }
{
    let end = rows.len();
    rows.copy_within(start..end, 0);
}
