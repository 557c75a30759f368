// A key that is put in, with its numbers.
ghost use Rattle.std.specs.Prelude.{◌≡◌, ◌+◌, ◌<◌, ◌≤◌, cond, None, Some, length, Decides, slice_index};
ghost use Rattle.std.specs.Option.{option_map};
ghost use Rattle.keys.specs.Listed.{numbers};
ghost use Rattle.keys.specs.Numbers.{none};
ghost use Rattle.tries.specs.Changes.{sprout};

use crate::row::Row;
use keys::key::{Key, MAX_NUMBERS};

// A key with the list of its numbers, of which there is at least one: the key with none takes no row.
#[derive(Clone, Copy)]
pub(crate) struct Word<'a> {
    pub(crate) key: Key,
    pub(crate) list: &'a [u16],
    ghost is: { list.now ≡ numbers key },
    ghost some: { 0 < length list.now },
    ghost short: { length list.now ≤ 65 },
}

impl<'a> Word<'a> {
    // The word of the key, if it has a number. The numbers are written to `out`.
    pub(crate) fn of(key: Key, out: &'a mut [u16; MAX_NUMBERS]) -> Option<Word<'a>>
        ensures { option_map (λ w. w.key) result ≡ cond (none (numbers key)) None (Some key) }
    {
        if key.is_empty() {
            return None;
        }
        let list = key.list(out);
        Some(Word { key, list })
    }

    // Whether the row holds the number at the depth, and that is not the last.
    pub(crate) fn shares(self, row: Row, depth: usize) -> bool
        ensures { Decides result ((row.depth ≡ depth) × (depth + 1 < length self.entry.list.now) × (row.number ≡ slice_index self.entry.list.now depth)) }
    {
        row.depth as usize == depth && depth < self.list.len() - 1 && row.number == self.list[depth]
    }

    // The row that holds the number at the depth.
    pub(crate) fn sprout(self, depth: usize) -> Row
        requires { depth < length self.list.now }
        ensures { result ≡ sprout self.entry.list.now depth }
    {
        Row {
            number: self.list[depth],
            depth: depth as u8,
            ends: depth + 1 == self.list.len(),
            skip: 1,
        }
    }
}
