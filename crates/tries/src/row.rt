// A row of a trie.
ghost use Rattle.std.specs.Prelude.{◌≡◌, suc, ◌+◌, ◌^◌, ◌<◌, not, drop};
ghost use Rattle.keys.specs.Listed.{numbers};
ghost use Rattle.keys.specs.Numbers.{among};
ghost use Rattle.tries.specs.Rows.{run};

use keys::key::Key;

// One number of the keys that go through the row. The rows of a trie stand in preorder: behind each row stand the rows
// beneath it.
#[derive(Clone, Copy)]
pub struct Row {
    pub number: u16,
    // How many numbers come before it on the way.
    pub depth: u8,
    // Whether a key ends with this number.
    pub ends: bool,
    // How many rows the row and those beneath it are.
    pub skip: usize,
}

impl Row {
    // The rows behind those beneath the row, where `rest` is all that stands behind it.
    pub(crate) fn past<'a>(&self, rest: &'a [Row]) -> &'a [Row]
        requires { self.now.skip ≡ suc (run self.now.depth rest.now) }
        ensures { result.now ≡ drop (run self.now.depth rest.now) rest.now }
    {
        &rest[self.skip - 1..]
    }

    // The row, where so many rows stand beneath it.
    pub(crate) fn over(self, below: usize) -> Row
        requires { below + 1 < 2 ^ 64 }
        ensures { result ≡ record self { skip = suc below } }
    {
        Row {
            skip: 1 + below,
            ..self
        }
    }

    // Whether the way to the row leads away from the keys that the key contains: its number is not in the key.
    pub(crate) fn leads_away(&self, key: &Key) -> bool
        ensures { result ≡ not (among self.now.number (numbers key.now)) }
    {
        !key.has(self.number)
    }
}
