// The rows of a trie.
ghost use Rattle.std.specs.Prelude.{◌≡◌, ◌≤◌, true, length, take};
ghost use Rattle.tries.specs.Rows.{linked, shaped};

use crate::row::Row;

// Rows of which the first are in use. These are a forest in preorder: behind each row stand the rows beneath it. What
// stands in the others means nothing.
// Stays: each box of a tree would be memory asked for at an insertion, which could then fail; the rows are handed in once,
// and their number sets the maximum.
#[derive(Drop)]
pub(crate) struct Forest {
    pub(crate) rows: Vec<Row>,
    pub(crate) used: usize,
    ghost within: { used ≤ length rows.items },
    ghost linked: { linked (take used rows.items) ≡ true },
    ghost shaped: { shaped 0 (take used rows.items) ≡ true },
}
