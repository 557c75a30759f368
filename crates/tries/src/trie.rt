// The trie itself.
ghost use Rattle.std.specs.Prelude.{◌≡◌, ◌≤◌, true, length};
ghost use Rattle.tries.specs.Rows.{bearing, proper_all};
ghost use Rattle.tries.specs.Forests.{in_use};
ghost use Rattle.tries.specs.Words.{words, room};

use crate::forest::Forest;

pub mod storing;

// A store of configurations by their keys. The rows in use are a trie of the keys that it holds. The root has no row:
// `root` says whether a key ends there, which is the one with no number. LEADS is how many numbers lead each key.
#[derive(Drop)]
pub struct TrieStore<const LEADS: usize> {
    forest: Forest,
    // Stays: to count the keys again would be a walk over all rows in use, at each question and each insertion.
    size: usize,
    root: bool,
    ghost bearing: { bearing (in_use forest) ≡ true },
    ghost proper: { proper_all LEADS (words root (in_use forest)) ≡ true },
    ghost count: { size ≡ length (words root (in_use forest)) },
    ghost few: { size ≤ room (length forest.rows.items) },
}
