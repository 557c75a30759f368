// The trie as a store.
ghost use Rattle.std.specs.Prelude.{◌≡◌, [], map, length};
ghost use Rattle.keys.specs.Listed.{numbers};
ghost use Rattle.tries.specs.Rows.{reached, matched};
ghost use Rattle.tries.specs.Words.{room, admitted_key};
ghost use Rattle.tries.specs.Tries.{keys_of, room_of, within_room};

use crate::forest::Forest;
use crate::row::Row;
use crate::trie::TrieStore;
use keys::Keyed;
use keys::key::Key;
use stores::Store;
use stores::refusals::Refused;

impl<const LEADS: usize> TrieStore<LEADS> {
    // A trie over these rows that holds nothing, whatever stands in them.
    pub fn new(rows: Vec<Row>) -> TrieStore<LEADS>
        ensures items { keys_of result ≡ [] }
        ensures limit { room_of result ≡ room (length rows.items) }
    {
        TrieStore {
            forest: Forest { rows, used: 0 },
            size: 0,
            root: false,
        }
    }

    // Gives the rows back, as they stand. What stands in them means nothing any more.
    pub fn into_rows(self) -> Vec<Row>
        ensures items { result.items ≡ self.entry.forest.rows.items }
        ensures limit { room (length result.items) ≡ room_of self.entry }
    {
        self.forest.rows
    }

    // Whether some key that is held has no number that this one has not.
    fn covers_key(&self, key: &Key) -> bool
        ensures { result ≡ reached (numbers key.now) (keys_of self.now) }
    {
        self.root || self.forest.reaches(key)
    }

    // Whether some key that is held has just the numbers of this one.
    fn holds_key(&self, key: Key) -> bool
        ensures { result ≡ matched (numbers key) (keys_of self.now) }
    {
        self.root && key.is_empty() || self.forest.matches(key)
    }

    // How many keys there is room for.
    fn limit(&self) -> usize
        ensures { result ≡ room_of self.now }
    {
        let rows = self.forest.rows.len();
        rows.saturating_sub(1) / 65
    }

    // Done if the key may be put in: none that is held covers it, and there is room for one more.
    fn admit(&self, key: &Key) -> Result<(), Refused>
        ensures { result ≡ admitted_key (numbers key.now) (keys_of self.now) (room_of self.now) }
    {
        if self.covers_key(key) {
            return Err(Refused::Covered);
        }
        if self.size >= self.limit() {
            return Err(Refused::Full);
        }
        Ok(())
    }
}

impl<const LEADS: usize, K: Keyed<LEADS>> Store<K> for TrieStore<LEADS> {
    ghost held = { λ t. map K.Keyed.config (keys_of t) };

    ghost limit = { room_of };

    ghost roomy = { λ t. within_room t K.Keyed.config };

    fn covers(&self, kind: &K, x: K::Config) -> bool {
        self.covers_key(&kind.key(x))
    }

    fn holds(&self, kind: &K, x: K::Config) -> bool {
        self.holds_key(kind.key(x))
    }

    fn size(&self) -> usize {
        self.size
    }

    fn maximum(&self) -> usize {
        self.limit()
    }

    fn insert(&mut self, kind: &K, x: K::Config) -> Result<(), Refused> {
        let key = kind.key(x);
        self.admit(&key)?;
        self.size = self.forest.change(key);
        self.root = key.is_empty();
        Ok(())
    }
}
