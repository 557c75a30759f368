// The list: a store over rows that the caller lends.
ghost use Rattle.std.specs.Prelude.{◌≡◌, ◌<◌, ◌≤◌, [], length};
ghost use Rattle.stores.specs.Holding.{inserted};
ghost use Rattle.stores.specs.Admission.{admitted};

use crate::Store;
use crate::refusals::Refused;
use kinds::{Kind, covers};

// A store that keeps what it holds in the first of the rows that it was lent. Its maximum is the number of rows. What
// stands in the others means nothing.
// Stays: rows that the caller lends, with a count of those in use, since the library has no heap.
#[derive(Drop)]
pub struct ListStore<'a, C> {
    rows: &'a mut [C],
    len: usize,
    ghost enough: { len ≤ length rows.now },
}

impl<'a, C> ListStore<'a, C> {
    ghost use Rattle.stores.specs.Rows.{contents, room};

    // A list over these rows that holds nothing, whatever stands in them.
    pub fn new(rows: &'a mut [C]) -> ListStore<'a, C>
        ensures items { contents result ≡ [] }
        ensures limit { room result ≡ length rows.old }
    {
        ListStore { rows, len: 0 }
    }

    // The rows in use. The bound says what is so already: with it the compiler sees that they lie in the rows that were
    // lent, and asks two of them at a time.
    fn in_use(&self) -> &[C]
        ensures { result.now ≡ contents self.now }
    {
        &self.rows[..self.len.min(self.rows.len())]
    }
}

impl<'a, C: Copy> ListStore<'a, C> {
    ghost use Rattle.stores.specs.Rows.{contents, room};

    // Done if x may join the rows in use: it is not covered by them, and there is a row left.
    fn admit<K: Kind<Config = C>>(&self, kind: &K, x: C) -> Result<(), Refused>
        ensures { result ≡ admitted (K.shape kind.now) x (contents self.now) (room self.now) }
    {
        let held = self.in_use();
        if covers(kind, held, x) {
            return Err(Refused::Covered);
        }
        if held.len() >= self.rows.len() {
            return Err(Refused::Full);
        }
        Ok(())
    }

    // Drops the rows in use that x covers, by moving the others up, and puts x behind these.
    fn exchange<K: Kind<Config = C>>(&mut self, kind: &K, x: C)
        requires { length (contents self.old) < room self.old }
        ensures items { contents self.new ≡ inserted (K.shape kind.now) x (contents self.old) }
        ensures limit { room self.new ≡ room self.old }
    {
        let rows = &mut *self.rows;
        let mut count = 0;
        // Stays: rows are read at one place and written at an earlier one, and a slice has no `retain`.
        for i in 0..self.len {
            let y = rows[i];
            if !kind.within(y, x) {
                rows[count] = y;
                count += 1;
            }
        }
        rows[count] = x;
        self.len = count + 1;
    }
}

impl<'a, K: Kind> Store<K> for ListStore<'a, K::Config> {
    ghost use Rattle.stores.specs.Rows.{contents, room, within_room};

    ghost held = { contents };

    ghost limit = { room };

    ghost roomy = { within_room };

    fn covers(&self, kind: &K, x: K::Config) -> bool {
        covers(kind, self.in_use(), x)
    }

    fn holds(&self, kind: &K, x: K::Config) -> bool {
        self.in_use()
            .iter()
            .any(|y| kind.within(x, *y) && kind.within(*y, x))
    }

    fn size(&self) -> usize {
        self.len
    }

    fn maximum(&self) -> usize {
        self.rows.len()
    }

    fn insert(&mut self, kind: &K, x: K::Config) -> Result<(), Refused> {
        self.admit(kind, x)?;
        self.exchange(kind, x);
        Ok(())
    }
}
