// The list and the trie side by side: the same long list of insertions and questions, drawn from a sequence that looks
// random and is always the same. It prints what was counted, and how often the two differed.
#![tactic(auto)]

use joint_kinds::parts::JointParts;
use keys::Keyed;
use kind_shapes::JointConfig;
use kinds::Kind;
use models::arrow::Arrow;
use models::model::Model;
use pattern_kinds::pattern::Single;
use patterns::examples::latch;
use sets::States;
use std::alloc::{AllocError, Global};
use std::fmt;
use stores::Store;
use stores::list::ListStore;
use stores::refusals::Refused;
use tries::row::Row;
use tries::trie::TrieStore;

// How many configurations each store has room for, and the rows that a trie takes for so many.
const MAXIMUM: usize = 20;

const ROWS: usize = 65 * MAXIMUM + 1;

const ROUNDS: u32 = 20;

const STEPS: u32 = 100;

static DOOR: [Arrow; 1] = [Arrow {
    from: 0,
    to: 1,
    mask: 1,
    value: 0,
}];

// What was counted over a list of steps.
#[derive(Clone, Copy, Default)]
struct Counts {
    inserted: u32,
    covered: u32,
    full: u32,
    held: u32,
    differed: u32,
}

impl fmt::Display for Counts {
    fn fmt<W: fmt::Write>(&self, f: &mut fmt::Formatter<W>) -> fmt::Result {
        write!(
            f,
            "inserted {}, covered {}, full {}, held {}, differed {}",
            self.inserted, self.covered, self.full, self.held, self.differed
        )
    }
}

impl Counts {
    // One insertion into both, after both were asked about x, and size and maximum after it.
    fn try_both<K: Kind, L: Store<K>, T: Store<K>>(
        &mut self,
        kind: &K,
        list: &mut L,
        trie: &mut T,
        x: K::Config,
    ) {
        let covered = list.covers(kind, x);
        let held = list.holds(kind, x);
        let asked = trie.covers(kind, x) == covered && trie.holds(kind, x) == held;
        let answer = list.insert(kind, x);
        let answered = trie.insert(kind, x) == answer;
        let sized = list.size() == trie.size() && list.maximum() == trie.maximum();
        let kept = answer.is_err() || trie.covers(kind, x);
        match answer {
            Ok(()) => self.inserted = self.inserted.wrapping_add(1),
            Err(Refused::Covered) => self.covered = self.covered.wrapping_add(1),
            Err(Refused::Full) => self.full = self.full.wrapping_add(1),
        }
        if held {
            self.held = self.held.wrapping_add(1);
        }
        if !(asked && answered && sized && kept) {
            self.differed = self.differed.wrapping_add(1);
        }
    }
}

fn main(rt: HostRuntime) -> anyhow::Result<()> {
    run(&rt)
}

fn run(rt: &HostRuntime) -> anyhow::Result<()> {
    if let Ok(checked) = latch().checked() {
        let kind = Single::new(checked.seal());
        // Sets that lack some of a few states, and now and then any set.
        let mut room = [0; MAXIMUM];
        let counts = counted(rt.alloc(), &kind, &mut room, 7, |seed| drawn(seed))?;
        println!(rt; "pattern: {counts}")?;
    }
    let parts = JointParts {
        pattern: latch(),
        model: Model {
            states: 2,
            start: 0,
            ends: 2,
            arrows: &DOOR,
        },
    };
    if let Ok(checked) = parts.checked() {
        let kind = checked.seal();
        // The same sets with a few model states, some of which no model has.
        let mut room = [JointConfig { state: 0, set: 0 }; MAXIMUM];
        let counts = counted(
            rt.alloc(),
            &kind,
            &mut room,
            11,
            |seed| JointConfig {
                state: (seed % 3) as u8 * 127,
                set: drawn(stirred(seed)),
            },
        )?;
        println!(rt; "joint: {counts}")?;
    }
    Ok(())
}

// A list in the room and a trie, over a kind whose configurations are drawn from the numbers of the sequence behind the
// seed.
fn counted<const LEADS: usize, K: Keyed<LEADS>, F: Fn(u64) -> K::Config>(
    heap: Global,
    kind: &K,
    room: &mut [K::Config],
    seed: u64,
    draw: F,
) -> Result<Counts, AllocError>
    requires { F.IsAlwaysCallable draw }
{
    let mut rows = fresh_rows(heap)?;
    let mut counts = Counts::default();
    let mut seed = seed;
    for _ in 0..ROUNDS {
        let mut list = ListStore::new(&mut *room);
        let mut trie: TrieStore<LEADS> = TrieStore::new(rows);
        for _ in 0..STEPS {
            seed = stirred(seed);
            counts.try_both(kind, &mut list, &mut trie, draw(seed));
        }
        rows = trie.into_rows();
    }
    Ok(counts)
}

// Rows in which anything stands.
fn fresh_rows(heap: Global) -> Result<Vec<Row>, AllocError> {
    let rows = (0..ROWS).map(|i| Row {
        number: (i % 70) as u16,
        depth: 9,
        ends: true,
        skip: i,
    });
    rows.collect(heap)
}

// The next number of the sequence.
fn stirred(seed: u64) -> u64 {
    let a = seed ^ (seed << 13);
    let b = a ^ (a >> 7);
    b ^ (b << 17)
}

// A set that lacks some of ten states; for one number in sixty-four any set.
fn drawn(seed: u64) -> States {
    if (seed >> 32) % 64 == 0 {
        seed
    } else {
        States::MAX ^ ((seed >> 8) & 0x3FF)
    }
}
