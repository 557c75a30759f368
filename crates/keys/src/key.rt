// A key as a value.
ghost use Rattle.std.specs.Prelude.{◌≡◌, ◌≤◌, not, length, take};
ghost use Rattle.sets.specs.Sets.{has};
ghost use Rattle.keys.specs.Numbers.{among, without, none, missing};
ghost use Rattle.keys.specs.Listed.{numbers};

use sets::{MAX_STATES, States, add, holds};

// The most numbers that a key has: one that leads, and 64 states.
pub const MAX_NUMBERS: usize = 65;

// The number that leads the key, where there is one, and the set whose missing states are the others.
#[derive(Clone, Copy)]
pub struct Key {
    pub lead: Option<u16>,
    pub set: States,
}

impl Key {
    // Whether the number is in the key.
    pub fn has(&self, number: u16) -> bool
        ensures { result ≡ among number (numbers self.now) }
    {
        self.lead == Some(number) || is_missing(self.set, number)
    }

    // The key with the number taken away.
    #[tactic(auto, using(crate::proofs::Numbers::numbers_without))]
    pub fn without(self, number: u16) -> Key
        ensures { numbers result ≡ without number (numbers self) }
    {
        Key {
            lead: self.lead.filter(|first| *first != number),
            set: add(self.set, number as usize),
        }
    }

    // Whether there is no number in the key.
    #[tactic(auto, using(crate::proofs::Numbers::none_numbers))]
    pub fn is_empty(&self) -> bool
        ensures { result ≡ none (numbers self.now) }
    {
        self.lead.is_none() && self.set == States::MAX
    }

    // Writes the numbers to the front of `out`, and answers how many there are.
    // Stays: it tells of the caller's array, which a slice that is answered does not.
    pub fn write(&self, out: &mut [u16; MAX_NUMBERS]) -> usize
        ensures len { result ≡ length (numbers self.now) }
        ensures items { take result out.new ≡ numbers self.now }
        ensures short { result ≤ 65 }
    {
        let mut count = 0;
        if let Some(first) = self.lead {
            out[0] = first;
            count = 1;
        }
        // Stays: a filter over the range would leave the same lines in the loop, and take away the bound on the count.
        for q in 0..MAX_STATES {
            if lacks(self.set, q) {
                out[count] = q as u16;
                count += 1;
            }
        }
        count
    }

    // Writes the numbers to the front of `out`, and answers with what it wrote.
    pub fn list<'a>(&self, out: &'a mut [u16; MAX_NUMBERS]) -> &'a [u16]
        ensures items { result.now ≡ numbers self.now }
        ensures short { length result.now ≤ 65 }
    {
        let count = self.write(out);
        &out[..count]
    }
}

// Whether the number is a state that the set has not.
fn is_missing(set: States, number: u16) -> bool
    ensures { result ≡ among number (missing set 64) }
{
    number < 64 && lacks(set, number as usize)
}

// Whether the set has not the state.
fn lacks(set: States, q: usize) -> bool
    ensures { result ≡ not (has set q) }
{
    !holds(set, q)
}
