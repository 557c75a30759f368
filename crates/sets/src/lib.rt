// Sets of small numbers, each set one number: bit q is 1 where q is a member.
#![tactic(auto)]

ghost use Rattle.std.specs.Prelude.{◌≡◌, ◌/◌, ◌^◌, Decides, ◌==◌, bit_and, nat_lt};
ghost use Rattle.sets.specs.Sets.{has, union, one, Within, Below};

// A set of states of an automaton: bit q for state q.
pub type States = u64;

// What a controller sends: bit i says whether signal i was on. Masks over events have the same width.
pub type Event = u16;

// A set of states has a bit for each of them, so there are no more states than bits.
pub const MAX_STATES: usize = 64;

// Whether `member` is in the set. Nothing past the last bit is.
pub fn holds(set: States, member: usize) -> bool
    ensures { result ≡ has set member }
{
    from_on(set, member) % 2 == 1
}

// Whether every member of `set` is in `other`.
#[tactic(auto, using(crate::proofs::Members::within_test))]
pub fn is_within(set: States, other: States) -> bool
    ensures value { result ≡ (bit_and set other == set) }
    ensures members { Decides result (Within set other) }
{
    set & other == set
}

// Whether every member of the set is below `limit`.
pub fn is_below(set: States, limit: usize) -> bool
    ensures value { result ≡ nat_lt set (2 ^ limit) }
    ensures members { Decides result (Below set limit) }
{
    from_on(set, limit) == 0
}

// The set with `member` too. Past the last bit there is no place for it, and the set stays as it is.
#[tactic(auto, using(crate::proofs::Members::or_union))]
pub fn add(set: States, member: usize) -> States
    ensures { result ≡ union set (one member) }
{
    set | single(member)
}

// The members from `place` on, each moved down by `place`.
fn from_on(set: States, place: usize) -> States
    ensures value { result ≡ set / 2 ^ place }
    ensures test { (result == 0) ≡ nat_lt set (2 ^ place) }
    ensures members { Decides (result == 0) (Below set place) }
{
    if place < MAX_STATES { set >> place } else { 0 }
}

// The set of one member, or of none past the last bit.
fn single(member: usize) -> States
    ensures { result ≡ one member }
{
    if member < MAX_STATES { 1 << member } else { 0 }
}
