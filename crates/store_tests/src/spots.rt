// A small kind without moves, to try stores with.
ghost use Rattle.store_tests.specs.Spots.{spots};
ghost use Rattle.store_tests.specs.Lawful.{spots_lawful};

use kinds::{Kind, Move};
use sets::Event;

// A set of small numbers at a place, bit q for member q. The mark means nothing.
#[derive(Clone, Copy, PartialEq, Eq, Debug)]
pub struct Spot {
    pub place: u8,
    pub set: u8,
    pub mark: u8,
}

// The members are below 4, so a fitting set is below 2 to the power of 4.
pub const SET_LIMIT: u8 = 16;

// The kind of all spots. One is within another if they are at one place and its set is a subset, so spots at different
// places are never within one another, and spots that differ in their marks alone are within each other.
#[derive(Clone, Copy)]
pub struct Spots;

impl Kind for Spots {
    type Config = Spot;

    ghost shape = { λ _. spots };

    ghost laws = { λ _. spots_lawful };

    fn fits(&self, x: Spot) -> bool {
        x.set < SET_LIMIT
    }

    fn within(&self, x: Spot, y: Spot) -> bool {
        x.place == y.place && x.set & y.set == x.set
    }

    fn first_count(&self) -> usize {
        0
    }

    fn first(&self, _i: usize) -> Option<Spot> {
        None
    }

    fn moves(&self) -> Move {
        0
    }

    fn event(&self, _k: Move) -> Event {
        0
    }

    fn goal(&self, _x: Spot) -> bool {
        false
    }

    fn back(&self, _k: Move, _y: Spot) -> Option<Spot> {
        None
    }
}
