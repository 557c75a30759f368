// A kind with any first configurations and no moves.
ghost use Rattle.search_tests.specs.Beginnings.{beginnings, beginnings_lawful};

use kinds::{Kind, Move};
use sets::Event;

// The first configurations are the lent numbers. A number is within itself alone, and none is a goal.
#[derive(Clone, Copy)]
pub struct Beginnings<'a> {
    pub firsts: &'a [u64],
}

impl<'a> Kind for Beginnings<'a> {
    type Config = u64;

    ghost shape = { beginnings };

    ghost laws = { beginnings_lawful };

    fn fits(&self, _x: u64) -> bool {
        true
    }

    fn within(&self, x: u64, y: u64) -> bool {
        x == y
    }

    fn first_count(&self) -> usize {
        self.firsts.len()
    }

    fn first(&self, i: usize) -> Option<u64> {
        self.firsts.get(i).copied()
    }

    fn moves(&self) -> Move {
        0
    }

    fn event(&self, _k: Move) -> Event {
        0
    }

    fn goal(&self, _x: u64) -> bool {
        false
    }

    fn back(&self, _k: Move, _y: u64) -> Option<u64> {
        None
    }
}
