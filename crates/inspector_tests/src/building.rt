// Cells in a building, a kind whose order leaves cells of different rooms apart.
ghost use Rattle.inspector_tests.specs.Building.{below, capped, building_shape};
ghost use Rattle.inspector_tests.specs.BuildingLaws.{building_laws};
ghost use Rattle.std.specs.Prelude.{◌≡◌};
ghost use Rattle.std.specs.List.{slice_get};

use kinds::{Kind, Move};
use sets::Event;

// A room and a level in it.
#[derive(Clone, Copy, PartialEq, Eq, Debug)]
pub struct Cell {
    pub room: u32,
    pub level: u32,
}

// A move. It can be worked back from `into` and from higher levels of that room, and leads to the room `out_of`, as
// many levels up as `raise` says.
#[derive(Clone, Copy)]
pub struct Step {
    pub into: Cell,
    pub out_of: u32,
    pub raise: u32,
    pub event: Event,
}

// A building whose highest level is `top`. A cell is within those of its own room that are as high or higher.
#[derive(Clone, Copy)]
pub struct Building<'a> {
    pub top: u32,
    pub target: Cell,
    pub firsts: &'a [Cell],
    pub steps: &'a [Step],
}

impl<'a> Kind for Building<'a> {
    type Config = Cell;

    ghost shape = { building_shape };

    ghost laws = { building_laws };

    fn fits(&self, x: Cell) -> bool {
        x.level <= self.top
    }

    fn within(&self, x: Cell, y: Cell) -> bool {
        is_below(x, y)
    }

    fn first_count(&self) -> usize {
        self.firsts.len()
    }

    fn first(&self, i: usize) -> Option<Cell> {
        let cell = self.first_cell(i)?;
        Some(cap(cell.room, cell.level as u64, self.top))
    }

    fn moves(&self) -> Move {
        self.steps.len() as u64
    }

    fn event(&self, k: Move) -> Event {
        match self.step(k) {
            Some(step) => step.event,
            None => 0,
        }
    }

    fn goal(&self, x: Cell) -> bool {
        is_below(self.target, x)
    }

    fn back(&self, k: Move, y: Cell) -> Option<Cell> {
        let step = self.step(k)?;
        if is_below(step.into, y) {
            Some(cap(
                step.out_of,
                u64::from(y.level) + u64::from(step.raise),
                self.top,
            ))
        } else {
            None
        }
    }
}

impl<'a> Building<'a> {
    // The first cell that has number i as it was lent, and none where there are no more than i.
    fn first_cell(&self, i: usize) -> Option<Cell>
        ensures { result ≡ slice_get self.now.firsts.now i }
    {
        self.firsts.get(i).copied()
    }

    // The step that has number k, and none where there are no more than k.
    fn step(&self, k: Move) -> Option<Step>
        ensures { result ≡ slice_get self.now.steps.now k }
    {
        self.steps.get(k as usize).copied()
    }
}

fn is_below(x: Cell, y: Cell) -> bool
    ensures { result ≡ below x y }
{
    x.room == y.room && x.level <= y.level
}

// The cell at a level, or at the top if the level is above it.
fn cap(room: u32, level: u64, top: u32) -> Cell
    ensures { result ≡ capped room level top }
{
    Cell {
        room,
        level: level.min(u64::from(top)) as u32,
    }
}
