// What the tests of both kinds have in common: asking a kind, and holding its answers to what they should be.
use inspections::fault::InspectionFault;
use kinds::{Kind, Move};
use sets::Event;
use std::fmt::Debug;
use std::process::Abort;

// Configurations that fit a kind and others that don't, and among them all the goals and those within `top`.
#[derive(Clone, Copy)]
pub(crate) struct Answers<'a, C> {
    pub(crate) fitting: &'a [C],
    pub(crate) unfit: &'a [C],
    pub(crate) goals: &'a [C],
    pub(crate) top: C,
    pub(crate) within: &'a [C],
}

impl<'a, C: Copy + PartialEq + Debug> Answers<'a, C> {
    // Sees that the kind gives these answers of each configuration.
    pub(crate) fn are_given<K: Kind<Config = C>>(&self, rt: &impl Abort, kind: &K) {
        for x in self.fitting {
            assert!(rt; kind.fits(*x), "{x:?} fits");
            self.are_given_of(rt, kind, *x);
        }
        for x in self.unfit {
            assert!(rt; !kind.fits(*x), "{x:?} does not fit");
            self.are_given_of(rt, kind, *x);
        }
    }

    fn are_given_of<K: Kind<Config = C>>(&self, rt: &impl Abort, kind: &K, x: C) {
        assert_eq!(rt; kind.goal(x), self.goals.contains(&x), "{x:?} as a goal");
        assert_eq!(rt;
            kind.within(x, self.top),
            self.within.contains(&x),
            "{x:?} within"
        );
    }
}

// Sees that the kind has so many moves, the last of them for this event, and that it works them back so: the move of
// each step from its configuration to where it leads, if it can be.
pub(crate) fn works_back<C: Copy + PartialEq + Debug, K: Kind<Config = C>>(
    rt: &impl Abort,
    kind: &K,
    moves: Move,
    last: Event,
    steps: &[(Move, C, Option<C>)],
) {
    assert_eq!(rt;
        (kind.moves(), kind.event(moves.saturating_sub(1))),
        (moves, last)
    );
    for (k, y, x) in steps {
        assert_eq!(rt; kind.back(*k, *y), *x, "move {k} from {y:?}");
    }
}

pub(crate) fn number_and_place(fault: InspectionFault) -> (u8, usize) {
    (fault.number(), fault.place())
}
