// The joint kind, and what is answered to lists of its configurations.
use crate::calls::{Answers, number_and_place, works_back};
use crate::tables::{difference, unstarted, wide};
use inspections::fault::InspectionFault;
use inspections::{inspect_joint, inspect_pattern};
use inspector::answers::Inspection;
use joint_kinds::fault::JointFault;
use joint_kinds::joint::Joint;
use joint_kinds::parts::JointParts;
use kind_shapes::JointConfig;
use kinds::{Kind, Move};
use models::arrow::Arrow;
use models::fault::ModelFault;
use models::model::Model;
use patterns::examples::latch;
use patterns::fault::Fault;
use patterns::parts::Parts;
use sets::States;
use std::process::Abort;
use std::test::Fail;

fn at(state: u8, set: States) -> JointConfig {
    JointConfig { state, set }
}

// The kind of the pattern with the model.
fn joint<'a>(pattern: Parts<'a>, model: Model<'a>) -> Result<Joint<'a>, Fail> {
    let parts = JointParts { pattern, model };
    let checked = parts
        .checked()
        .map_err(|_| Fail::new("the parts are refused"))?;
    Ok(checked.seal())
}

static FREE: [Arrow; 1] = [Arrow {
    from: 0,
    to: 0,
    mask: 0,
    value: 0,
}];

// The signal is kept off.
static QUIET: [Arrow; 1] = [Arrow {
    from: 0,
    to: 0,
    mask: 1,
    value: 0,
}];

static QUIET_OR_FREE: [Arrow; 2] = [
    Arrow {
        from: 0,
        to: 0,
        mask: 1,
        value: 0,
    },
    Arrow {
        from: 0,
        to: 0,
        mask: 0,
        value: 0,
    },
];

// State 0 is an open door and 1 a closed one. It closes with the signal off, and opens with it on.
static DOOR: [Arrow; 2] = [
    Arrow {
        from: 0,
        to: 1,
        mask: 1,
        value: 0,
    },
    Arrow {
        from: 1,
        to: 0,
        mask: 1,
        value: 1,
    },
];

fn door(ends: States) -> Model<'static> {
    Model {
        states: 2,
        start: 0,
        ends,
        arrows: &DOOR,
    }
}

// LATCH with the door, and what is within state 1 with the set of state 0.
#[test]
fn places(rt: HostRuntime) -> Result<(), Fail> {
    let fitting = [
        at(0, 0),
        at(0, 1),
        at(0, 3),
        at(1, 0),
        at(1, 1),
        at(1, 2),
        at(1, 3),
    ];
    let unfit = [at(2, 0), at(255, 1), at(1, 4), at(0, 5)];
    let kind = joint(latch(), door(2))?;
    let answers = Answers {
        fitting: &fitting,
        unfit: &unfit,
        goals: &[at(0, 1), at(0, 3), at(0, 5)],
        top: at(1, 1),
        within: &[at(1, 0), at(1, 1)],
    };
    answers.are_given(&rt, &kind);
    Ok(())
}

// First configurations come in ascending order of the end states, 0 and 63 among them, and there are no more.
#[test]
fn firsts_ascend(rt: HostRuntime) -> Result<(), Fail> {
    let model = Model {
        states: 64,
        start: 5,
        ends: 0x8000_0000_0000_0025,
        arrows: &[],
    };
    let kind = joint(difference(), model)?;
    assert_eq!(rt; (kind.first_count(), kind.moves()), (4, 0));
    let states: [u8; 4] = [0, 2, 5, 63];
    for (i, state) in states.iter().enumerate() {
        assert_eq!(rt; kind.first(i), Some(at(*state, 12)), "first {i}");
    }
    assert_eq!(rt; kind.first(4), None);
    assert_eq!(rt; kind.first(usize::MAX), None);
    assert_eq!(rt; kind.back(0, at(0, 12)), None);
    Ok(())
}

// Arrow 0 of the door enters state 1 and admits event 0 alone; arrow 1 enters state 0 and admits event 1 alone.
#[test]
fn steps_of_a_door(rt: HostRuntime) -> Result<(), Fail> {
    let steps = [
        (0, at(1, 2), Some(at(0, 0))),
        (1, at(1, 2), None),
        (0, at(0, 2), None),
        (3, at(0, 2), Some(at(1, 3))),
        (2, at(0, 2), None),
        (3, at(1, 2), None),
        (4, at(0, 2), None),
        (Move::MAX, at(0, 2), None),
    ];
    works_back(&rt, &joint(latch(), door(2))?, 4, 1, &steps);
    Ok(())
}

// 256 arrows over 16 signals make 2^24 moves, of which the last arrow's have the highest numbers.
#[test]
fn most_arrows(rt: HostRuntime) -> Result<(), Fail> {
    let steps = [
        (16744448, at(5, 1), Some(at(3, 1))),
        (16777214, at(5, 0), Some(at(3, 1))),
        (16777215, at(5, 1), None),
        (16744447, at(5, 1), None),
        (16744448, at(0, 1), None),
        (16744448, at(3, 1), None),
        (16777216, at(5, 1), None),
        (0, at(0, 1), Some(at(0, 0))),
        (32768, at(0, 0), Some(at(0, 1))),
        (16711679, at(0, 0), Some(at(0, 1))),
        (0, at(5, 1), None),
    ];
    let mut arrows = [FREE[0]; 256];
    arrows[255] = Arrow {
        from: 3,
        to: 5,
        mask: 0x8001,
        value: 0x8000,
    };
    let model = Model {
        states: 6,
        start: 3,
        ends: 0x20,
        arrows: &arrows,
    };
    works_back(&rt, &joint(wide(), model)?, 16_777_216, 65_535, &steps);
    Ok(())
}

// Sees that the list is answered so, for LATCH with the model.
fn found(rt: &impl Abort, model: Model, list: &[JointConfig], answer: Inspection) {
    assert_eq!(rt; inspect_joint(latch(), model, list), Ok(answer));
}

// The same for a model of one state that is start and end.
fn found_in_one(rt: &impl Abort, arrows: &[Arrow], list: &[JointConfig], answer: Inspection) {
    let model = Model {
        states: 1,
        start: 0,
        ends: 1,
        arrows,
    };
    found(rt, model, list, answer);
}

// LATCH matches, but not what a model sends that keeps the signal off, or that sends only the empty sequence. Of two
// arrows the second's moves come later.
#[test]
fn models_that_hold_latch_back(rt: HostRuntime) {
    assert_eq!(rt; inspect_pattern(latch(), &[0]), Ok(Inspection::Back(0, 1)));
    found_in_one(&rt, &QUIET, &[at(0, 0)], Inspection::Passed);
    found_in_one(&rt, &FREE, &[at(0, 0)], Inspection::Back(0, 1));
    found_in_one(&rt, &FREE, &[at(0, 0), at(0, 2)], Inspection::Back(1, 1));
    found_in_one(
        &rt,
        &FREE,
        &[at(0, 0), at(0, 2), at(0, 3)],
        Inspection::Goal(2),
    );
    found_in_one(&rt, &QUIET_OR_FREE, &[at(0, 0)], Inspection::Back(0, 3));
    found_in_one(&rt, &[], &[at(0, 0)], Inspection::Passed);
    found_in_one(&rt, &[], &[], Inspection::First(0));
}

// A model with no end states sends nothing, and the empty list is a certificate.
#[test]
fn no_end_states(rt: HostRuntime) {
    found(&rt, door(0), &[], Inspection::Passed);
    found(&rt, door(0), &[at(0, 0)], Inspection::Back(0, 3));
}

// The door opens and closes in turn, so the signal is never on twice running.
#[test]
fn doors(rt: HostRuntime) {
    found(&rt, door(3), &[at(0, 0), at(1, 0)], Inspection::Back(0, 3));
    found(&rt, door(3), &[at(0, 0), at(1, 2)], Inspection::Passed);
    found(&rt, door(3), &[at(0, 0)], Inspection::First(1));
    found(&rt, door(3), &[at(1, 2)], Inspection::First(0));
    found(&rt, door(3), &[at(0, 1), at(1, 2)], Inspection::Goal(0));
    found(&rt, door(3), &[at(0, 0), at(1, 3)], Inspection::Passed);
}

// Sees that the inspection is refused under this number at this place.
fn refused(
    rt: &impl Abort,
    parts: Parts,
    model: Model,
    list: &[JointConfig],
    number: u8,
    place: usize,
) {
    let answer = inspect_joint(parts, model, list);
    assert_eq!(rt; answer.map_err(number_and_place), Err((number, place)));
}

// An arrow over a signal that LATCH does not have.
static BEYOND: [Arrow; 2] = [
    Arrow {
        from: 0,
        to: 0,
        mask: 0,
        value: 0,
    },
    Arrow {
        from: 0,
        to: 0,
        mask: 2,
        value: 0,
    },
];

// The pattern is asked first, then the model, then the list. A mask too wide for one signal is none for sixteen.
#[test]
fn refusals(rt: HostRuntime) {
    let stray = Model {
        start: 2,
        ..door(3)
    };
    let wider = Model {
        arrows: &BEYOND,
        ..door(3)
    };
    refused(&rt, unstarted(), stray, &[at(9, 9)], 2, 0);
    refused(&rt, latch(), stray, &[at(9, 9)], 7, 0);
    refused(&rt, latch(), wider, &[at(9, 9)], 8, 1);
    refused(&rt, wide(), wider, &[at(0, 0), at(2, 0)], 19, 1);
    refused(&rt, latch(), door(3), &[at(0, 0), at(1, 4)], 19, 1);
    refused(&rt, latch(), door(3), &[at(0, 8), at(2, 0)], 19, 0);
    refused(
        &rt,
        latch(),
        door(3),
        &[at(0, 0), at(0, 0), at(2, 0)],
        19,
        2,
    );
    refused(&rt, latch(), door(3), &[at(9, 9); 4_097], 18, 0);
    let arrow = InspectionFault::Tables(JointFault::Model(ModelFault::Arrow(1)));
    assert_eq!(rt; inspect_joint(latch(), wider, &[]), Err(arrow));
    let negation = JointFault::Pattern(Fault::Negation(9));
    assert_eq!(rt; (negation.number(), negation.place()), (6, 9));
}
