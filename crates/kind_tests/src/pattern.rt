// The pattern kind by itself, and what is answered to lists of sets.
use crate::calls::{Answers, number_and_place, works_back};
use crate::tables::{difference, stuck, unstarted, wide};
use inspections::fault::InspectionFault;
use inspections::inspect_pattern;
use inspector::answers::{Inspection, Refused};
use joint_kinds::fault::JointFault;
use kinds::{Kind, Move};
use pattern_kinds::pattern::Single;
use patterns::examples::latch;
use patterns::fault::Fault;
use patterns::parts::Parts;
use sets::States;
use std::process::Abort;
use std::test::Fail;

// The kind of the pattern by itself.
// Stays: the tests of patterns check parts in the same two lines, and go on with what they are checked for.
fn single<'a>(parts: Parts<'a>) -> Result<Single<'a>, Fail> {
    let checked = parts
        .checked()
        .map_err(|_| Fail::new("the parts are refused"))?;
    Ok(Single::new(checked.seal()))
}

// LATCH, and what is within the set of state 0.
#[test]
fn sets_of_latch(rt: HostRuntime) -> Result<(), Fail> {
    let kind = single(latch())?;
    let answers = Answers {
        fitting: &[0, 1, 2, 3],
        unfit: &[4, 5, 0x8000_0000_0000_0000],
        goals: &[1, 3, 5],
        top: 1,
        within: &[0, 1],
    };
    answers.are_given(&rt, &kind);
    assert_eq!(rt; kind.first_count(), 1);
    assert_eq!(rt; kind.first(0), Some(0));
    assert_eq!(rt; kind.first(1), None);
    Ok(())
}

// LATCH has two moves; 16 signals make 65,536, and the numbers from there on are none.
#[test]
fn steps(rt: HostRuntime) -> Result<(), Fail> {
    let latch_steps = [
        (0, 0, Some(0)),
        (1, 0, Some(2)),
        (1, 2, Some(3)),
        (0, 2, Some(0)),
        (1, 1, Some(2)),
        (1, States::MAX, Some(3)),
        (2, 2, None),
        (Move::MAX, 2, None),
    ];
    works_back(&rt, &single(latch())?, 2, 1, &latch_steps);
    let wide_steps = [
        (0, 1, Some(0)),
        (32767, 1, Some(0)),
        (32768, 0, Some(1)),
        (65535, 0, Some(1)),
        (65536, 1, None),
        (98304, 1, None),
    ];
    works_back(&rt, &single(wide())?, 65_536, 65_535, &wide_steps);
    Ok(())
}

// Sees that the list is answered so.
fn found(rt: &impl Abort, parts: Parts, list: &[States], answer: Inspection) {
    assert_eq!(rt; inspect_pattern(parts, list), Ok(answer));
}

// LATCH without LATCH has a certificate of three sets, of which none can be left out; one larger set is too large.
#[test]
fn difference_of_latch_and_latch(rt: HostRuntime) {
    found(&rt, difference(), &[12, 6, 3], Inspection::Passed);
    found(&rt, difference(), &[3, 12, 6], Inspection::Passed);
    found(&rt, difference(), &[12, 6], Inspection::Back(1, 1));
    found(&rt, difference(), &[12], Inspection::Back(0, 1));
    found(&rt, difference(), &[3, 6], Inspection::First(0));
    found(&rt, difference(), &[], Inspection::First(0));
    found(&rt, difference(), &[12, 6, 19], Inspection::Goal(2));
    found(&rt, difference(), &[15], Inspection::Back(0, 1));
}

// STUCK never matches and has the empty set for a certificate; LATCH does match, and no list passes for it.
#[test]
fn stuck_and_latch(rt: HostRuntime) {
    found(&rt, stuck(), &[0], Inspection::Passed);
    found(&rt, stuck(), &[], Inspection::First(0));
    found(&rt, stuck(), &[1], Inspection::Goal(0));
    found(&rt, latch(), &[0], Inspection::Back(0, 1));
    found(&rt, latch(), &[0, 2], Inspection::Back(1, 1));
    found(&rt, latch(), &[0, 2, 3], Inspection::Goal(2));
    found(&rt, latch(), &[3], Inspection::Goal(0));
}

// Sees that the inspection is refused so, under this number at this place.
fn refused(
    rt: &impl Abort,
    parts: Parts,
    list: &[States],
    fault: InspectionFault,
    number: u8,
    place: usize,
) {
    assert_eq!(rt; inspect_pattern(parts, list), Err(fault));
    assert_eq!(rt; number_and_place(fault), (number, place));
}

// The tables are asked first, then the list's length and each entry.
#[test]
fn refusals(rt: HostRuntime) {
    let ends = InspectionFault::Tables(JointFault::Pattern(Fault::Ends));
    refused(&rt, unstarted(), &[9; 4_097], ends, 2, 0);
    let few_roots = Parts {
        roots: &[2, 9],
        ..latch()
    };
    let root = InspectionFault::Tables(JointFault::Pattern(Fault::Root(1)));
    refused(&rt, few_roots, &[9], root, 3, 1);
    refused(
        &rt,
        latch(),
        &[9; 4_097],
        InspectionFault::List(Refused::TooLong),
        18,
        0,
    );
    refused(
        &rt,
        latch(),
        &[0, 3, 4, 8],
        InspectionFault::List(Refused::Unfit(2)),
        19,
        2,
    );
    refused(
        &rt,
        latch(),
        &[0x8000_0000_0000_0000],
        InspectionFault::List(Refused::Unfit(0)),
        19,
        0,
    );
}
