// What the inspector answers, place by place, and what a list covers.
use crate::building::{Building, Cell, Step};
use inspector::answers::{Inspection, Refused};
use inspector::inspect;
use kinds::covers;
use std::process::Abort;

fn cell(room: u32, level: u32) -> Cell {
    Cell { room, level }
}

fn step(into: Cell, out_of: u32, raise: u32) -> Step {
    Step {
        into,
        out_of,
        raise,
        event: 0,
    }
}

// A building of ten levels in which levels 8 and 9 of room 0 are the goals.
fn building<'a>(firsts: &'a [Cell], steps: &'a [Step]) -> Building<'a> {
    Building {
        top: 9,
        target: cell(0, 8),
        firsts,
        steps,
    }
}

fn passes(rt: &impl Abort, building: &Building, list: &[Cell]) {
    assert_eq!(rt; inspect(building, list), Ok(Inspection::Passed));
}

fn fails(rt: &impl Abort, building: &Building, list: &[Cell], answer: Inspection) {
    assert_eq!(rt; inspect(building, list), Ok(answer));
}

fn refuses(rt: &impl Abort, building: &Building, list: &[Cell], refused: Refused) {
    assert_eq!(rt; inspect(building, list), Err(refused));
}

// Some entry has to cover, at whatever place, and only in its own room and at its own level or below.
#[test]
fn covering_asks_every_entry(rt: HostRuntime) {
    let b = building(&[], &[]);
    assert!(rt; !covers(&b, &[], cell(0, 0)));
    assert!(rt; covers(&b, &[cell(0, 3)], cell(0, 3)));
    assert!(rt; covers(&b, &[cell(0, 3)], cell(0, 2)));
    assert!(rt; !covers(&b, &[cell(0, 3)], cell(0, 4)));
    assert!(rt; !covers(&b, &[cell(1, 3)], cell(0, 3)));
    assert!(rt; covers(&b, &[cell(0, 3), cell(1, 9), cell(2, 9)], cell(0, 1)));
    assert!(rt; covers(&b, &[cell(1, 9), cell(0, 3), cell(2, 9)], cell(0, 1)));
    assert!(rt; covers(&b, &[cell(1, 9), cell(2, 9), cell(0, 3)], cell(0, 1)));
}

// The least uncovered first configuration, asked before goals and moves.
#[test]
fn firsts_come_first(rt: HostRuntime) {
    let firsts = [cell(0, 1), cell(1, 4), cell(0, 2)];
    let climbs = [step(cell(0, 0), 0, 1)];
    let b = building(&firsts, &climbs);
    fails(&rt, &b, &[], Inspection::First(0));
    fails(&rt, &b, &[cell(1, 9)], Inspection::First(0));
    fails(&rt, &b, &[cell(0, 9)], Inspection::First(1));
    fails(
        &rt,
        &b,
        &[cell(0, 2), cell(1, 3), cell(2, 4)],
        Inspection::First(1),
    );
    fails(&rt, &b, &[cell(1, 4), cell(0, 1)], Inspection::First(2));
    let high = [cell(0, 12)];
    fails(
        &rt,
        &building(&high, &climbs),
        &[cell(0, 7)],
        Inspection::First(0),
    );
}

// The least goal entry, asked before moves.
#[test]
fn goals_come_second(rt: HostRuntime) {
    let firsts = [cell(0, 1), cell(1, 4), cell(0, 2)];
    let climbs = [step(cell(0, 0), 0, 1)];
    let b = building(&firsts, &climbs);
    fails(&rt, &b, &[cell(0, 8), cell(1, 4)], Inspection::Goal(0));
    fails(
        &rt,
        &b,
        &[cell(0, 2), cell(0, 8), cell(1, 4), cell(0, 9)],
        Inspection::Goal(1),
    );
    fails(
        &rt,
        &b,
        &[cell(0, 7), cell(1, 9), cell(0, 9)],
        Inspection::Goal(2),
    );
}

// The least entry from which a move escapes, and its least such move.
#[test]
fn moves_come_last(rt: HostRuntime) {
    let firsts = [cell(0, 1), cell(1, 4), cell(0, 2)];
    let stay = step(cell(0, 0), 0, 0);
    let over = step(cell(0, 3), 1, 2);
    let home = step(cell(1, 5), 0, 1);
    let steps = [stay, over, home];
    let b = building(&firsts, &steps);
    passes(&rt, &b, &[cell(0, 2), cell(1, 4)]);
    fails(&rt, &b, &[cell(0, 3), cell(1, 4)], Inspection::Back(0, 1));
    fails(
        &rt,
        &b,
        &[cell(1, 4), cell(0, 3), cell(0, 2)],
        Inspection::Back(1, 1),
    );
    fails(
        &rt,
        &b,
        &[cell(1, 4), cell(0, 2), cell(0, 3)],
        Inspection::Back(2, 1),
    );
    fails(&rt, &b, &[cell(0, 3), cell(1, 5)], Inspection::Back(1, 2));
    fails(&rt, &b, &[cell(1, 5), cell(0, 4)], Inspection::Back(0, 2));
    let both = [over, over, step(cell(0, 0), 0, 1)];
    fails(
        &rt,
        &building(&firsts, &both),
        &[cell(0, 3), cell(1, 4)],
        Inspection::Back(0, 0),
    );
    fails(
        &rt,
        &building(&firsts, &both),
        &[cell(0, 2), cell(1, 4)],
        Inspection::Back(0, 2),
    );
}

// What a move leads to may be covered by any entry, a later one among them, and by the entry itself.
#[test]
fn any_entry_covers_what_a_move_leads_to(rt: HostRuntime) {
    let firsts = [cell(0, 1)];
    let steps = [step(cell(0, 3), 1, 2), step(cell(1, 0), 1, 9)];
    let b = building(&firsts, &steps);
    passes(&rt, &b, &[cell(0, 3), cell(1, 9)]);
    passes(&rt, &b, &[cell(1, 9), cell(0, 3)]);
    passes(&rt, &b, &[cell(2, 0), cell(0, 3), cell(1, 9), cell(0, 7)]);
    fails(&rt, &b, &[cell(0, 3), cell(1, 8)], Inspection::Back(1, 1));
}

// A kind with no first configurations has the empty list for a certificate, and one with no moves any list that
// covers and has no goal.
#[test]
fn kinds_may_have_no_firsts_and_no_moves(rt: HostRuntime) {
    let firsts = [cell(0, 1), cell(1, 4)];
    let climbs = [step(cell(0, 0), 0, 1)];
    let no_firsts: [Cell; 0] = [];
    let no_steps: [Step; 0] = [];
    let unentered = building(&no_firsts, &climbs);
    passes(&rt, &unentered, &[]);
    fails(&rt, &unentered, &[cell(0, 7)], Inspection::Back(0, 0));
    let still = building(&firsts, &no_steps);
    passes(&rt, &still, &[cell(0, 7), cell(1, 9)]);
    fails(&rt, &still, &[], Inspection::First(0));
    let bare = building(&no_firsts, &no_steps);
    passes(&rt, &bare, &[]);
    passes(&rt, &bare, &[cell(0, 7), cell(1, 8)]);
    fails(&rt, &bare, &[cell(0, 8)], Inspection::Goal(0));
}

// The least entry that does not fit, asked before all but the length.
#[test]
fn entries_must_fit(rt: HostRuntime) {
    let firsts = [cell(0, 1), cell(1, 4)];
    let b = building(&firsts, &[]);
    refuses(&rt, &b, &[cell(0, 10), cell(1, 4)], Refused::Unfit(0));
    refuses(
        &rt,
        &b,
        &[cell(0, 8), cell(5, 10), cell(0, 11)],
        Refused::Unfit(1),
    );
    refuses(
        &rt,
        &b,
        &[cell(0, 2), cell(1, 4), cell(0, 10)],
        Refused::Unfit(2),
    );
    refuses(&rt, &b, &[cell(0, 10)], Refused::Unfit(0));
    passes(&rt, &b, &[cell(0, 2), cell(1, 9), cell(5, 9)]);
    assert_eq!(rt; Refused::Unfit(2).number(), 19);
    assert_eq!(rt; Refused::Unfit(2).place(), 2);
}

// 4,096 entries are inspected, and one more is too many, whatever they are.
#[test]
fn lists_have_at_most_4096_entries(rt: HostRuntime) {
    let firsts = [cell(1, 4)];
    let b = building(&firsts, &[]);
    let mut most = [cell(1, 9); 4_096];
    passes(&rt, &b, &most);
    most[4_095] = cell(1, 10);
    refuses(&rt, &b, &most, Refused::Unfit(4_095));
    refuses(&rt, &b, &[cell(1, 9); 4_097], Refused::TooLong);
    refuses(&rt, &b, &[cell(1, 10); 4_097], Refused::TooLong);
    assert_eq!(rt; Refused::TooLong.number(), 18);
    assert_eq!(rt; Refused::TooLong.place(), 0);
}
