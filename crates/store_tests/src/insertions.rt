// Insertions into a list, and what it answers to every question after each of them.
use crate::fresh::first_answer;
use crate::spots::{SET_LIMIT, Spot, Spots};
use std::process::Abort;
use stores::list::ListStore;
use stores::refusals::Refused;
use stores::{Store, insert_new};

// An insertion, the number of its refusal if it is refused, and the spots that are held after it.
#[derive(Clone, Copy)]
struct Insertion<'a> {
    x: Spot,
    refusal: Option<u8>,
    held: &'a [Spot],
}

fn spot(place: u8, set: u8) -> Spot {
    Spot {
        place,
        set,
        mark: 0,
    }
}

fn put(x: Spot, refusal: Option<u8>, held: &[Spot]) -> Insertion<'_> {
    Insertion { x, refusal, held }
}

// Makes the insertions one after the other, and sees that each has its answer and leaves what it should.
fn run<S: Store<Spots>>(rt: &impl Abort, store: &mut S, insertions: &[Insertion]) {
    let maximum = store.maximum();
    for insertion in insertions {
        let refused = store.insert(&Spots, insertion.x).err();
        assert_eq!(rt; refused.map(|refused| refused.number()), insertion.refusal);
        assert_eq!(rt; refused.map_or(0, |refused| refused.place()), 0);
        holds_exactly(rt, store, maximum, insertion.held);
    }
}

// Sees that size, maximum and every question about every spot of two places are answered as they are if exactly these
// spots are held.
fn holds_exactly<S: Store<Spots>>(rt: &impl Abort, store: &S, maximum: usize, held: &[Spot]) {
    assert_eq!(rt; store.size(), held.len());
    assert_eq!(rt; store.maximum(), maximum);
    for place in 0..2 {
        for set in 0..SET_LIMIT {
            let x = Spot {
                place,
                set,
                mark: 9,
            };
            assert_eq!(rt; store.covers(&Spots, x), some_covers(held, x));
            assert_eq!(rt; store.holds(&Spots, x), some_is(held, x));
        }
    }
}

fn some_covers(held: &[Spot], x: Spot) -> bool {
    held.iter()
        .any(|y| y.place == x.place && y.set | x.set == y.set)
}

fn some_is(held: &[Spot], x: Spot) -> bool {
    held.iter().any(|y| y.place == x.place && y.set == x.set)
}

// A list over no rows holds nothing and refuses everything.
#[test]
fn no_rows(rt: HostRuntime) {
    let none: [Spot; 0] = [];
    let mut rows: [Spot; 0] = [];
    let mut store = ListStore::new(&mut rows);
    holds_exactly(&rt, &store, 0, &none);
    run(
        &rt,
        &mut store,
        &[
            put(spot(0, 0), Some(17), &none),
            put(spot(1, 15), Some(17), &none),
        ],
    );
    assert_eq!(rt;
        insert_new(&mut store, &Spots, spot(0, 0)),
        Err(Refused::Full)
    );
    assert_eq!(rt; first_answer(&mut rows, spot(0, 15)), Err(Refused::Full));
}

// What stands in the rows beforehand means nothing.
#[test]
fn rows_with_contents(rt: HostRuntime) {
    let held = [spot(1, 3), spot(0, 15)];
    let mut rows = [spot(0, 15), spot(1, 15)];
    assert_eq!(rt; first_answer(&mut rows, spot(0, 15)), Ok(()));
    let mut store = ListStore::new(&mut rows);
    holds_exactly(&rt, &store, 2, &held[0..0]);
    run(
        &rt,
        &mut store,
        &[
            put(spot(1, 3), None, &held[0..1]),
            put(spot(0, 15), None, &held),
        ],
    );
}

// Filling to the maximum and one more: 17. What is covered is refused under 16, in a full store too.
#[test]
fn to_the_maximum(rt: HostRuntime) {
    let mut rows = [spot(0, 0); 3];
    let mut store = ListStore::new(&mut rows);
    let full = [spot(0, 1), spot(0, 6), spot(1, 1)];
    run(
        &rt,
        &mut store,
        &[
            put(spot(0, 1), None, &full[0..1]),
            put(spot(0, 1), Some(16), &full[0..1]),
            put(spot(0, 6), None, &full[0..2]),
            put(spot(0, 2), Some(16), &full[0..2]),
            put(spot(1, 1), None, &full),
            // not covered
            put(spot(0, 8), Some(17), &full),
            // not covered, and would drop two
            put(spot(0, 7), Some(17), &full),
            // covered at the other place alone
            put(spot(1, 2), Some(17), &full),
            // covered
            put(spot(0, 4), Some(16), &full),
            put(spot(1, 1), Some(16), &full),
            put(spot(1, 0), Some(16), &full),
        ],
    );
}

// Insertions that drop none, one and all.
#[test]
fn drops(rt: HostRuntime) {
    let mut rows = [spot(0, 0); 4];
    let mut store = ListStore::new(&mut rows);
    let least = [spot(0, 0)];
    let low = [spot(0, 1), spot(0, 2), spot(1, 3)];
    let first = [spot(0, 2), spot(1, 3), spot(0, 9)];
    let last = [spot(0, 2), spot(1, 3), spot(0, 13)];
    let middle = [spot(0, 2), spot(1, 7), spot(0, 13)];
    let high = [spot(1, 7), spot(0, 15)];
    let highest = [spot(0, 15), spot(1, 15)];
    run(
        &rt,
        &mut store,
        &[
            put(spot(0, 0), None, &least),
            // the only one
            put(spot(0, 1), None, &low[0..1]),
            // none
            put(spot(0, 2), None, &low[0..2]),
            put(spot(1, 3), None, &low),
            // one
            put(spot(0, 9), None, &first),
            put(spot(0, 13), None, &last),
            put(spot(1, 7), None, &middle),
            // all at one place, and that at the other stays
            put(spot(0, 15), None, &high),
            put(spot(0, 13), Some(16), &high),
            put(spot(1, 15), None, &highest),
        ],
    );
}

// The worked example of the docs.
#[test]
fn worked_example(rt: HostRuntime) {
    let mut rows = [spot(0, 0); 3];
    let mut store = ListStore::new(&mut rows);
    let before = [spot(0, 1), spot(0, 6)];
    let after = [spot(0, 6), spot(0, 9), spot(1, 6)];
    run(
        &rt,
        &mut store,
        &[
            put(spot(0, 1), None, &before[0..1]),
            put(spot(0, 6), None, &before),
            put(spot(0, 2), Some(16), &before),
            put(spot(0, 9), None, &after[0..2]),
            put(spot(1, 6), None, &after),
            put(spot(0, 15), Some(17), &after),
            put(spot(0, 8), Some(16), &after),
        ],
    );
    assert_eq!(rt; store.covers(&Spots, spot(0, 8)), true);
    assert_eq!(rt; store.holds(&Spots, spot(0, 8)), false);
    assert_eq!(rt; store.covers(&Spots, spot(1, 8)), false);
}

// Spots that differ in their marks alone count as one. What is covered is no fault to insert_new.
#[test]
fn equivalents(rt: HostRuntime) {
    let mut rows = [spot(0, 0); 2];
    let mut store = ListStore::new(&mut rows);
    let marked = Spot {
        place: 0,
        set: 5,
        mark: 1,
    };
    assert!(rt; marked != spot(0, 5));
    let both = [spot(0, 5), spot(0, 2)];
    run(
        &rt,
        &mut store,
        &[
            put(marked, None, &both[0..1]),
            put(spot(0, 5), Some(16), &both[0..1]),
        ],
    );
    assert_eq!(rt; insert_new(&mut store, &Spots, spot(0, 5)), Ok(false));
    assert_eq!(rt; insert_new(&mut store, &Spots, spot(0, 4)), Ok(false));
    holds_exactly(&rt, &store, 2, &both[0..1]);
    assert_eq!(rt; insert_new(&mut store, &Spots, spot(0, 2)), Ok(true));
    holds_exactly(&rt, &store, 2, &both);
    assert_eq!(rt;
        insert_new(&mut store, &Spots, spot(0, 7)),
        Err(Refused::Full)
    );
    holds_exactly(&rt, &store, 2, &both);
}
