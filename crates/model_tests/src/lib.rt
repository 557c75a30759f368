#![tactic(auto)]

// Tests of models: sizes, arrows, which fault comes first, what arrows admit and what models send.
#[cfg(test)]
mod tests {
    use models::arrow::Arrow;
    use models::fault::ModelFault;
    use models::model::Model;
    use sets::{Event, States};
    use std::test::Fail;

    const LOOP: Arrow = Arrow {
        from: 0,
        to: 0,
        mask: 0,
        value: 0,
    };

    fn arrow(from: u8, to: u8, mask: Event, value: Event) -> Arrow {
        Arrow {
            from,
            to,
            mask,
            value,
        }
    }

    // A model meets every question, or is refused under a number at a place.
    type Answer = Result<(), (u8, usize)>;

    fn number_and_place(fault: ModelFault) -> (u8, usize) {
        (fault.number(), fault.place())
    }

    // Asks the model every question.
    fn check(model: Model, signals: u8) -> Answer {
        model.check(signals).map_err(number_and_place)
    }

    // Whether the model, which meets every question, sends the events.
    fn sends(model: Model, signals: u8, events: &[Event]) -> Result<bool, Fail> {
        model
            .sends(signals, events)
            .map_err(|_| Fail::new("the model is refused"))
    }

    #[test]
    fn sizes(rt: HostRuntime) {
        let cases = [
            (0, 0, 0, Err((7, 0))),
            (1, 0, 0, Ok(())),
            (1, 0, 1, Ok(())),
            (64, 63, 0x8000_0000_0000_0000, Ok(())),
            (64, 0, 0xffff_ffff_ffff_ffff, Ok(())),
            (65, 0, 0, Err((7, 0))),
            (255, 0, 0, Err((7, 0))),
            (1, 1, 1, Err((7, 0))),
            (63, 62, 0x7fff_ffff_ffff_ffff, Ok(())),
            (63, 63, 0, Err((7, 0))),
            (64, 64, 0, Err((7, 0))),
            (64, 255, 0, Err((7, 0))),
            (1, 0, 2, Err((7, 0))),
            (63, 0, 0x8000_0000_0000_0000, Err((7, 0))),
            // The start and an end state are wrong at once, and so is the number of states.
            (2, 2, 4, Err((7, 0))),
            (0, 9, 1, Err((7, 0))),
        ];
        for (states, start, ends, expected) in cases {
            let model = Model {
                states,
                start,
                ends,
                arrows: &[],
            };
            assert_eq!(rt;
                check(model, 16),
                expected,
                "{states} states, start {start}, ends {ends}"
            );
        }
        let table = [LOOP; 257];
        let full = Model {
            states: 1,
            start: 0,
            ends: 1,
            arrows: &table[0..256],
        };
        assert_eq!(rt; check(full, 0), Ok(()));
        let longer = Model {
            arrows: &table,
            ..full
        };
        assert_eq!(rt; check(longer, 0), Err((7, 0)));
    }

    // Each arrow is asked alone, and at the first and the last place of a full table of 5 states.
    #[test]
    fn arrows(rt: HostRuntime) {
        let cases = [
            (0, LOOP, None),
            (0, arrow(4, 4, 0, 0), None),
            (0, arrow(5, 4, 0, 0), Some(8)),
            (0, arrow(4, 5, 0, 0), Some(8)),
            (0, arrow(255, 255, 0, 0), Some(8)),
            (0, arrow(0, 0, 1, 0), Some(8)),
            (1, arrow(0, 0, 1, 1), None),
            (1, arrow(0, 0, 2, 0), Some(8)),
            (15, arrow(0, 0, 0x7fff, 0x7fff), None),
            (15, arrow(0, 0, 0x8000, 0), Some(8)),
            (16, arrow(0, 0, 0xffff, 0x8001), None),
            (255, arrow(0, 0, 0xffff, 0), None),
            (16, arrow(0, 0, 0, 1), Some(8)),
            (16, arrow(0, 0, 5, 4), None),
            (16, arrow(0, 0, 5, 6), Some(8)),
            (16, arrow(0, 0, 0x7fff, 0x8000), Some(8)),
        ];
        for (i, (signals, asked, refusal)) in cases.into_iter().enumerate() {
            let alone = [asked];
            let mut first = [LOOP; 256];
            first[0] = asked;
            let mut last = [LOOP; 256];
            last[255] = asked;
            let model = Model {
                states: 5,
                start: 0,
                ends: 0,
                arrows: &alone,
            };
            let expected_at = |place: usize| match refusal {
                Some(number) => Err((number, place)),
                None => Ok(()),
            };
            assert_eq!(rt; check(model, signals), expected_at(0), "case {i}, alone");
            let at_first = Model {
                arrows: &first,
                ..model
            };
            assert_eq!(rt; check(at_first, signals), expected_at(0), "case {i}, first");
            let at_last = Model {
                arrows: &last,
                ..model
            };
            assert_eq!(rt; check(at_last, signals), expected_at(255), "case {i}, last");
        }
    }

    const STRAY: Arrow = Arrow {
        from: 0,
        to: 9,
        mask: 0,
        value: 0,
    };

    const WIDE: Arrow = Arrow {
        from: 0,
        to: 0,
        mask: 4,
        value: 0,
    };

    const OUTSIDE: Arrow = Arrow {
        from: 0,
        to: 0,
        mask: 1,
        value: 2,
    };

    // What a model of 2 states and 2 signals with these arrows is answered.
    fn check_arrows(arrows: &[Arrow]) -> Answer {
        check(
            Model {
                states: 2,
                start: 1,
                ends: 2,
                arrows,
            },
            2,
        )
    }

    // What these sizes are answered, though an arrow is wrong too.
    fn check_sizes(states: u8, start: u8, ends: States) -> Answer {
        check(
            Model {
                states,
                start,
                ends,
                arrows: &[LOOP, OUTSIDE],
            },
            2,
        )
    }

    // Sizes come before arrows, and of two arrows the earlier, whatever is wrong with each.
    #[test]
    fn two_faults(rt: HostRuntime) {
        assert_eq!(rt; check_arrows(&[LOOP, STRAY, OUTSIDE]), Err((8, 1)));
        assert_eq!(rt; check_arrows(&[LOOP, OUTSIDE, STRAY]), Err((8, 1)));
        assert_eq!(rt; check_arrows(&[LOOP, LOOP, WIDE, STRAY]), Err((8, 2)));
        assert_eq!(rt; check_arrows(&[STRAY, LOOP, LOOP, WIDE]), Err((8, 0)));
        assert_eq!(rt; check_sizes(0, 0, 0), Err((7, 0)));
        assert_eq!(rt; check_sizes(65, 0, 0), Err((7, 0)));
        assert_eq!(rt; check_sizes(2, 2, 0), Err((7, 0)));
        assert_eq!(rt; check_sizes(2, 0, 4), Err((7, 0)));
    }

    // Each is a mask, a value and an event.
    #[test]
    fn admits(rt: HostRuntime) {
        let admitted: [(Event, Event, Event); 7] = [
            (0, 0, 0),
            (0, 0, 0xffff),
            (5, 4, 4),
            (5, 4, 6),
            (5, 4, 0xfffe),
            (0xffff, 0x8001, 0x8001),
            (0x8000, 0, 0x7fff),
        ];
        for (mask, value, event) in admitted {
            assert!(rt;
                arrow(255, 0, mask, value).admits(event),
                "{mask}, {value}, {event}"
            );
        }
        let barred: [(Event, Event, Event); 6] = [
            (5, 4, 5),
            (5, 4, 0),
            (0xffff, 0x8001, 0x8003),
            // A value outside its mask admits nothing, its own bits neither.
            (1, 2, 2),
            (1, 2, 3),
            (0, 1, 1),
        ];
        for (mask, value, event) in barred {
            assert!(rt;
                !arrow(255, 0, mask, value).admits(event),
                "{mask}, {value}, {event}"
            );
        }
    }

    const OPENED: Arrow = Arrow {
        from: 0,
        to: 1,
        mask: 1,
        value: 1,
    };

    const CLOSED: Arrow = Arrow {
        from: 1,
        to: 0,
        mask: 1,
        value: 0,
    };

    // Whether a door that is opened and closed in turn, beside which signal 1 is free, sends the events.
    fn door(start: u8, ends: States, events: &[Event]) -> Result<bool, Fail> {
        let arrows = [OPENED, CLOSED];
        sends(
            Model {
                states: 2,
                start,
                ends,
                arrows: &arrows,
            },
            2,
            events,
        )
    }

    #[test]
    fn doors(rt: HostRuntime) -> Result<(), Fail> {
        assert_eq!(rt; door(0, 1, &[])?, true);
        assert_eq!(rt; door(0, 1, &[1, 0])?, true);
        assert_eq!(rt; door(0, 1, &[3, 2, 1, 2])?, true);
        assert_eq!(rt; door(0, 1, &[1])?, false);
        assert_eq!(rt; door(0, 1, &[0, 1])?, false);
        assert_eq!(rt; door(0, 1, &[1, 0, 0])?, false);
        // Bits from the number of signals up make no difference.
        assert_eq!(rt; door(0, 1, &[0xfffd, 0xfff0])?, true);
        assert_eq!(rt; door(0, 2, &[1])?, true);
        assert_eq!(rt; door(0, 3, &[1])?, true);
        assert_eq!(rt; door(1, 1, &[0, 1, 0])?, true);
        assert_eq!(rt; door(0, 0, &[])?, false);
        assert_eq!(rt; door(0, 0, &[1, 0])?, false);
        // The questions come first.
        let arrows = [OPENED, CLOSED, arrow(2, 0, 0, 0)];
        let strayed = Model {
            states: 2,
            start: 0,
            ends: 1,
            arrows: &arrows,
        };
        let answer = strayed.sends(2, &[1, 0]);
        assert_eq!(rt; answer.map_err(number_and_place), Err((8, 2)));
        Ok(())
    }

    const WRONG: Arrow = Arrow {
        from: 0,
        to: 1,
        mask: 1,
        value: 1,
    };

    const RIGHT: Arrow = Arrow {
        from: 0,
        to: 63,
        mask: 1,
        value: 1,
    };

    const LAST: Arrow = Arrow {
        from: 63,
        to: 63,
        mask: 0,
        value: 0,
    };

    // Whether a model of 64 states of which the last alone is an end state sends the events.
    fn far(start: u8, arrows: &[Arrow], events: &[Event]) -> Result<bool, Fail> {
        sends(
            Model {
                states: 64,
                start,
                ends: 0x8000_0000_0000_0000,
                arrows,
            },
            1,
            events,
        )
    }

    // One event may lead to two states, of which one goes on; and the last of 64 states is one like the others.
    #[test]
    fn choices(rt: HostRuntime) -> Result<(), Fail> {
        assert_eq!(rt; far(0, &[WRONG, RIGHT, LAST], &[1])?, true);
        assert_eq!(rt; far(0, &[WRONG, RIGHT, LAST], &[1, 0, 1, 0])?, true);
        assert_eq!(rt; far(0, &[WRONG, RIGHT, LAST], &[0, 1])?, false);
        assert_eq!(rt; far(0, &[RIGHT, WRONG], &[1])?, true);
        assert_eq!(rt; far(0, &[RIGHT, WRONG], &[1, 1])?, false);
        assert_eq!(rt; far(0, &[], &[])?, false);
        assert_eq!(rt; far(63, &[], &[])?, true);
        assert_eq!(rt; far(63, &[], &[0])?, false);
        Ok(())
    }
}
