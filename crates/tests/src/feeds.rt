// What feeds tell, and how their readings become states.
use feed::{Feed, ListFeed, Reading, Silent};
use makers::{Constant, Nowhere, copy_readings};
use record::{Recorder, TableRecorder};

// The first of two records for one place counts, and records outside the ranges never do.
#[test]
fn lists(rt: HostRuntime) {
    let list = [
        Reading {
            state: 65_535,
            variable: 15,
            number: 1,
        },
        Reading {
            state: 65_534,
            variable: 16,
            number: 2,
        },
        Reading {
            state: 65_534,
            variable: 15,
            number: 3,
        },
        Reading {
            state: 65_534,
            variable: 15,
            number: 4,
        },
    ];
    let feed = ListFeed::new(&list);
    let rows = [
        (15, 65_534, Some(3)),
        (15, 65_535, None),
        (16, 65_534, None),
        (14, 65_534, None),
    ];
    for (variable, state, number) in &rows {
        assert_eq!(rt; feed.reading(*variable, *state), *number);
    }
    assert_eq!(rt; Silent.reading(15, 65_534), None);
}

// Readings become a state, and none becomes 0; a maker's own kinds serve as well.
#[test]
fn copies(rt: HostRuntime) {
    let list = [Reading {
        state: 5,
        variable: 1,
        number: -8,
    }];
    let mut memory = [9i64; 4];
    let mut table = TableRecorder::new(&mut memory);
    assert!(rt; table.start(2));
    assert!(rt; copy_readings(&ListFeed::new(&list), 5, &mut table));
    assert!(rt; copy_readings(&Constant { number: 6 }, 65_534, &mut table));
    assert!(rt; !copy_readings(&Constant { number: 6 }, 0, &mut table));
    assert!(rt; !copy_readings(&Silent, 0, &mut Nowhere::new()));
    assert_eq!(rt; memory, [0, -8, 6, 6]);
}
