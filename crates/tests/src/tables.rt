// The edges of the rules of recorders, at tables of numbers.
use crate::looking::looks;
use makers::keep;
use record::{Recorder, TableRecorder};
use std::test::Fail;

// Widths 1 and 16 are allowed, 0 and 17 are not, and a denied start changes nothing.
#[test]
fn widths(rt: HostRuntime) {
    let mut memory = [0i64; 32];
    let mut table = TableRecorder::new(&mut memory);
    assert_eq!(rt; table.width(), 1);
    // a width, whether it is allowed, and the width and the room after that
    let starts = [
        (0, false, 1, 32),
        (1, true, 1, 32),
        (16, true, 16, 2),
        (17, false, 16, 2),
    ];
    for (width, allowed, after, room) in &starts {
        assert_eq!(rt; table.start(*width), *allowed);
        assert_eq!(rt; table.width(), *after);
        assert_eq!(rt; table.room(), *room);
    }
}

// Memory of no number, and of one number less than a state, has no room.
#[test]
fn short_memory(rt: HostRuntime) {
    let mut none: [i64; 0] = [];
    let mut table = TableRecorder::new(&mut none);
    assert_eq!(rt; table.room(), 0);
    assert!(rt; !table.take(&[1]));
    let mut two = [0i64; 2];
    let mut table = TableRecorder::new(&mut two);
    assert!(rt; table.start(3));
    assert_eq!(rt; table.room(), 0);
    assert!(rt; !table.take(&[1, 2, 3]));
}

// No memory is large enough for the 65,536th state.
#[test]
fn most_states(rt: HostRuntime) -> Result<(), Fail> {
    let numbers = vec![in rt.alloc(); 7i64; 65_536]?;
    let mut memory = vec![in rt.alloc(); 0i64; 65_536]?;
    assert_eq!(rt; keep(&mut memory[0..65_535], &numbers, 1), 65_535);
    assert_eq!(rt; keep(&mut memory, &numbers, 1), 65_535);
    assert_eq!(rt; memory[65_534], 7);
    assert_eq!(rt; memory[65_535], 0);
    Ok(())
}

// Values from -1,000,000 to 1,000,000 are taken, and what is taken is looked up.
#[test]
fn values(rt: HostRuntime) {
    let mut memory = [0i64; 8];
    let mut table = TableRecorder::new(&mut memory);
    assert!(rt; table.start(2));
    let states: [(&[i64], bool); 4] = [
        (&[1_000_000, -1_000_000], true),
        (&[1_000_001, 0], false),
        (&[0, -1_000_001], false),
        (&[0], false),
    ];
    for (values, taken) in &states {
        assert_eq!(rt; table.take(values), *taken);
    }
    assert_eq!(rt; table.count(), 1);
    looks(
        &rt,
        &table,
        &[(0, 1, Some(-1_000_000)), (0, 2, None), (1, 0, None)],
    );
}

// A rest that is shorter than a state is left out, and the owner's numbers beyond the record stay.
#[test]
fn rests(rt: HostRuntime) {
    let mut memory = [9i64; 5];
    assert_eq!(rt; keep(&mut memory, &[1, 2, 3], 2), 1);
    assert_eq!(rt; memory, [1, 2, 9, 9, 9]);
    assert_eq!(rt; keep(&mut memory, &[4, 5, 6], 17), 0);
    assert_eq!(rt; memory, [1, 2, 9, 9, 9]);
}
