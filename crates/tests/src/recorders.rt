// The edges of the rules of recorders, at records as text, and what stands in the bytes.
use crate::looking::looks;
use makers::keep_text;
use record::{Recorder, TextRecorder};

// A byte less than a state's has no room, and neither has no byte at all.
#[test]
fn short_memory(rt: HostRuntime) {
    let mut none = [0u8; 0];
    let mut narrow = [0u8; 24];
    let mut wide = [0u8; 219];
    assert_eq!(rt; TextRecorder::new(&mut none).room(), 0);
    let mut recorder = TextRecorder::new(&mut narrow);
    assert_eq!(rt; recorder.room(), 0);
    assert!(rt; !recorder.take(&[0]));
    let mut recorder = TextRecorder::new(&mut wide);
    assert!(rt; recorder.start(16));
    assert_eq!(rt; recorder.room(), 0);
    assert!(rt; !recorder.take(&[0; 16]));
}

// A state of 16 of the longest values fits where there is room for one.
#[test]
fn widest(rt: HostRuntime) {
    let mut memory = [b'.'; 220];
    let mut recorder = TextRecorder::new(&mut memory);
    assert!(rt; recorder.start(16));
    assert_eq!(rt; recorder.room(), 1);
    assert!(rt; recorder.take(&[-1_000_000; 16]));
    assert_eq!(rt; recorder.length(), 206);
    assert_eq!(rt; recorder.look(0, 15), Some(-1_000_000));
    assert_eq!(rt; recorder.look(0, 16), None);
    assert_eq!(rt; memory[205], b'\n');
    assert_eq!(rt; memory[206], b'.');
}

// Two states, one right behind the other, and their values again.
#[test]
fn lines(rt: HostRuntime) {
    let mut memory = [b'.'; 80];
    let mut recorder = TextRecorder::new(&mut memory);
    assert!(rt; recorder.start(2));
    let states: [([i64; 2], bool); 4] = [
        ([1_000_000, -1_000_000], true),
        ([1_000_001, 0], false),
        ([0, 42], true),
        ([0, 0], false),
    ];
    for (values, taken) in &states {
        assert_eq!(rt; recorder.take(values), *taken);
    }
    looks(
        &rt,
        &recorder,
        &[
            (0, 1, Some(-1_000_000)),
            (1, 0, Some(0)),
            (1, 1, Some(42)),
            (2, 0, None),
        ],
    );
    assert_eq!(rt; recorder.length(), 50);
    let text = b"state=0\nv0=1000000\nv1=-1000000\nstate=1\nv0=0\nv1=42\n";
    assert!(rt; memory.starts_with(text));
    assert_eq!(rt; memory[50], b'.');
}

// The bytes of the record before stay until they are reached again.
#[test]
fn restarts(rt: HostRuntime) {
    let mut memory = [b'.'; 25];
    let mut recorder = TextRecorder::new(&mut memory);
    assert!(rt; recorder.take(&[1234]));
    assert!(rt; !recorder.start(17));
    assert_eq!(rt; recorder.length(), 16);
    assert!(rt; recorder.start(1));
    assert_eq!(rt; recorder.length(), 0);
    assert_eq!(rt; recorder.look(0, 0), None);
    assert!(rt; recorder.take(&[5]));
    assert_eq!(rt; recorder.look(0, 0), Some(5));
    assert!(rt; memory == *b"state=0\nv0=5\n34\n.........");
}

// The owner of bytes finds the record's text in front, and its own bytes behind it.
#[test]
fn owned(rt: HostRuntime) {
    let mut memory = [b'.'; 40];
    assert_eq!(rt; keep_text(&mut memory, &[-1, 20, 3], 2), 20);
    assert!(rt; memory == *b"state=0\nv0=-1\nv1=20\n....................");
    assert_eq!(rt; keep_text(&mut memory, &[4], 17), 0);
    assert_eq!(rt; memory[0], b's');
}
