// What a call answers, and what it writes.
use crate::answer::AnswerNumbers;
use crate::exports::{domgrauja_check, domgrauja_run_numbers, domgrauja_run_text};
use feed::Reading;

// The sheet of examples/readings.sheet: a light barrier counts parcels until a stop button is pressed.
const BARRIER: &[u8] =
    b"sheet=2\nvar=eye 0 1\nvar=stop 0 1\nvar=count 0 999\nexpr=num 0\nexpr=val eye\nexpr=val stop\nexpr=val count\nexpr=add 3 1\nstmt=request eye\nstmt=request stop\nstmt=and 0 1\nstmt=always 2\nstmt=halt 2\nstmt=is count 0\nstmt=gets count 4\nstmt=and 3 4\nstmt=and 7 5\nstmt=and 8 6\nrun=9\n";

// What the barrier and the button tell in a state.
fn told(state: u32, eye: i64, stop: i64) -> [Reading; 2] {
    [
        Reading {
            state,
            variable: 0,
            number: eye,
        },
        Reading {
            state,
            variable: 1,
            number: stop,
        },
    ]
}

// A sheet has its number of variables told, and any other text its refusal and the sentence, if that fits.
#[test]
fn checks(rt: HostRuntime) {
    let mut sentence = [b'.'; 40];
    let sheet = domgrauja_check(rt.alloc(), BARRIER, &mut sentence);
    assert_eq!(rt; (sheet.number, sheet.width, sheet.length), (0, 3, 0));
    let header = domgrauja_check(rt.alloc(), b"sheet=1\n", &mut sentence);
    assert_eq!(rt;
        (header.number, header.line, header.word, header.length),
        (3, 1, 0, 39)
    );
    assert!(rt; sentence == *b"The first line must be exactly: sheet=2.");
    let short = domgrauja_check(rt.alloc(), b"", &mut sentence);
    assert_eq!(rt;
        (short.number, short.line, short.word, short.length),
        (1, 0, 0, 0)
    );
}

// The interval of the sheet under the readings of examples/README.md, and where a reading is missing.
#[test]
fn runs(rt: HostRuntime) {
    let mut numbers = [7i64; 13];
    let [a, b] = told(0, 1, 0);
    let [c, d] = told(1, 0, 0);
    let [e, f] = told(2, 1, 0);
    let [g, h] = told(3, 1, 1);
    let readings = [a, b, c, d, e, f, g, h];
    let all = domgrauja_run_numbers(rt.alloc(), BARRIER, &readings, 1000, &mut numbers);
    assert!(rt; all.finished);
    assert_eq!(rt; (all.number, all.states, all.width), (0, 4, 3));
    assert!(rt; numbers == [1, 0, 0, 0, 0, 1, 1, 0, 1, 1, 1, 2, 7]);
    let some = domgrauja_run_numbers(rt.alloc(), BARRIER, &readings[..3], 1000, &mut numbers);
    assert_eq!(rt; (some.number, some.states, some.variable), (32, 1, 1));
}

// The text of as many states as were asked for; no room; and a number of states that is not allowed.
#[test]
fn texts(rt: HostRuntime) {
    let mut bytes = [b'.'; 102];
    let [a, b] = told(0, 1, 0);
    let [c, d] = told(1, 0, 0);
    let one = domgrauja_run_text(rt.alloc(), BARRIER, &[a, b, c, d], 1, &mut bytes);
    let want = AnswerNumbers {
        length: 23,
        states: 1,
        ..AnswerNumbers::nothing()
    };
    assert!(rt; one == want);
    assert!(rt; bytes.starts_with(b"state=0\nv0=1\nv1=0\nv2=0\n."));
    let full = domgrauja_run_text(rt.alloc(), BARRIER, &[a, b, c, d], 1000, &mut bytes);
    assert_eq!(rt; (full.number, full.states, full.length), (34, 2, 46));
    let none = domgrauja_run_text(rt.alloc(), BARRIER, &[a, b, c, d], 0, &mut bytes);
    assert_eq!(rt; (none.number, none.states, none.length), (22, 0, 0));
}
