// What lines are calls, at the edges of words and numbers.
use feed::Reading;
use script::{Call, read_call, read_reading};

// A line of each kind, words that stand alone, and lines that are no calls: a word too few, a word too many, and numbers that are none.
#[test]
fn calls(rt: HostRuntime) {
    let reading = Reading {
        state: 1,
        variable: 2,
        number: -3,
    };
    let rows: [(&[u8], Option<Call>); 22] = [
        (b"sheet a.sheet", Some(Call::Sheet(b"a.sheet"))),
        (b"table 0", Some(Call::Table(0))),
        (b"text 1000000", Some(Call::Text(1_000_000))),
        (b"reading 1 2 -3", Some(Call::Reading(reading))),
        (b"advance 7", Some(Call::Advance(7))),
        (b"look 8 9", Some(Call::Look(8, 9))),
        (b"name 1", Some(Call::Name(1))),
        (b"silence", Some(Call::Silence)),
        (b"begin", Some(Call::Begin)),
        (b"report", Some(Call::Report)),
        (b"abandon", Some(Call::Abandon)),
        (b"record", Some(Call::Record)),
        (b"", None),
        (b"begin ", None),
        (b"sheet", None),
        (b"sheet a b", None),
        (b"table 1000001", None),
        (b"advance 01", None),
        (b"look 0", None),
        (b"look  0 0", None),
        (b"reading 0 0", None),
        (b"silence\r", None),
    ];
    for (line, call) in &rows {
        assert_eq!(rt; read_call(line), *call);
    }
}

// The three words of a reading.
#[test]
fn readings(rt: HostRuntime) {
    let reading = Reading {
        state: 65_534,
        variable: 15,
        number: -1_000_000,
    };
    let rows: [(&[u8], Option<Reading>); 4] = [
        (b"65534 15 -1000000", Some(reading)),
        (b"0 0 -1000001", None),
        (b"-1 0 0", None),
        (b"0 0 0 ", None),
    ];
    for (words, reading) in &rows {
        assert_eq!(rt; read_reading(words), *reading);
    }
}
