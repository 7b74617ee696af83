// The bytes of each kind of closing, and what is written where they do not fit.
use crate::stops::stopped;
use calls::{Denial, NotAdvanced, NotLoaded, Progress};
use lines::Fault;
use load::Refusal;
use meaning::{LeftOpen, Stop};
use summary::{Closing, closing_lines};

// The closing of a run that met a stop at state 7.
fn met(stop: Stop) -> Closing {
    Closing::Advanced(Err(NotAdvanced::Stopped(stopped(stop))))
}

// Runs with and without a stop, a text that is not loaded, and an advance that is denied. Nothing is written behind the lines.
#[test]
fn closings(rt: HostRuntime) {
    let fault = Refusal::Line(1041, Fault::Number(3));
    let rows: [(Closing, &[u8]); 10] = [
        (
            Closing::Advanced(Ok(Progress::Finished(usize::MAX))),
            b"verdict=finished\nstates=18446744073709551615\n",
        ),
        (
            Closing::Advanced(Ok(Progress::Open(0))),
            b"verdict=open\nstates=0\n",
        ),
        (
            Closing::Advanced(Err(NotAdvanced::Full(65_535))),
            b"verdict=full\nstates=65535\n",
        ),
        (
            met(Stop::Contradiction(45)),
            b"verdict=contradiction\nstates=7\nstatement=45\n",
        ),
        (
            met(Stop::Undetermined(LeftOpen::Variable(12))),
            b"verdict=undetermined\nstates=7\nvariable=12\n",
        ),
        (
            met(Stop::Undetermined(LeftOpen::End)),
            b"verdict=undetermined\nstates=7\nvariable=99\n",
        ),
        (met(Stop::Crowded), b"verdict=crowded\nstates=7\n"),
        (
            Closing::NotLoaded(NotLoaded::Refused(fault)),
            b"refused=8\nline=1041\nword=3\n",
        ),
        (
            Closing::NotLoaded(NotLoaded::RunIsOpen),
            b"refused=20\nline=0\nword=0\n",
        ),
        (
            Closing::Advanced(Err(NotAdvanced::Denied(Denial::NoRunIsOpen))),
            b"",
        ),
    ];
    for (closing, text) in &rows {
        let mut bytes = [b'.'; 96];
        let length = closing_lines(*closing, &mut bytes);
        assert_eq!(rt; length, text.len());
        assert!(rt; bytes.starts_with(text));
        assert!(rt; bytes[length..].iter().all(|b| *b == b'.'));
    }
}

// As many bytes as the lines have are enough, and one less has nothing written.
#[test]
fn edges(rt: HostRuntime) {
    let closing = Closing::Advanced(Ok(Progress::Open(1000)));
    let mut exact = [b'.'; 25];
    let mut short = [b'.'; 24];
    assert_eq!(rt; closing_lines(closing, &mut exact), 25);
    assert_eq!(rt; closing_lines(closing, &mut short), 0);
    assert!(rt; exact == *b"verdict=open\nstates=1000\n");
    assert!(rt; short == [b'.'; 24]);
}
