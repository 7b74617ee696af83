// The line of each kind of answer.
use crate::stops::stopped;
use calls::{Denial, Ending, NotAdvanced, NotLoaded, Progress, Report};
use lines::Fault;
use load::Refusal;
use meaning::{LeftOpen, Stop};
use script::Answer;
use std::test::Fail;

// Answers of each call, and their lines.
#[test]
fn answers(rt: HostRuntime) -> Result<(), Fail> {
    let fault = NotLoaded::Refused(Refusal::Line(1041, Fault::Number(3)));
    let end = NotAdvanced::Stopped(stopped(Stop::Undetermined(LeftOpen::End)));
    let denied = NotAdvanced::Denied(Denial::OtherRecorder);
    let met = Ending::Stopped(stopped(Stop::Contradiction(45)));
    let crowded = Ending::Stopped(stopped(Stop::Crowded));
    let rows = [
        (Answer::Load(Err(fault)), "sheet=refused 8 1041 3"),
        (Answer::Load(Ok(())), "sheet=ok"),
        (Answer::Load(Err(NotLoaded::RunIsOpen)), "sheet=denied 20"),
        (Answer::Begin(Err(Denial::RunIsOpen)), "begin=denied 20"),
        (
            Answer::Abandon(Err(Denial::NoRunIsOpen)),
            "abandon=denied 21",
        ),
        (Answer::Look(Ok(-5)), "look=-5"),
        (Answer::Look(Err(Denial::NoSuchVariable)), "look=denied 24"),
        (Answer::Advance(Ok(Progress::Open(3))), "advance=open 3"),
        (
            Answer::Advance(Ok(Progress::Finished(4))),
            "advance=finished 4",
        ),
        (
            Answer::Advance(Err(NotAdvanced::Full(9))),
            "advance=stop 34 9",
        ),
        (Answer::Advance(Err(end)), "advance=stop 32 7 99"),
        (Answer::Advance(Err(denied)), "advance=denied 25"),
        (Answer::Report(Report::Idle), "report=idle"),
        (Answer::Report(Report::Open(2)), "report=open 2"),
        (
            Answer::Report(Report::Ended(Ending::Finished)),
            "report=ended finished",
        ),
        (
            Answer::Report(Report::Ended(met)),
            "report=ended stop 31 7 45",
        ),
        (
            Answer::Report(Report::Ended(crowded)),
            "report=ended stop 33 7",
        ),
    ];
    for (answer, line) in &rows {
        assert_eq!(rt; answer.to_string(rt.alloc())?.as_str(), *line);
    }
    Ok(())
}
