// A visit to a span.
ghost use Rattle.std.specs.Prelude.{◌≡◌, not, IfOk};
ghost use Rattle.meaning.specs.WellFormed.{Present, Nested};
ghost use Rattle.meaning.specs.Rules.{inherit_last, give_on, visit_span};
ghost use Rattle.meaning.specs.Runs.{is_ended};
ghost use Rattle.meaning.specs.Waiting.{span_waits};
ghost use Rattle.board.specs.Outcomes.{outcome_of};
ghost use Rattle.board.specs.Work.{work_of};
ghost use Rattle.rules.specs.Visits.{visit_changed};

use crate::plain::done;
use crate::visit::{Visited, WAITING};
use board::Board;
use meaning::{Opening, Span, Stop};
use value::End;

// The span takes "last" from the one that it lies in.
fn inherit_last(board: &mut Board, opening: Opening, serial: u32) -> Result<bool, Stop>
    requires { Present (work_of board.old).spans serial }
    ensures { outcome_of result (work_of board.new) ≡ inherit_last ((work_of board.old).ends opening.follower.span) opening.by serial (work_of board.old) }
{
    match board.end_of(opening.follower.span) {
        End::Last => board.put(opening.by, End::Last, serial),
        _ => Ok(false),
    }
}

// The span gives "on" to the one that it lies in, or, once it is last, adds what follows it. It waits for its end.
fn give_on(board: &mut Board, opening: Opening, serial: u32) -> Result<Visited, Stop>
    requires { Present (work_of board.old).spans opening.follower.span }
    ensures visited { outcome_of (visit_changed result) (work_of board.new) ≡ give_on ((work_of board.old).ends serial) opening (work_of board.old) }
    ensures done { IfOk result (λ v. v.done ≡ is_ended ((work_of board.new).ends serial)) }
{
    match board.end_of(serial) {
        End::Unknown => Ok(WAITING),
        End::On => done(board.put(opening.by, End::On, opening.follower.span)),
        End::Last => done(board.add(opening.follower)),
    }
}

// A visit to a span. The whole interval has nothing around it.
pub fn visit_span(board: &mut Board, span: Span) -> Result<Visited, Stop>
    requires own { Present (work_of board.old).spans span.serial }
    requires outer { Nested (work_of board.old).spans span.serial span.opening }
    ensures visited { outcome_of (visit_changed result) (work_of board.new) ≡ visit_span span (work_of board.old) }
    ensures done { IfOk result (λ v. v.done ≡ not (span_waits span (work_of board.new))) }
{
    let Some(opening) = span.opening else {
        return done(Ok(false));
    };
    let taken = inherit_last(board, opening, span.serial)?;
    let handed = give_on(board, opening, span.serial)?;
    Ok(Visited {
        changed: taken || handed.changed,
        done: handed.done,
    })
}
