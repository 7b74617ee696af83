// The rules that wait for no number, and answers that wait for nothing.
ghost use Rattle.std.specs.Prelude.{◌≡◌, true, not, IfOk};
ghost use Rattle.value.specs.declared.end.End.TheVariants.{On as on_end};
ghost use Rattle.sheet.specs.declared.elements.Statement.TheVariants.{And as and_so, Always as always_so};
ghost use Rattle.meaning.specs.Work.{and_then, plain, numbered};
ghost use Rattle.meaning.specs.Effects.{put as putting, carry as carrying};
ghost use Rattle.meaning.specs.Rules.{when_on, halt_rule, len_rule, gets_rule};
ghost use Rattle.board.specs.Outcomes.{outcome_of};
ghost use Rattle.board.specs.Work.{work_of};
ghost use Rattle.rules.specs.Visits.{Ready, ruled, awaits, visit_changed};

use crate::visit::{Visit, Visited};
use board::{Board, afterwards};
use feed::Feed;
use meaning::{Duty, Stop};
use value::End;

// A duty without a number.
pub(crate) fn plain(statement: u16, span: u32) -> Duty
    ensures { result ≡ plain statement span }
{
    Duty {
        statement,
        number: None,
        span,
    }
}

// The duty's own statement for its own span, with a number.
pub(crate) fn numbered(duty: Duty, number: i64) -> Duty
    ensures { result ≡ numbered duty.statement number duty.span }
{
    Duty {
        statement: duty.statement,
        number: Some(number),
        span: duty.span,
    }
}

// The answer of a visit that waits for nothing.
pub(crate) fn done(answer: Result<bool, Stop>) -> Result<Visited, Stop>
    ensures visited { visit_changed result ≡ answer }
    ensures done { IfOk result (λ v. v.done ≡ true) }
{
    answer.map(|changed| Visited {
        changed,
        done: true,
    })
}

impl<'a, F: Feed> Visit<'a, F> {
    // The duty's span is on, and another duty is carried.
    pub(crate) fn on_and_carry(&self, board: &mut Board, next: Duty) -> Result<bool, Stop>
        requires { Ready self.now (work_of board.old) }
        ensures { outcome_of result (work_of board.new) ≡ and_then (putting self.now.duty.statement on_end self.now.duty.span (work_of board.old)) (carrying next) }
    {
        afterwards(
            board.put(self.duty.statement, End::On, self.duty.span)?,
            board.carry(next),
        )
    }

    // `and`: both parts are added.
    pub(crate) fn and_rule(&self, board: &mut Board, p: u16, q: u16) -> Result<bool, Stop>
        ensures { outcome_of result (work_of board.new) ≡ ruled F.Feed.readings self.now (and_so p q) (work_of board.old) }
    {
        afterwards(
            board.add(plain(p, self.duty.span))?,
            board.add(plain(q, self.duty.span)),
        )
    }

    // The duty is carried where its span is on, by the end of that span.
    fn carry_if_on(&self, board: &mut Board, end: End) -> Result<bool, Stop>
        ensures { outcome_of result (work_of board.new) ≡ when_on end (carrying self.now.duty) (work_of board.old) }
    {
        match end {
            End::On => board.carry(self.duty),
            _ => Ok(false),
        }
    }

    // `always`: its part is added, and it is carried where its span is on. It waits for the end of that span, when its part is added already.
    pub(crate) fn always_rule(&self, board: &mut Board, p: u16) -> Result<Visited, Stop>
        ensures visited { outcome_of (visit_changed result) (work_of board.new) ≡ ruled F.Feed.readings self.now (always_so p) (work_of board.old) }
        ensures done { IfOk result (λ v. v.done ≡ not (awaits F.Feed.readings self.now (always_so p) (work_of board.old))) }
    {
        let end = board.end_of(self.duty.span);
        let changed = afterwards(
            board.add(plain(p, self.duty.span))?,
            self.carry_if_on(board, end),
        )?;
        Ok(Visited {
            changed,
            done: end != End::Unknown,
        })
    }

    // `halt`, whose test has this number.
    pub(crate) fn halt_rule(&self, board: &mut Board, number: i64) -> Result<bool, Stop>
        requires { Ready self.now (work_of board.old) }
        ensures { outcome_of result (work_of board.new) ≡ halt_rule self.now.duty number (work_of board.old) }
    {
        if number != 0 {
            board.put(self.duty.statement, End::Last, self.duty.span)
        } else {
            self.on_and_carry(board, self.duty)
        }
    }

    // `len` with this many states to come.
    pub(crate) fn len_rule(&self, board: &mut Board, number: i64) -> Result<bool, Stop>
        requires { Ready self.now (work_of board.old) }
        ensures { outcome_of result (work_of board.new) ≡ len_rule self.now.duty number (work_of board.old) }
    {
        if number < 0 {
            return Err(Stop::Contradiction(self.duty.statement));
        }
        if number == 0 {
            return board.put(self.duty.statement, End::Last, self.duty.span);
        }
        self.on_and_carry(board, numbered(self.duty, number - 1))
    }

    // `gets`, whose expression has this number, on a span that is on.
    pub(crate) fn gets_rule(&self, board: &mut Board, number: i64) -> Result<bool, Stop>
        ensures { outcome_of result (work_of board.new) ≡ gets_rule self.now.duty number (work_of board.old) }
    {
        afterwards(
            board.carry(numbered(self.duty, number))?,
            board.carry(self.duty),
        )
    }
}
