// A visit to a duty.
ghost use Rattle.std.specs.Prelude.{◌≡◌, ℕ, true, not, ℤ, vec_len, Option as Maybe, IfOk};
ghost use Rattle.std.specs.List.{slice_get};
ghost use Rattle.sheet.specs.Limits.{statement_ok};
ghost use Rattle.meaning.specs.Intervals.{under};
ghost use Rattle.meaning.specs.WellFormed.{Present, FitSays};
ghost use Rattle.meaning.specs.Rules.{visit};
ghost use Rattle.meaning.specs.Waiting.{waits};
ghost use Rattle.board.specs.Outcomes.{outcome_of};
ghost use Rattle.board.specs.Work.{work_of};
ghost use Rattle.sheet.specs.ContentOf.{content_of};
ghost use Rattle.rules.specs.Visits.{Ready, ruled, awaits, visit_changed};

use crate::plain::{done, plain};
use crate::visit::{Visit, Visited};
use board::Board;
use feed::Feed;
use meaning::{Duty, Stop};
use sheet::{Sheet, Statement};
use value::{End, Memo};

impl<'a, F: Feed> Visit<'a, F> {
    // The rule of a statement that keeps its rules.
    // A `match`, and no table of functions: an arm a statement is what the rules are.
    fn rule_of(
        &self,
        board: &mut Board,
        memo: &mut Memo,
        statement: Statement,
    ) -> Result<Visited, Stop>
        requires proper { statement_ok (vec_len self.now.sheet.now.tables.variables) (vec_len self.now.sheet.now.tables.expressions) self.now.duty.statement statement ≡ true }
        requires ready { Ready self.now (work_of board.old) }
        ensures visited { outcome_of (visit_changed result) (work_of board.new) ≡ ruled F.Feed.readings self.now statement (work_of board.old) }
        ensures done { IfOk result (λ v. v.done ≡ not (awaits F.Feed.readings self.now statement (work_of board.old))) }
    {
        let duty = self.duty;
        match statement {
            Statement::True => done(Ok(false)),
            Statement::False => done(Err(Stop::Contradiction(duty.statement))),
            Statement::Empty => done(board.put(duty.statement, End::Last, duty.span)),
            Statement::More => done(board.put(duty.statement, End::On, duty.span)),
            Statement::Is(x, e) => self.is_rule(board, memo, x, e),
            Statement::And(p, q) => done(self.and_rule(board, p, q)),
            Statement::If(e, p, q) => self.if_rule(board, memo, e, p, q),
            Statement::Next(p) => done(self.on_and_carry(board, plain(p, duty.span))),
            Statement::Always(p) => self.always_rule(board, p),
            Statement::Halt(e) => self.halt_when_known(board, memo, e),
            Statement::Len(e) => self.len_when_known(board, memo, e),
            Statement::Gets(x, e) => self.gets_when_known(board, memo, x, e),
            Statement::Chop(p, q) => done(self.chop_rule(board, p, q)),
            Statement::For(e, p) => self.for_when_known(board, memo, e, p),
            Statement::While(e, p) => self.while_when_known(board, memo, e, p),
            Statement::Request(x) => done(self.request_rule(board, x)),
        }
    }
}

// The statement with this number, or none.
fn statement_of(sheet: &Sheet, number: u16) -> Option<Statement>
    ensures { result ≡ slice_get sheet.now.tables.statements.items number }
{
    sheet.tables.statements.get(usize::from(number)).copied()
}

// A visit to a duty of the sheet.
pub fn visit_duty<F: Feed>(
    board: &mut Board,
    sheet: &Sheet,
    feed: &F,
    memo: &mut Memo,
    state: u32,
    duty: Duty,
) -> Result<Visited, Stop>
    requires present { Present (work_of board.old).spans duty.span }
    requires fitted { (f : ℕ → ℕ → Maybe ℤ) (y : ℕ) → FitSays (under (content_of sheet.now) f) y ((work_of board.old).known y) }
    ensures visited { outcome_of (visit_changed result) (work_of board.new) ≡ visit (under (content_of sheet.now) (F.Feed.readings feed.now)) state duty (work_of board.old) }
    ensures done { IfOk result (λ v. v.done ≡ not (waits (under (content_of sheet.now) (F.Feed.readings feed.now)) duty (work_of board.old))) }
{
    let Some(statement) = statement_of(sheet, duty.statement) else {
        return done(Ok(false));
    };
    let visit = Visit {
        sheet,
        feed,
        state,
        duty,
    };
    visit.rule_of(board, memo, statement)
}
