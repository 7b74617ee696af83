// The rules that wait for a number.
// Three of them ask that their variable is one of the sheet's: a word for it would be no shorter.
ghost use Rattle.std.specs.Prelude.{◌≡◌, ◌<◌, not, vec_len, IfOk};
ghost use Rattle.sheet.specs.declared.elements.Statement.TheVariants.{Is as is_so, If as if_so, Halt as halt_so, Len as len_so, Gets as gets_so, For as for_so, While as while_so, Request as request_so};
ghost use Rattle.value.specs.Values.{known_at};
ghost use Rattle.board.specs.Outcomes.{outcome_of};
ghost use Rattle.board.specs.Work.{work_of};
ghost use Rattle.rules.specs.Visits.{Fitted, Ready, ruled, awaits, visit_changed};

use crate::plain::{done, numbered, plain};
use crate::visit::{Visit, Visited, WAITING};
use board::Board;
use feed::Feed;
use meaning::Stop;
use value::{End, Memo};

impl<'a, F: Feed> Visit<'a, F> {
    // The number of an expression for the duty, or none where it is not yet known.
    fn number(&self, board: &Board, memo: &mut Memo, e: u16) -> Option<i64>
        requires { Fitted self.now.sheet.now (work_of board.now) }
        ensures { result ≡ known_at self.now.sheet.now.tables.expressions.items (work_of board.now).known ((work_of board.now).ends self.now.duty.span) e }
    {
        board.known_number(self.sheet, self.duty.span, e, memo)
    }

    // `is`: the variable takes the number of the expression.
    pub(crate) fn is_rule(
        &self,
        board: &mut Board,
        memo: &mut Memo,
        x: u16,
        e: u16,
    ) -> Result<Visited, Stop>
        requires variable { x < vec_len self.now.sheet.now.tables.variables }
        requires ready { Ready self.now (work_of board.old) }
        ensures visited { outcome_of (visit_changed result) (work_of board.new) ≡ ruled F.Feed.readings self.now (is_so x e) (work_of board.old) }
        ensures done { IfOk result (λ v. v.done ≡ not (awaits F.Feed.readings self.now (is_so x e) (work_of board.old))) }
    {
        let Some(v) = self.number(board, memo, e) else {
            return Ok(WAITING);
        };
        done(board.give(self.sheet, self.duty.statement, x, v))
    }

    // `if`: the chosen part is added.
    pub(crate) fn if_rule(
        &self,
        board: &mut Board,
        memo: &mut Memo,
        e: u16,
        p: u16,
        q: u16,
    ) -> Result<Visited, Stop>
        requires ready { Ready self.now (work_of board.old) }
        ensures visited { outcome_of (visit_changed result) (work_of board.new) ≡ ruled F.Feed.readings self.now (if_so e p q) (work_of board.old) }
        ensures done { IfOk result (λ v. v.done ≡ not (awaits F.Feed.readings self.now (if_so e p q) (work_of board.old))) }
    {
        let Some(v) = self.number(board, memo, e) else {
            return Ok(WAITING);
        };
        let chosen = if v != 0 { p } else { q };
        done(board.add(plain(chosen, self.duty.span)))
    }

    // `halt`: by the number of its test.
    pub(crate) fn halt_when_known(
        &self,
        board: &mut Board,
        memo: &mut Memo,
        e: u16,
    ) -> Result<Visited, Stop>
        requires ready { Ready self.now (work_of board.old) }
        ensures visited { outcome_of (visit_changed result) (work_of board.new) ≡ ruled F.Feed.readings self.now (halt_so e) (work_of board.old) }
        ensures done { IfOk result (λ v. v.done ≡ not (awaits F.Feed.readings self.now (halt_so e) (work_of board.old))) }
    {
        let Some(v) = self.number(board, memo, e) else {
            return Ok(WAITING);
        };
        done(self.halt_rule(board, v))
    }

    // `len`: by its number, or by that of its expression.
    pub(crate) fn len_when_known(
        &self,
        board: &mut Board,
        memo: &mut Memo,
        e: u16,
    ) -> Result<Visited, Stop>
        requires ready { Ready self.now (work_of board.old) }
        ensures visited { outcome_of (visit_changed result) (work_of board.new) ≡ ruled F.Feed.readings self.now (len_so e) (work_of board.old) }
        ensures done { IfOk result (λ v. v.done ≡ not (awaits F.Feed.readings self.now (len_so e) (work_of board.old))) }
    {
        let Some(v) = self.duty.number.or_else(|| self.number(board, memo, e)) else {
            return Ok(WAITING);
        };
        done(self.len_rule(board, v))
    }

    // `gets`: the variable takes the number that was carried; or the number of the expression is carried, where the span is on.
    pub(crate) fn gets_when_known(
        &self,
        board: &mut Board,
        memo: &mut Memo,
        x: u16,
        e: u16,
    ) -> Result<Visited, Stop>
        requires variable { x < vec_len self.now.sheet.now.tables.variables }
        requires ready { Ready self.now (work_of board.old) }
        ensures visited { outcome_of (visit_changed result) (work_of board.new) ≡ ruled F.Feed.readings self.now (gets_so x e) (work_of board.old) }
        ensures done { IfOk result (λ v. v.done ≡ not (awaits F.Feed.readings self.now (gets_so x e) (work_of board.old))) }
    {
        if let Some(v) = self.duty.number {
            return done(board.give(self.sheet, self.duty.statement, x, v));
        }
        if board.end_of(self.duty.span) != End::On {
            return Ok(WAITING);
        }
        let Some(v) = self.number(board, memo, e) else {
            return Ok(WAITING);
        };
        done(self.gets_rule(board, v))
    }

    // `for`: by its count, or the `for` with the count that its expression gives.
    pub(crate) fn for_when_known(
        &self,
        board: &mut Board,
        memo: &mut Memo,
        e: u16,
        p: u16,
    ) -> Result<Visited, Stop>
        requires ready { Ready self.now (work_of board.old) }
        ensures visited { outcome_of (visit_changed result) (work_of board.new) ≡ ruled F.Feed.readings self.now (for_so e p) (work_of board.old) }
        ensures done { IfOk result (λ v. v.done ≡ not (awaits F.Feed.readings self.now (for_so e p) (work_of board.old))) }
    {
        if let Some(c) = self.duty.number {
            return done(self.for_rule(board, p, c));
        }
        let Some(v) = self.number(board, memo, e) else {
            return Ok(WAITING);
        };
        done(board.add(numbered(self.duty, v)))
    }

    // `while`: by the number of its test.
    pub(crate) fn while_when_known(
        &self,
        board: &mut Board,
        memo: &mut Memo,
        e: u16,
        p: u16,
    ) -> Result<Visited, Stop>
        requires ready { Ready self.now (work_of board.old) }
        ensures visited { outcome_of (visit_changed result) (work_of board.new) ≡ ruled F.Feed.readings self.now (while_so e p) (work_of board.old) }
        ensures done { IfOk result (λ v. v.done ≡ not (awaits F.Feed.readings self.now (while_so e p) (work_of board.old))) }
    {
        let Some(v) = self.number(board, memo, e) else {
            return Ok(WAITING);
        };
        done(self.while_rule(board, p, v))
    }

    // `request`: the variable takes the reading, where there is one.
    pub(crate) fn request_rule(&self, board: &mut Board, x: u16) -> Result<bool, Stop>
        requires variable { x < vec_len self.now.sheet.now.tables.variables }
        ensures { outcome_of result (work_of board.new) ≡ ruled F.Feed.readings self.now (request_so x) (work_of board.old) }
    {
        // `as` stays: Rust has no `From` from u32 to usize, and `try_from` would add an error that cannot come.
        let Some(v) = self.feed.reading(usize::from(x), self.state as usize) else {
            return Ok(false);
        };
        board.give(self.sheet, self.duty.statement, x, v)
    }
}
