// The rules that open a span.
ghost use Rattle.std.specs.Prelude.{◌≡◌};
ghost use Rattle.sheet.specs.declared.elements.Statement.TheVariants.{Chop as chop_so};
ghost use Rattle.meaning.specs.Rules.{for_rule, while_rule};
ghost use Rattle.board.specs.Outcomes.{outcome_of};
ghost use Rattle.board.specs.Work.{work_of};
ghost use Rattle.rules.specs.Visits.{Ready, ruled};

use crate::plain::{numbered, plain};
use crate::visit::Visit;
use board::Board;
use feed::Feed;
use meaning::{Opening, Stop};
use value::End;

impl<'a, F: Feed> Visit<'a, F> {
    // `chop`: a span for its first part, and the second follows.
    pub(crate) fn chop_rule(&self, board: &mut Board, p: u16, q: u16) -> Result<bool, Stop>
        ensures { outcome_of result (work_of board.new) ≡ ruled F.Feed.readings self.now (chop_so p q) (work_of board.old) }
    {
        board.open(Opening {
            by: self.duty.statement,
            body: p,
            starts: End::Unknown,
            follower: plain(q, self.duty.span),
        })
    }

    // `for` with this many rounds to go.
    pub(crate) fn for_rule(&self, board: &mut Board, p: u16, number: i64) -> Result<bool, Stop>
        requires { Ready self.now (work_of board.old) }
        ensures { outcome_of result (work_of board.new) ≡ for_rule self.now.duty p number (work_of board.old) }
    {
        if number <= 0 {
            return board.put(self.duty.statement, End::Last, self.duty.span);
        }
        board.open(Opening {
            by: self.duty.statement,
            body: p,
            starts: End::Unknown,
            follower: numbered(self.duty, number - 1),
        })
    }

    // `while`, whose test has this number.
    pub(crate) fn while_rule(&self, board: &mut Board, p: u16, number: i64) -> Result<bool, Stop>
        requires { Ready self.now (work_of board.old) }
        ensures { outcome_of result (work_of board.new) ≡ while_rule self.now.duty p number (work_of board.old) }
    {
        if number == 0 {
            return board.put(self.duty.statement, End::Last, self.duty.span);
        }
        board.open(Opening {
            by: self.duty.statement,
            body: p,
            starts: End::On,
            follower: plain(self.duty.statement, self.duty.span),
        })
    }
}
