// Visits to the duties of a state.
ghost use Rattle.std.proofs.Common.{rules};
ghost use Rattle.std.specs.Prelude.{◌≡◌, length, OnOk};
ghost use Rattle.meaning.specs.WellFormed.{WellFormed};
ghost use Rattle.meaning.specs.Passes.{pass_fuel, visit_duties};
ghost use Rattle.meaning.specs.Rules.{visit};
ghost use Rattle.board.specs.Outcomes.{outcome_of};
ghost use Rattle.board.specs.Work.{work_of};
ghost use Rattle.settling.specs.Passing.{setting_of};
ghost use Rattle.settling.specs.Skipped.{Skipped};
ghost use Rattle.settling.specs.Walks.{Leaves};

use crate::pass::Pass;
use crate::visits::{Visitor, visit_all};
use board::Board;
use feed::Feed;
use meaning::{Duty, Stop};
use rules::Visited;
use value::Memo;

// A pass visits this state's duties.
impl<'a, F: Feed> Visitor<Duty> for Pass<'a, F> {
    // The sheet and the feed make the setting.
    ghost within = { λ p S. S ≡ setting_of F.Feed.readings p };

    ghost items = { λ w. w.duties };

    ghost most = { 512 };

    ghost visited = { λ p d. visit (setting_of F.Feed.readings p) p.state d };

    ghost small = { Prim.search rules };

    ghost stays = { λ w u l i t e. l.duties i t e };

    fn item(&self, board: &Board, place: usize) -> Option<Duty> {
        board.duty(place)
    }

    fn visit(&self, board: &mut Board, memo: &mut Memo, item: Duty) -> Result<Visited, Stop> {
        rules::visit_duty(board, self.sheet, self.feed, memo, self.state, item)
    }
}

impl<'a, F: Feed> Pass<'a, F> {
    // Visits to the duties from first to last, to those that are added meanwhile too.
    pub(crate) fn visit_duties(
        &self,
        board: &mut Board,
        memo: &mut Memo,
        skips: &mut [u16],
    ) -> Result<bool, Stop>
        requires well_formed { WellFormed (setting_of F.Feed.readings self.now) (work_of board.old) }
        requires skipped { Skipped (setting_of F.Feed.readings self.now) self.now.state (work_of board.old) skips.old }
        requires long { length skips.old ≡ 513 }
        ensures visited { outcome_of result (work_of board.new) ≡ visit_duties (setting_of F.Feed.readings self.now) self.now.state pass_fuel 0 (work_of board.old) }
        ensures skipped { OnOk result (Skipped (setting_of F.Feed.readings self.now) self.now.state (work_of board.new) skips.new) }
        ensures leaves { OnOk result (Leaves (λ S. S ≡ setting_of F.Feed.readings self.now) (work_of board.old) (work_of board.new)) }
    {
        visit_all::<Duty, Pass<'a, F>>(self, board, memo, skips)
    }
}
