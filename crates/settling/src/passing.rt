// Passes until one changes nothing.
ghost use Rattle.std.specs.Prelude.{◌≡◌, OnOk};
ghost use Rattle.meaning.specs.Intervals.{under};
ghost use Rattle.meaning.specs.WellFormed.{WellFormed};
ghost use Rattle.meaning.specs.Passes.{pass, Settles};
ghost use Rattle.board.specs.Outcomes.{outcome_of};
ghost use Rattle.board.specs.Work.{work_of};
ghost use Rattle.sheet.specs.ContentOf.{content_of};
ghost use Rattle.settling.specs.Passing.{setting_of, rested};
ghost use Rattle.settling.specs.Skipped.{Skipped, SkippedSpans};

use crate::pass::Pass;
use crate::skips::{Skips, clear};
use board::{Board, afterwards};
use feed::Feed;
use meaning::Stop;
use sheet::Sheet;
use value::Memo;

// Settles a state: passes repeat until one changes nothing, or one stops.
pub fn settle<F: Feed>(
    board: &mut Board,
    sheet: &Sheet,
    feed: &F,
    memo: &mut Memo,
    skips: &mut Skips,
    state: u32,
) -> Result<(), Stop>
    requires { WellFormed (under (content_of sheet.now) (F.Feed.readings feed.now)) (work_of board.old) }
    ensures settles { Settles (under (content_of sheet.now) (F.Feed.readings feed.now)) state (work_of board.old) (rested result (work_of board.new)) }
    ensures well_formed { OnOk result (WellFormed (under (content_of sheet.now) (F.Feed.readings feed.now)) (work_of board.new)) }
{
    let pass = Pass { sheet, feed, state };
    clear(&mut skips.duties);
    clear(&mut skips.spans);
    while pass.visit_both(board, memo, skips)? {}
    Ok(())
}

impl<'a, F: Feed> Pass<'a, F> {
    // One pass: the duties from first to last, and then the spans in the order of opening.
    fn visit_both(
        &self,
        board: &mut Board,
        memo: &mut Memo,
        skips: &mut Skips,
    ) -> Result<bool, Stop>
        requires well_formed { WellFormed (setting_of F.Feed.readings self.now) (work_of board.old) }
        requires skipped { Skipped (setting_of F.Feed.readings self.now) self.now.state (work_of board.old) skips.old.duties.items }
        requires skipped_spans { SkippedSpans (work_of board.old) skips.old.spans.items }
        ensures visited { outcome_of result (work_of board.new) ≡ pass (setting_of F.Feed.readings self.now) self.now.state (work_of board.old) }
        ensures skipped { OnOk result (Skipped (setting_of F.Feed.readings self.now) self.now.state (work_of board.new) skips.new.duties.items) }
        ensures skipped_spans { OnOk result (SkippedSpans (work_of board.new) skips.new.spans.items) }
    {
        let changed = self.visit_duties(board, memo, &mut skips.duties)?;
        afterwards(changed, self.visit_spans(board, memo, &mut skips.spans))
    }
}
