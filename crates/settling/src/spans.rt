// Visits to the spans of a state.
ghost use Rattle.std.proofs.Common.{rules};
ghost use Rattle.std.specs.Prelude.{◌≡◌, length, OnOk};
ghost use Rattle.std.specs.Bool.{⊤};
ghost use Rattle.meaning.specs.Intervals.{Setting};
ghost use Rattle.meaning.specs.WellFormed.{WellFormed};
ghost use Rattle.meaning.specs.Passes.{visit_spans};
ghost use Rattle.meaning.specs.Rules.{visit_span};
ghost use Rattle.board.specs.Outcomes.{outcome_of};
ghost use Rattle.board.specs.Work.{work_of};
ghost use Rattle.settling.specs.Skipped.{SkippedSpans};
ghost use Rattle.settling.specs.Walks.{Leaves};

use crate::pass::Pass;
use crate::visits::{Visitor, visit_all};
use board::Board;
use feed::Feed;
use meaning::{Span, Stop};
use rules::Visited;
use value::Memo;

// A pass visits the spans that run.
impl<'a, F: Feed> Visitor<Span> for Pass<'a, F> {
    // A visit to a span is the same in each setting.
    ghost within = { λ p S. ⊤ };

    ghost items = { λ w. w.spans };

    ghost most = { 64 };

    ghost visited = { λ p t. visit_span t };

    ghost small = { Prim.search rules };

    ghost stays = { λ w u l i t e. l.spans i t e };

    fn item(&self, board: &Board, place: usize) -> Option<Span> {
        board.span(place)
    }

    fn visit(&self, board: &mut Board, _memo: &mut Memo, item: Span) -> Result<Visited, Stop> {
        rules::visit_span(board, item)
    }
}

impl<'a, F: Feed> Pass<'a, F> {
    // Visits to the spans in the order of opening.
    pub(crate) fn visit_spans(
        &self,
        board: &mut Board,
        memo: &mut Memo,
        skips: &mut [u16],
    ) -> Result<bool, Stop>
        requires well_formed { (S : Setting) × WellFormed S (work_of board.old) }
        requires skipped { SkippedSpans (work_of board.old) skips.old }
        requires long { length skips.old ≡ 65 }
        ensures visited { outcome_of result (work_of board.new) ≡ visit_spans (work_of board.old).spans (work_of board.old) }
        ensures skipped { OnOk result (SkippedSpans (work_of board.new) skips.new) }
        ensures leaves { OnOk result (Leaves (λ S. ⊤) (work_of board.old) (work_of board.new)) }
    {
        visit_all::<Span, Pass<'a, F>>(self, board, memo, skips)
    }
}
