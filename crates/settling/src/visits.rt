// What a pass visits, and the visits from first to last.
ghost use Rattle.std.specs.Prelude.{◌≡◌, ℕ, suc, ◌≤◌, ◌<◌, true, false, List, length, Some as some, IfOk, OnOk};
ghost use Rattle.std.specs.List.{slice_get};
ghost use Rattle.meaning.specs.Intervals.{Setting};
ghost use Rattle.meaning.specs.WellFormed.{WellFormed, Extends};
ghost use Rattle.meaning.specs.Work.{Work, Outcome, goes};
ghost use Rattle.board.specs.Outcomes.{outcome_of};
ghost use Rattle.board.specs.Work.{work_of};
ghost use Rattle.rules.specs.Visits.{visit_changed};
ghost use Rattle.settling.specs.Walks.{visit_from, SkippedBy, Leaves};

use crate::skips::{lengthen, next_place};
use board::Board;
use meaning::Stop;
use rules::Visited;
use value::Memo;

// Visits to the items of one list of a state's work.
pub(crate) trait Visitor<T> {
    // In which settings the visits are.
    ghost within: { Self → Setting → Type 0 };

    // The list of a work.
    ghost items: { Work → List T };

    // The most items that it has.
    ghost most: { ℕ };

    // What the visit to an item makes of a work.
    ghost visited: { Self → T → Work → Outcome };

    // The item at a place, or none past the end.
    fn item(&self, board: &Board, place: usize) -> Option<T>
        ensures found { result ≡ slice_get (items (work_of board.now)) place }
        ensures few { length (items (work_of board.now)) ≤ most };

    // The visit to an item of the list. Once one is done, others in this state change nothing.
    fn visit(&self, board: &mut Board, memo: &mut Memo, item: T) -> Result<Visited, Stop>
        requires well_formed { (S : Setting) × within self.now S × WellFormed S (work_of board.old) }
        requires there { (i : ℕ) × (slice_get (items (work_of board.old)) i ≡ some item) }
        ensures visited { outcome_of (visit_changed result) (work_of board.new) ≡ visited self.now item (work_of board.old) }
        ensures leaves { OnOk result (Leaves (within self.now) (work_of board.old) (work_of board.new)) }
        ensures vain { IfOk result (λ r. r.done ≡ true → (v : Work) → Extends (work_of board.new) v → visited self.now item v ≡ goes v false) };

    // A skip over all of them fits.
    ghost small: { most < 65536 };

    // An item keeps its place, to the end of the state.
    ghost stays: { (w u : Work) → Extends w u → (i : ℕ) (t : T) → slice_get (items w) i ≡ some t → slice_get (items u) i ≡ some t };
}

// Visits to the items from first to last, to those that are added meanwhile too. Where an item is skipped the visit is left out, since it would change nothing.
pub(crate) fn visit_all<T: Copy, P: Visitor<T>>(
    pass: &P,
    board: &mut Board,
    memo: &mut Memo,
    skips: &mut [u16],
) -> Result<bool, Stop>
    requires well_formed { (S : Setting) × P.within pass.now S × WellFormed S (work_of board.old) }
    requires skipped { SkippedBy P.items (P.visited pass.now) (work_of board.old) skips.old }
    requires long { length skips.old ≡ suc P.most }
    ensures visited { outcome_of result (work_of board.new) ≡ visit_from P.items (P.visited pass.now) (suc P.most) 0 (work_of board.old) }
    ensures skipped { OnOk result (SkippedBy P.items (P.visited pass.now) (work_of board.new) skips.new) }
    ensures leaves { OnOk result (Leaves (P.within pass.now) (work_of board.old) (work_of board.new)) }
{
    let mut changed = false;
    let mut from = 0;
    // No `for` over the places: the list may grow, and only the list itself says that no item is left.
    let mut place = next_place(skips, from);
    while let Some(item) = pass.item(board, place) {
        let visit = pass.visit(board, memo, item)?;
        changed |= visit.changed;
        if visit.done {
            lengthen(skips, from, place);
        } else {
            from = place + 1;
        }
        place = next_place(skips, from);
    }
    Ok(changed)
}
