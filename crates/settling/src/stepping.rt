// From state to state.
ghost use Rattle.std.specs.Prelude.{◌≡◌, ◌+◌, ◌<◌, ◌≤◌, true, take, vec_len, [], IfOk, OnOk, OnErr, false};
ghost use Rattle.record.specs.Rules.{all_small};
ghost use Rattle.meaning.specs.Intervals.{under};
ghost use Rattle.meaning.specs.WellFormed.{WellFormed};
ghost use Rattle.meaning.specs.Passes.{Settles};
ghost use Rattle.meaning.specs.Runs.{begun, first_work, next_work, left_open, judged_by, Steps};
ghost use Rattle.meaning.specs.Work.{goes};
ghost use Rattle.board.specs.Work.{work_of};
ghost use Rattle.sheet.specs.ContentOf.{content_of};
ghost use Rattle.settling.specs.Stepped.{stepped};

use crate::passing::settle;
use crate::settled::SettledState;
use crate::settler::Settler;
use crate::skips::Skips;
use board::Board;
use feed::Feed;
use meaning::{LeftOpen, Stop};
use sheet::Sheet;
use std::alloc::{AllocError, Global};
use value::{End, Memo};

// What a settled state of this many variables comes to.
fn judged(board: &Board, width: usize) -> Result<SettledState, Stop>
    requires { width ≤ 16 }
    ensures { stepped width result (next_work (work_of board.now)) ≡ judged_by (left_open width (work_of board.now)) width (work_of board.now) }
{
    if let Some(left) = board.left_open(width) {
        return Err(Stop::Undetermined(left));
    }
    match board.end_of(0) {
        End::Unknown => Err(Stop::Undetermined(LeftOpen::End)),
        end => Ok(SettledState {
            numbers: board.numbers(),
            last: end == End::Last,
        }),
    }
}

// Settles the state whose work a board holds, and says what it comes to.
fn settle_state<F: Feed>(
    board: &mut Board,
    sheet: &Sheet,
    feed: &F,
    memo: &mut Memo,
    skips: &mut Skips,
    state: u32,
) -> Result<SettledState, Stop>
    requires { WellFormed (under (content_of sheet.now) (F.Feed.readings feed.now)) (work_of board.old) }
    ensures steps { Steps (under (content_of sheet.now) (F.Feed.readings feed.now)) state (work_of board.old) (stepped (vec_len sheet.now.tables.variables) result (next_work (work_of board.new))) }
    ensures settles { OnOk result (Settles (under (content_of sheet.now) (F.Feed.readings feed.now)) state (work_of board.old) (goes (work_of board.new) false)) }
    ensures fitting { IfOk result (λ x. all_small (take (vec_len sheet.now.tables.variables) x.numbers) ≡ true) }
{
    settle(board, sheet, feed, memo, skips, state)?;
    judged(board, sheet.tables.variables.len())
}

impl Settler {
    // A settler at state 0, with no duty. Nothing allocates after this.
    pub fn new(heap: Global) -> Result<Settler, AllocError>
        ensures work { IfOk result (λ s. work_of s.board ≡ begun [] [] 0) }
        ensures state { IfOk result (λ s. s.state ≡ 0) }
    {
        let board = Board::new(heap)?;
        let memo = Memo::new(heap)?;
        let skips = Skips::new(heap)?;
        Ok(Settler {
            board,
            memo,
            skips,
            state: 0,
        })
    }

    // Starts at state 0 with the statement that is run.
    pub fn begin(&mut self, run: u16)
        ensures work { work_of self.new.board ≡ first_work run }
        ensures state { self.new.state ≡ 0 }
    {
        self.board.begin(run);
        self.state = 0;
    }

    // The number of the next state, which is how many were settled.
    pub fn state(&self) -> u32
        ensures { result ≡ self.now.state }
    {
        self.state
    }

    // Settles the next state. After a stop it starts at state 0 again.
    pub fn step<F: Feed>(&mut self, sheet: &Sheet, feed: &F) -> Result<SettledState, Stop>
        requires { self.old.state < 65535 }
        ensures steps { Steps (under (content_of sheet.now) (F.Feed.readings feed.now)) self.old.state (work_of self.old.board) (stepped (vec_len sheet.now.tables.variables) result (work_of self.new.board)) }
        ensures counted { OnOk result (self.new.state ≡ self.old.state + 1) }
        ensures fitting { IfOk result (λ x. all_small (take (vec_len sheet.now.tables.variables) x.numbers) ≡ true) }
        ensures again { OnErr result ((work_of self.new.board ≡ first_work 0) × (self.new.state ≡ 0)) }
    {
        let settled = settle_state(
            &mut self.board,
            sheet,
            feed,
            &mut self.memo,
            &mut self.skips,
            self.state,
        );
        match settled {
            Ok(_) => {
                self.board.turn();
                self.state += 1;
            }
            // No `self.begin(0)`: a method counts on a board that is ready, and after a stop it may not be.
            Err(_) => {
                self.board.begin(0);
                self.state = 0;
            }
        }
        settled
    }
}
