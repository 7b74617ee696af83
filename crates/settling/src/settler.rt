// The memory that settles states.
ghost use Rattle.std.specs.Prelude.{◌≡◌, ◌+◌, ◌*◌, ◌≤◌, true};
ghost use Rattle.board.specs.Work.{store};
ghost use Rattle.settling.specs.Ready.{ready};

use crate::skips::Skips;
use board::Board;
use value::Memo;

// Settles states one after another. All memory is reserved when it is made.
#[derive(Drop)]
pub struct Settler {
    pub(crate) board: Board,
    pub(crate) memo: Memo,
    pub(crate) skips: Skips,
    // the number of the next state
    pub(crate) state: u32,
    ghost ready: { ready (store board) ≡ true },
    ghost few_serials: { board.next ≤ 64 * state + 1 },
}
