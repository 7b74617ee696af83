// What a run starts with, and the laws of settling.
ghost use Rattle.std.specs.Prelude.{◌≡◌, ◌+◌};
ghost use Rattle.meaning.specs.Work.{plain};
ghost use Rattle.meaning.specs.Passes.{pass_fuel};
ghost use Rattle.meaning.specs.AnyOrder.{OrderMakesNoDifference};
ghost use Rattle.meaning.specs.Laws.{SettlingEnds, FinishedIsTheOne, OpenBeginsAll, ContradictionLeavesNone, EqualRunsAgree, FuelSuffices};

use crate::duties::Duty;

// The duty that state 0 of every run starts with: the statement that is run, owed by the whole interval.
// What comes of it keeps these laws.
pub fn first_duty(run: u16) -> Duty
    ensures duty { result ≡ plain run 0 }
    ensures ends { SettlingEnds }
    ensures one { FinishedIsTheOne }
    ensures begins { OpenBeginsAll }
    ensures none { ContradictionLeavesNone }
    ensures agree { EqualRunsAgree }
    ensures order { OrderMakesNoDifference }
{
    Duty {
        statement: run,
        number: None,
        span: 0,
    }
}

// The most visits to duties that a pass ever makes.
pub fn most_visits() -> usize
    ensures visits { result + 1 ≡ pass_fuel }
    ensures suffices { FuelSuffices }
{
    512
}
