// What a board holds, for those who visit and record it.
ghost use Rattle.std.specs.Prelude.{◌≡◌, ◌≤◌, is_none, take, if◌then◌else◌, None, Some};
ghost use Rattle.std.specs.List.{position, slice_get};
ghost use Rattle.meaning.specs.Runs.{all_ended, left_open, state_of};
ghost use Rattle.board.specs.Work.{work_of};

use crate::board::Board;
use meaning::{Duty, LeftOpen, Span};
use sheet::MOST_VARIABLES;
use value::End;

impl Board {
    // The duty at a place of this state's list, or none past its end.
    pub fn duty(&self, place: usize) -> Option<Duty>
        ensures { result ≡ slice_get (work_of self.now).duties place }
    {
        self.duties.get(place)
    }

    // The span at a place, in the order of opening, or none past the end.
    pub fn span(&self, place: usize) -> Option<Span>
        ensures { result ≡ slice_get (work_of self.now).spans place }
    {
        self.rows.get(place).map(|row| row.span)
    }

    // What a settled state of this many variables leaves open: its lowest unknown variable, or an end where only a span's end is unknown.
    pub fn left_open(&self, width: usize) -> Option<LeftOpen>
        requires { width ≤ 16 }
        ensures { result ≡ left_open width (work_of self.now) }
    {
        // `as` stays: the place is below 16, and `try_from` would add an error that cannot come.
        match self.lowest_unknown(width) {
            Some(x) => Some(LeftOpen::Variable(x as u16)),
            None if self.all_ended() => None,
            None => Some(LeftOpen::End),
        }
    }

    // The lowest variable without a number among the first of this many, or none.
    fn lowest_unknown(&self, width: usize) -> Option<usize>
        requires { width ≤ 16 }
        ensures { result ≡ position is_none (take width self.now.values) }
    {
        self.values[..width]
            .iter()
            .position(|value| value.is_none())
    }

    // Whether all ends of spans are known.
    fn all_ended(&self) -> bool
        ensures { result ≡ all_ended (work_of self.now).ends (work_of self.now).spans }
    {
        self.rows.iter().all(|row| row.end != End::Unknown)
    }

    // The numbers of the variables, with 0 for each that is unknown or not there.
    pub fn numbers(&self) -> [i64; MOST_VARIABLES]
        ensures { result ≡ state_of 16 (work_of self.now) }
    {
        let mut numbers = [0; MOST_VARIABLES];
        // No `map` of the array: it costs some 500 instructions more, since it hands all values out of one array and into another.
        for x in 0..MOST_VARIABLES {
            numbers[x] = self.values[x].unwrap_or(0);
        }
        numbers
    }
}
