// From one state to the next.
ghost use Rattle.std.specs.Prelude.{◌≡◌, ◌+◌, ◌<◌, ◌≤◌, ◌++◌, replicate, vec_len, vec_capacity};
ghost use Rattle.meaning.specs.Runs.{first_work, next_work};
ghost use Rattle.board.specs.Work.{work_of};
ghost use Rattle.board.specs.Store.{kept_rows};

use crate::board::Board;
use crate::places::hint_moved;
use crate::row::Row;
use meaning::Span;
use sheet::MOST_VARIABLES;
use value::End;

// Forgets all numbers: as a state begins, no variable has one.
fn forget_values(values: &mut [Option<i64>; MOST_VARIABLES])
    ensures { values.new ≡ replicate MOST_VARIABLES None }
{
    *values = [None; MOST_VARIABLES];
}

// Drops the spans that do not go on. Those that do are no longer fresh, and their ends are unknown.
fn keep_rows(rows: &mut Vec<Row>)
    ensures items { rows.new.items ≡ kept_rows rows.old.items }
    ensures fewer { vec_len rows.new ≤ vec_len rows.old }
    ensures space { vec_capacity rows.new ≡ vec_capacity rows.old }
{
    rows.retain_mut(|row| {
        let goes_on = row.end == End::On;
        row.span.fresh = false;
        row.end = End::Unknown;
        goes_on
    });
}

impl Board {
    // Goes on to the next state. The two lists of duties trade places; no duty is moved.
    pub fn turn(&mut self)
        requires { self.old.next ≤ 4200000 }
        ensures { work_of self.new ≡ next_work (work_of self.old) }
    {
        forget_values(&mut self.values);
        std::mem::swap(&mut self.duties, &mut self.carried);
        self.carried.clear();
        let before = self.rows.len();
        keep_rows(&mut self.rows);
        hint_moved(&mut self.hints, &self.rows, before);
        self.base = self.next;
    }

    // Starts state 0 of a run of this statement.
    pub fn begin(&mut self, run: u16)
        ensures { work_of self.new ≡ first_work run }
    {
        forget_values(&mut self.values);
        self.duties.clear();
        self.carried.clear();
        self.rows.clear();
        self.duties.push(meaning::first_duty(run));
        self.rows.push_reserved(Row {
            span: Span {
                serial: 0,
                opening: None,
                fresh: false,
            },
            end: End::Unknown,
        });
        self.next = 1;
        self.base = 1;
    }
}
