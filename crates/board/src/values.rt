// The numbers of variables and expressions.
ghost use Rattle.std.specs.Prelude.{◌≡◌, ℕ, ◌<◌, ℤ, vec_len, Option as Maybe};
ghost use Rattle.value.specs.Values.{known_at};
ghost use Rattle.sheet.specs.Content.{variable_at};
ghost use Rattle.meaning.specs.Intervals.{under};
ghost use Rattle.meaning.specs.WellFormed.{FitSays};
ghost use Rattle.meaning.specs.Effects.{give as giving};
ghost use Rattle.board.specs.Outcomes.{outcome_of};
ghost use Rattle.board.specs.Work.{work_of};
ghost use Rattle.sheet.specs.ContentOf.{content_of};

use crate::board::Board;
use meaning::Stop;
use sheet::Sheet;
use value::{Memo, Pending};

impl Board {
    // Gives a variable of the sheet its number. A contradiction is placed at `place`.
    pub fn give(
        &mut self,
        sheet: &Sheet,
        place: u16,
        variable: u16,
        number: i64,
    ) -> Result<bool, Stop>
        requires { variable < vec_len sheet.now.tables.variables }
        ensures { (f : ℕ → ℕ → Maybe ℤ) → outcome_of result (work_of self.new) ≡ giving (under (content_of sheet.now) f) place variable number (work_of self.old) }
    {
        let x = usize::from(variable);
        match self.values[x] {
            Some(held) if held == number => Ok(false),
            None if value::in_range(sheet.tables.variables[x], number) => {
                self.values[x] = Some(number);
                Ok(true)
            }
            _ => Err(Stop::Contradiction(place)),
        }
    }

    // The number of an expression on the span with this serial, or none where it is not yet known.
    pub fn known_number(
        &self,
        sheet: &Sheet,
        serial: u32,
        expression: u16,
        memo: &mut Memo,
    ) -> Option<i64>
        requires { (f : ℕ → ℕ → Maybe ℤ) (x : ℕ) → FitSays (under (content_of sheet.now) f) x ((work_of self.now).known x) }
        ensures { result ≡ known_at sheet.now.tables.expressions.items (work_of self.now).known ((work_of self.now).ends serial) expression }
    {
        // The end is looked up only where the number turns on more than the values.
        match value::evaluate_at_once(sheet, &self.values, expression) {
            Ok(z) => Some(z),
            Err(Pending::Unknown) => None,
            Err(Pending::More) => {
                value::evaluate(sheet, &self.values, self.end_of(serial), expression, memo)
            }
        }
    }
}
