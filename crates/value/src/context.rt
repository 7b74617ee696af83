// What an evaluation works with, and what it tells at once.
ghost use Rattle.std.specs.Prelude.{◌≡◌, ◌<◌, None, vec_len, slice_index_or};
ghost use Rattle.sheet.specs.declared.elements.Expression.TheVariants.{Last};
ghost use Rattle.value.specs.Evaluating.{partial_value, Agrees};
ghost use Rattle.value.specs.AtOnce.{more, asks};

use crate::end::{End, Pending};
use crate::operate::{applied, negated, within_range};
use sheet::{Expression, Sheet};

// A sheet and its variables' numbers as far as they are known.
#[derive(Clone, Copy)]
pub(crate) struct Valuation<'a> {
    pub(crate) sheet: &'a Sheet,
    pub(crate) values: &'a [Option<i64>],
}

// That, and what is known of the piece's end.
#[derive(Clone, Copy)]
pub(crate) struct EvaluationContext<'a> {
    pub(crate) known: Valuation<'a>,
    pub(crate) end: End,
}

impl<'a> Valuation<'a> {
    // The number of an expression that is there: at once, where none of its operands has operands, and none is `last`.
    pub(crate) fn at_once(&self, number: usize) -> Result<i64, Pending>
        requires there { number < vec_len self.now.sheet.now.tables.expressions }
        ensures { (end : End) → Agrees (partial_value self.now.sheet.now self.now.values.now end number) result }
    {
        match self.sheet.tables.expressions[number] {
            Expression::Pair(o, a, b) => {
                let x = self.leaf(usize::from(a))?;
                let y = self.leaf(usize::from(b))?;
                Ok(applied(o, x, y))
            }
            Expression::Not(a) => Ok(negated(self.leaf(usize::from(a))?)),
            _ => self.leaf(number),
        }
    }

    // The number of an expression that is there and has no operands. One with operands asks for more, and so does `last`, which turns on the end.
    pub(crate) fn leaf(&self, number: usize) -> Result<i64, Pending>
        requires there { number < vec_len self.now.sheet.now.tables.expressions }
        ensures told { (end : End) → Agrees (partial_value self.now.sheet.now self.now.values.now end number) result }
        ensures more { more result ≡ asks (slice_index_or self.now.sheet.now.tables.expressions.items number Last) }
    {
        match self.sheet.tables.expressions[number] {
            Expression::Num(c) => Ok(i64::from(c)),
            Expression::Val(x) => {
                let x = usize::from(x);
                within_range(self.sheet.tables.variables[x], value_at(self.values, x)).ok_or(
                    Pending::Unknown,
                )
            }
            Expression::Pair(_, _, _) | Expression::Not(_) | Expression::Last => Err(Pending::More),
        }
    }
}

// The value at `x`, or none past the end.
fn value_at(values: &[Option<i64>], x: usize) -> Option<i64>
    ensures { result ≡ slice_index_or values.now x None }
{
    values.get(x).copied().flatten()
}
