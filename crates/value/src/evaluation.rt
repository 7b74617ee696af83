// The number of an expression.
ghost use Rattle.std.specs.Prelude.{◌≡◌, ℕ, ◌<◌, vec_len};
ghost use Rattle.value.specs.Evaluating.{partial_value, Agrees, TotalWhenKnown, WithinBound};
ghost use Rattle.value.specs.AtOnce.{partial_value_in};
ghost use Rattle.value.specs.Memory.{AllRight};

use crate::context::{EvaluationContext, Valuation};
use crate::end::{End, Pending};
use crate::memo::Memo;
use crate::operate::{applied, ended, negated};
use sheet::{Expression, Sheet};

// The number of expression `number` of `sheet`, or none where it is not yet known.
// `values` has the variables' numbers as far as they are known, and `end` says what is known of the piece's end.
// `evaluate_at_once` is faster where it tells the number, and is asked first.
pub fn evaluate(
    sheet: &Sheet,
    values: &[Option<i64>],
    end: End,
    number: u16,
    memo: &mut Memo,
) -> Option<i64>
    ensures answer { result ≡ partial_value sheet.now values.now end number }
    ensures total { TotalWhenKnown sheet.now values.now end number result }
    ensures bound { WithinBound 1000000000 result }
{
    let place = usize::from(number);
    if place >= sheet.tables.expressions.len() {
        return Some(0);
    }
    memo.seen[0..place + 1].fill(false);
    let known = Valuation { sheet, values };
    worked(&EvaluationContext { known, end }, place, memo)
}

// The number of expression `number` of `sheet` where it is told at once, so that neither the end nor the memory is needed.
// Where more must be asked, `evaluate` has the number.
pub fn evaluate_at_once(sheet: &Sheet, values: &[Option<i64>], number: u16) -> Result<i64, Pending>
    ensures { (end : End) → Agrees (partial_value sheet.now values.now end number) result }
{
    let place = usize::from(number);
    if place >= sheet.tables.expressions.len() {
        return Ok(0);
    }
    Valuation { sheet, values }.at_once(place)
}

// The number of an expression that is there: as it is kept, or worked out.
#[cycle(working)]
fn operand(scene: &EvaluationContext, number: usize, memo: &mut Memo) -> Option<i64>
    requires there { number < vec_len scene.now.known.sheet.now.tables.expressions }
    requires right { AllRight (partial_value_in scene.now) number memo.old }
    ensures answer { result ≡ partial_value_in scene.now number }
    ensures right { (n : ℕ) → AllRight (partial_value_in scene.now) n memo.old → AllRight (partial_value_in scene.now) n memo.new }
{
    if memo.seen[number] {
        return Some(memo.numbers[number]);
    }
    worked(scene, number, memo)
}

// Works out the number of an expression that is there, and keeps it where the expression has operands.
// An operation with an unknown operand is unknown, so the first unknown ends the whole evaluation.
// So each number that is kept is a known one, and no operation is worked out twice.
#[cycle(working)]
fn worked(scene: &EvaluationContext, number: usize, memo: &mut Memo) -> Option<i64>
    requires there { number < vec_len scene.now.known.sheet.now.tables.expressions }
    requires right { AllRight (partial_value_in scene.now) number memo.old }
    ensures answer { result ≡ partial_value_in scene.now number }
    ensures right { (n : ℕ) → AllRight (partial_value_in scene.now) n memo.old → AllRight (partial_value_in scene.now) n memo.new }
{
    let z = match scene.known.sheet.tables.expressions[number] {
        Expression::Pair(o, a, b) => {
            let x = operand(scene, usize::from(a), memo)?;
            let y = operand(scene, usize::from(b), memo)?;
            applied(o, x, y)
        }
        Expression::Not(a) => negated(operand(scene, usize::from(a), memo)?),
        Expression::Last => return ended(scene.end),
        _ => return scene.known.leaf(number).ok(),
    };
    memo.seen[number] = true;
    memo.numbers[number] = z;
    Some(z)
}
