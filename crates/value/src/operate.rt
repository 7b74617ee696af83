// What the parts of an expression make of the numbers that are known.
ghost use Rattle.std.specs.Prelude.{◌≡◌, ◌≤◌, unsigned_abs};
ghost use Rattle.value.specs.Values.{apply, negation, in_range, last_bit, within_range};

use crate::end::End;
use sheet::{Operator, Variable};

// What an operator makes of two numbers. They are small enough that nothing overflows.
pub(crate) fn applied(operator: Operator, x: i64, y: i64) -> i64
    requires { (unsigned_abs x ≤ 1000000000) × (unsigned_abs y ≤ 1000000000) }
    ensures { result ≡ apply operator x y }
{
    match operator {
        Operator::Add => x + y,
        Operator::Sub => x - y,
        Operator::Mul => x * y,
        Operator::Eq => i64::from(x == y),
        Operator::Lt => i64::from(x < y),
        Operator::Both => i64::from(x != 0 && y != 0),
        Operator::Either => i64::from(x != 0 || y != 0),
    }
}

// 1 for 0 and 0 for any other number.
pub(crate) fn negated(x: i64) -> i64
    ensures { result ≡ negation x }
{
    i64::from(x == 0)
}

// The number of `last`, where the end is known.
pub(crate) fn ended(end: End) -> Option<i64>
    ensures { result ≡ last_bit end }
{
    match end {
        End::Unknown => None,
        End::On => Some(0),
        End::Last => Some(1),
    }
}

// Whether a number lies in a variable's range. Two comparisons, since with `contains` of the range the proof does not close.
pub fn in_range(variable: Variable, number: i64) -> bool
    ensures { result ≡ in_range variable number }
{
    i64::from(variable.low) <= number && number <= i64::from(variable.high)
}

// The value, where there is one and it lies in the variable's range.
pub(crate) fn within_range(variable: Variable, value: Option<i64>) -> Option<i64>
    ensures { result ≡ within_range variable value }
{
    value.filter(|z| in_range(variable, *z))
}
