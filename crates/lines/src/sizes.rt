// The size of an expression.
ghost use Rattle.std.specs.Prelude.{◌≡◌, slice_index};
ghost use Rattle.sheet.specs.Content.{variable_at};
ghost use Rattle.sheet.specs.Sizes.{range_size, size_of, size};

use sheet::{Draft, Expression, Operator};

// How far from 0 the range of variable `x` reaches.
fn reach_at(draft: &Draft, x: u16) -> u32
    ensures { result ≡ range_size (variable_at draft.now.tables.variables.items x) }
{
    draft
        .tables
        .variables
        .get(usize::from(x))
        .map_or(0, |v| v.low.unsigned_abs().max(v.high.unsigned_abs()))
}

// The size of expression `k`.
fn size_at(draft: &Draft, k: u16) -> u32
    ensures { result ≡ slice_index draft.now.sizes.items k }
{
    draft.sizes.get(usize::from(k)).copied().unwrap_or(0)
}

// The size of a pair, from those of its operands.
fn pair_size(o: Operator, m: u32, n: u32) -> u64
    ensures { result ≡ size_of o m n }
{
    match o {
        Operator::Add | Operator::Sub => u64::from(m) + u64::from(n),
        Operator::Mul => u64::from(m) * u64::from(n),
        Operator::Eq | Operator::Lt | Operator::Both | Operator::Either => 1,
    }
}

// The size of an expression, from those of the expressions before it.
pub(crate) fn expression_size(draft: &Draft, e: Expression) -> u64
    ensures { result ≡ size draft.now.tables.variables.items draft.now.sizes.items e }
{
    match e {
        Expression::Num(c) => u64::from(c.unsigned_abs()),
        Expression::Val(x) => u64::from(reach_at(draft, x)),
        Expression::Pair(o, a, b) => pair_size(o, size_at(draft, a), size_at(draft, b)),
        Expression::Not(_) | Expression::Last => 1,
    }
}
