// The buckets in which duties and openings are looked for.
ghost use Rattle.std.specs.Prelude.{◌≡◌};
ghost use Rattle.board.specs.Buckets.{bucket, opened_in};

use meaning::{Duty, Span};

// How many buckets there are.
pub(crate) const BUCKETS: usize = 2048;

// The bucket of a duty. Each of its three parts counts; any other function of it would be as right.
pub(crate) fn bucket(duty: &Duty) -> usize
    ensures { result ≡ bucket duty.now }
{
    // The number's last bits: to make it positive first would cost more.
    let number = duty.number.unwrap_or(0).cast_unsigned() % BUCKETS as u64;
    let sum = u64::from(duty.statement) * 67 + u64::from(duty.span) * 643 + number;
    // `as` stays: the rest is below 2048, and `try_from` would add an error that cannot come.
    (sum % BUCKETS as u64) as usize
}

// The bucket of the duty that follows a span, if the span was opened in this state.
pub(crate) fn opened_in(span: &Span) -> Option<usize>
    ensures { result ≡ opened_in span.now }
{
    match span.opening {
        Some(opening) if span.fresh => Some(bucket(&opening.follower)),
        _ => None,
    }
}
