// Comparisons of values.
ghost use Rattle.std.specs.Prelude.{◌≡◌};
ghost use Rattle.pg_eval.specs.Seen.{seen};
ghost use Rattle.pg_eval.specs.Values.{compare, between, sameness_compares, whole_compares};

use crate::tri::Tri;
use crate::value::Value;
use pg_parse::Op;

fn wholes(op: Op, left: i64, right: i64) -> bool
    ensures { result ≡ whole_compares op left right }
{
    match op {
        Op::Equal => left == right,
        Op::Unequal => left != right,
        Op::Less => left < right,
        Op::LessEqual => left <= right,
        Op::Greater => left > right,
        Op::GreaterEqual => left >= right,
    }
}

// What the comparison says of two texts or truths, from whether they are the same.
fn sameness(op: Op, same: bool) -> bool
    ensures { result ≡ sameness_compares op same }
{
    match op {
        Op::Equal => same,
        Op::Unequal => !same,
        _ => false,
    }
}

pub fn compared(op: Op, left: Value, right: Value) -> Tri
    ensures { result ≡ compare op (seen left.entry) (seen right.entry) }
{
    match (left, right) {
        (Value::Unknown, _) | (_, Value::Unknown) => Tri::Unknown,
        (Value::Whole(a), Value::Whole(b)) => Tri::known(wholes(op, a, b)),
        (Value::Text(a), Value::Text(b)) => Tri::known(sameness(op, a == b)),
        (Value::Truth(a), Value::Truth(b)) => Tri::known(sameness(op, a == b)),
        _ => Tri::No,
    }
}

pub fn within(value: Value, low: Value, high: Value) -> Tri
    ensures { result ≡ between (seen value.entry) (seen low.entry) (seen high.entry) }
{
    compared(Op::GreaterEqual, value, low).and(compared(Op::LessEqual, value, high))
}
