// Sums of values.
ghost use Rattle.std.specs.Prelude.{◌≡◌, ◌+ℤ◌, ◌-ℤ◌, ◌*ℤ◌, neg_ℤ};
ghost use Rattle.pg_eval.specs.Seen.{seen};
ghost use Rattle.pg_eval.specs.Values.{of_whole, of_wholes};

use crate::value::Value;

pub fn sum(left: Value, right: Value) -> Value<'static>
    ensures { seen result ≡ of_wholes ◌+ℤ◌ (seen left.entry) (seen right.entry) }
{
    match (left, right) {
        (Value::Whole(a), Value::Whole(b)) => match a.checked_add(b) {
            Some(sum) => Value::Whole(sum),
            None => Value::Unknown,
        },
        _ => Value::Unknown,
    }
}

pub fn difference(left: Value, right: Value) -> Value<'static>
    ensures { seen result ≡ of_wholes ◌-ℤ◌ (seen left.entry) (seen right.entry) }
{
    match (left, right) {
        (Value::Whole(a), Value::Whole(b)) => match a.checked_sub(b) {
            Some(difference) => Value::Whole(difference),
            None => Value::Unknown,
        },
        _ => Value::Unknown,
    }
}

pub fn product(left: Value, right: Value) -> Value<'static>
    ensures { seen result ≡ of_wholes ◌*ℤ◌ (seen left.entry) (seen right.entry) }
{
    match (left, right) {
        (Value::Whole(a), Value::Whole(b)) => match a.checked_mul(b) {
            Some(product) => Value::Whole(product),
            None => Value::Unknown,
        },
        _ => Value::Unknown,
    }
}

pub fn positive(value: Value) -> Value<'static>
    ensures { seen result ≡ of_whole (λ number. number) (seen value.entry) }
{
    match value {
        Value::Whole(number) => Value::Whole(number),
        _ => Value::Unknown,
    }
}

pub fn negative(value: Value) -> Value<'static>
    ensures { seen result ≡ of_whole neg_ℤ (seen value.entry) }
{
    match value {
        Value::Whole(number) => match number.checked_neg() {
            Some(negative) => Value::Whole(negative),
            None => Value::Unknown,
        },
        _ => Value::Unknown,
    }
}
