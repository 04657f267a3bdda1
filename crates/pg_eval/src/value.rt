// The value of an expression.
ghost use Rattle.std.specs.Prelude.{◌≡◌};
ghost use Rattle.pg_eval.specs.Seen.{seen};
ghost use Rattle.pg_eval.specs.Truth.{property_value};
ghost use Rattle.pg_eval.specs.Values.{tri_of, value_of};

use crate::tri::Tri;
use pg_msg::Value as PropertyValue;

/// What an expression has. A text is that of the tree or of the message.
#[derive(Clone, Copy)]
pub enum Value<'a> {
    Text(&'a str),
    Whole(i64),
    Truth(bool),
    Unknown,
}

impl<'a> Value<'a> {
    pub fn of_property(value: &'a PropertyValue) -> Value<'a>
        ensures { seen result ≡ property_value value.now }
    {
        match value {
            PropertyValue::Text(text) => Value::Text(text.as_str()),
            PropertyValue::Whole(number) => Value::Whole(*number),
            PropertyValue::Truth(truth) => Value::Truth(*truth),
        }
    }

    pub fn of_tri(tri: Tri) -> Value<'a>
        ensures { seen result ≡ value_of tri }
    {
        match tri {
            Tri::Yes => Value::Truth(true),
            Tri::No => Value::Truth(false),
            Tri::Unknown => Value::Unknown,
        }
    }

    // As what AND, OR, NOT and the filter itself take it.
    pub fn tri(self) -> Tri
        ensures { result ≡ tri_of (seen self.entry) }
    {
        match self {
            Value::Truth(truth) => Tri::known(truth),
            _ => Tri::Unknown,
        }
    }
}
