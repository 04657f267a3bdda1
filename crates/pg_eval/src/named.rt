// The value of a property, and the tests of one.
ghost use Rattle.std.specs.Prelude.{◌≡◌, is_none};
ghost use Rattle.std.specs.List.{list_any};
ghost use Rattle.std.specs.Option.{option_copied};
ghost use Rattle.std.specs.Str.{bytes_eq};
ghost use Rattle.pg_eval.specs.Seen.{seen};
ghost use Rattle.pg_eval.specs.Truth.{first_named, named};
ghost use Rattle.pg_eval.specs.Values.{is_in, matches_pattern};

use crate::tri::Tri;
use crate::value::Value;
use pg_bytes::Text;
use pg_like::like;
use pg_msg::Property;
use pg_parse::Texts;

// The first property of that name.
fn first<'a>(name: &Text, properties: &'a [Property]) -> Option<&'a Property>
    ensures { option_copied result ≡ first_named name.now properties.now }
{
    properties.iter().find(|property| property.name == *name)
}

pub fn value_named<'a>(name: &Text, properties: &'a [Property]) -> Value<'a>
    ensures { seen result ≡ named name.now properties.now }
{
    match first(name, properties) {
        Some(property) => Value::of_property(&property.value),
        None => Value::Unknown,
    }
}

pub fn is_missing(name: &Text, properties: &[Property]) -> bool
    ensures { result ≡ is_none (first_named name.now properties.now) }
{
    first(name, properties).is_none()
}

fn is_one_of(text: &str, texts: &Texts) -> bool
    ensures { result ≡ list_any (bytes_eq text.now) texts.now }
{
    texts.as_slice().iter().any(|other| text == other.as_str())
}

pub fn listed(value: Value, texts: &Texts) -> Tri
    ensures { result ≡ is_in (seen value.entry) texts.now }
{
    match value {
        Value::Text(text) => Tri::known(is_one_of(text, texts)),
        Value::Unknown => Tri::Unknown,
        _ => Tri::No,
    }
}

pub fn fitting(value: Value, pattern: &Text, escape: Option<char>) -> Tri
    ensures { result ≡ matches_pattern (seen value.entry) pattern.now escape }
{
    match value {
        Value::Text(text) => Tri::known(like(text, pattern.as_str(), escape)),
        Value::Unknown => Tri::Unknown,
        _ => Tri::No,
    }
}
