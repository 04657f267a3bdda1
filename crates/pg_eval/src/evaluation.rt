// The value of a tree.
ghost use Rattle.std.specs.Prelude.{◌≡◌};
ghost use Rattle.std.specs.Option.{option_copied};
ghost use Rattle.pg_eval.specs.Seen.{seen};
ghost use Rattle.pg_eval.specs.Truth.{is_match, truth_of, value};
ghost use Rattle.pg_eval.specs.Values.{tri_of};

use crate::comparison::{compared, within};
use crate::named::{fitting, is_missing, listed, value_named};
use crate::sums::{difference, negative, positive, product, sum};
use crate::tri::Tri;
use crate::value::Value;
use pg_msg::Property;
use pg_parse::Tree;
use sqlite_items::Boxed;

/// The truth of the filter for a message with these properties. Takes no memory. Goes as deep as the tree is.
pub fn eval(tree: &Tree, properties: &[Property]) -> Tri
    ensures { result ≡ truth_of properties.now tree.now }
{
    value_of(tree, properties).tri()
}

/// Whether a message with these properties matches the filter. Without a filter each one does.
pub fn matches(filter: Option<&Tree>, properties: &[Property]) -> bool
    ensures { result ≡ is_match properties.now (option_copied filter.entry) }
{
    match filter {
        Some(tree) => eval(tree, properties) == Tri::Yes,
        None => true,
    }
}

#[cycle(values)]
fn value_of<'a>(tree: &'a Tree, properties: &'a [Property]) -> Value<'a>
    ensures { seen result ≡ value properties.now tree.now }
{
    match tree {
        Tree::Or(a, b) => Value::of_tri(tri_in(a, properties).or(tri_in(b, properties))),
        Tree::And(a, b) => Value::of_tri(tri_in(a, properties).and(tri_in(b, properties))),
        Tree::Not(a) => Value::of_tri(tri_in(a, properties).inverted()),
        Tree::In(name, texts) => Value::of_tri(listed(value_named(name, properties), texts)),
        Tree::Like(name, pattern, escape) => {
            Value::of_tri(fitting(value_named(name, properties), pattern, *escape))
        }
        Tree::IsNull(name) => Value::Truth(is_missing(name, properties)),
        Tree::Between(x, low, high) => Value::of_tri(within(
            value_in(x, properties),
            value_in(low, properties),
            value_in(high, properties),
        )),
        Tree::Compare(op, a, b) => {
            Value::of_tri(compared(*op, value_in(a, properties), value_in(b, properties)))
        }
        Tree::Plus(a, b) => sum(value_in(a, properties), value_in(b, properties)),
        Tree::Minus(a, b) => difference(value_in(a, properties), value_in(b, properties)),
        Tree::Times(a, b) => product(value_in(a, properties), value_in(b, properties)),
        Tree::Positive(a) => positive(value_in(a, properties)),
        Tree::Negative(a) => negative(value_in(a, properties)),
        Tree::Name(name) => value_named(name, properties),
        Tree::Whole(number) => Value::Whole(*number),
        Tree::Text(text) => Value::Text(text.as_str()),
        Tree::Truth(truth) => Value::Truth(*truth),
    }
}

// The value of a part.
#[cycle(values)]
fn value_in<'a>(tree: &'a Boxed<Tree>, properties: &'a [Property]) -> Value<'a>
    ensures { seen result ≡ value properties.now tree.now }
{
    value_of(tree.get(), properties)
}

// A part as what AND, OR and NOT take it.
#[cycle(values)]
fn tri_in(tree: &Boxed<Tree>, properties: &[Property]) -> Tri
    ensures { result ≡ tri_of (value properties.now tree.now) }
{
    value_of(tree.get(), properties).tri()
}
