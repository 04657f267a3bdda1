// A message with properties of each kind.
use pg_bytes::Text;
use pg_msg::{Properties, Property, Value};
use std::alloc::{AllocError, Global};

const TEXTS: [(&str, &str); 6] = [
    ("t", "x"),
    ("u", "y"),
    ("color", "red"),
    ("part", "r_1"),
    ("empty", ""),
    ("accent", "é"),
];

const WHOLES: [(&str, i64); 6] = [
    ("n", 1),
    ("m", 2),
    ("zero", 0),
    ("minus", -1),
    ("most", i64::MAX),
    ("least", i64::MIN),
];

const TRUTHS: [(&str, bool); 2] = [("b", true), ("c", false)];

fn push(
    alloc: Global,
    properties: &mut Properties,
    name: &str,
    value: Value,
) -> Result<(), AllocError> {
    properties.push(Property {
        name: Text::from_str(alloc, name)?,
        value,
    })
}

fn push_texts(alloc: Global, properties: &mut Properties) -> Result<(), AllocError> {
    for (name, text) in TEXTS.iter() {
        let value = Value::Text(Text::from_str(alloc, text)?);
        push(alloc, properties, name, value)?;
    }
    Ok(())
}

fn push_wholes(alloc: Global, properties: &mut Properties) -> Result<(), AllocError> {
    for (name, number) in WHOLES.iter() {
        push(alloc, properties, name, Value::Whole(*number))?;
    }
    Ok(())
}

fn push_truths(alloc: Global, properties: &mut Properties) -> Result<(), AllocError> {
    for (name, truth) in TRUTHS.iter() {
        push(alloc, properties, name, Value::Truth(*truth))?;
    }
    Ok(())
}

// The properties of the message, without `z`. There is a second `t`, which is none of a text.
pub fn message(alloc: Global) -> Result<Properties, AllocError> {
    let mut properties = Properties::new(alloc);
    push_texts(alloc, &mut properties)?;
    push_wholes(alloc, &mut properties)?;
    push_truths(alloc, &mut properties)?;
    push(alloc, &mut properties, "t", Value::Whole(9))?;
    Ok(properties)
}
