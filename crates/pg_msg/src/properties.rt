// The properties of a message.
ghost use Rattle.std.specs.Prelude.{◌≡◌, ◌++◌, ◌∷◌, [], IfOk, OnOk, OnErr};

use pg_bytes::Text;
use std::alloc::{AllocError, Global};
use std::marker::Model;

/// The value of a property.
#[derive(PartialEq, Eq, Drop)]
pub enum Value {
    /// A text of at most 65,535 bytes.
    Text(Text),
    Whole(i64),
    Truth(bool),
}

/// A property of a message, which filters look at.
#[derive(PartialEq, Eq)]
pub struct Property {
    /// Of 1 to 64 bytes. `docs/FORMATS.md` says how it is spelled.
    pub name: Text,
    pub value: Value,
}

impl Drop for Property {
    fn drop(self) {
        let Property {
            name: _name,
            value: _value,
        } = self;
    }
}

impl Value {
    fn copy(&self) -> Result<Value, AllocError>
        ensures { IfOk result (λ copy. copy ≡ self.now) }
    {
        match self {
            Value::Text(text) => Ok(Value::Text(text.copy()?)),
            Value::Whole(number) => Ok(Value::Whole(*number)),
            Value::Truth(truth) => Ok(Value::Truth(*truth)),
        }
    }
}

impl Property {
    fn copy(&self) -> Result<Property, AllocError>
        ensures { IfOk result (λ copy. copy ≡ self.now) }
    {
        Ok(Property {
            name: self.name.copy()?,
            value: self.value.copy()?,
        })
    }
}

/// Properties, in an order.
pub struct Properties {
    items: Vec<Property>,
}

impl Model for Properties {
    ghost use Rattle.std.specs.Prelude.{List};
    ghost use Rattle.pg_msg.specs.declared.properties.Property.{Property};

    ghost Value = { List Property };

    ghost view = { λ properties. properties.items.items };
}

impl Drop for Properties {
    fn drop(self) {
        let Properties { items: _items } = self;
    }
}

impl Properties {
    /// No properties. Takes no memory.
    pub fn new(alloc: Global) -> Properties
        ensures { result ≡ [] }
    {
        Properties {
            items: Vec::new(alloc),
        }
    }

    /// The properties as a slice.
    pub fn as_slice(&self) -> &[Property]
        ensures { result.now ≡ self.now }
    {
        self.items.as_slice()
    }

    /// Appends the property. Fails only where there is no memory for it.
    pub fn push(&mut self, property: Property) -> Result<(), AllocError>
        ensures ok { OnOk result (self.new ≡ self.old ++ property ∷ []) }
        ensures err { OnErr result (self.new ≡ self.old) }
    {
        self.items.push(property)?;
        Ok(())
    }

    // A second value with the same properties.
    pub(crate) fn copy(&self, alloc: Global) -> Result<Properties, AllocError>
        ensures { IfOk result (λ copy. copy ≡ self.now) }
    {
        let mut copy = Properties::new(alloc);
        for property in self.as_slice() {
            copy.push(property.copy()?)?;
        }
        Ok(copy)
    }
}

impl PartialEq for Properties {
    ghost use Rattle.std.specs.Cmp.Lexicographic.{pointwise, lists_per};
    ghost use Rattle.pg_msg.specs.contracts.properties.PropertyPartialEq.TheImpl as property;
    ghost use Rattle.pg_msg.specs.contracts.properties.PropertyPartialEq.TheImpl.Laws as known;

    ghost eq = { pointwise property.ghosts.eq };

    ghost laws = { lists_per known.laws-law };

    fn eq(&self, other: &Properties) -> bool {
        self.as_slice() == other.as_slice()
    }
}

impl Eq for Properties {
    ghost use Rattle.std.specs.Cmp.Lexicographic.{lists_equiv};
    ghost use Rattle.pg_msg.specs.contracts.properties.PropertyEq.TheImpl.Laws as known;

    ghost laws = { lists_equiv known.laws-law };
}
