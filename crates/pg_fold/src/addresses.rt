// The addresses.
ghost use Rattle.std.specs.Prelude.{◌≡◌, ◌+◌, ◌++◌, ◌∷◌, [], length, OnOk, OnErr};
ghost use Rattle.pg_fold.specs.Rows.{has_address, has_address_named};

use crate::rows::AddressRow;
use pg_bytes::Text;
use std::alloc::{AllocError, Global};
use std::marker::Model;

/// The addresses, in the order of their making. They are never removed, so the id of each is its place, from 1.
///
/// A name is looked for by a walk over all of them, for now.
pub struct AddressRows {
    rows: Vec<AddressRow>,
}

impl Model for AddressRows {
    ghost use Rattle.std.specs.Prelude.{List};
    ghost use Rattle.pg_fold.specs.declared.rows.AddressRow.{AddressRow};
    ghost use Rattle.pg_fold.specs.Rows.{AreNumbered};

    ghost Value = { List AddressRow };

    ghost view = { λ addresses. addresses.rows.items };

    ghost invariant = { λ addresses. AreNumbered addresses.rows.items };
}

impl Drop for AddressRows {
    fn drop(self) {
        let AddressRows { rows: _rows } = self;
    }
}

impl AddressRows {
    /// No addresses. Takes no memory.
    pub fn new(alloc: Global) -> AddressRows
        ensures { result ≡ [] }
    {
        AddressRows {
            rows: Vec::new(alloc),
        }
    }

    /// The addresses as a slice.
    pub fn as_slice(&self) -> &[AddressRow]
        ensures { result.now ≡ self.now }
    {
        self.rows.as_slice()
    }

    // Whether there is one with this id.
    pub(crate) fn has(&self, id: u32) -> bool
        ensures { result ≡ has_address self.now id }
    {
        1 <= id && id as usize <= self.rows.as_slice().len()
    }

    // Whether there is one with this name.
    pub(crate) fn has_named(&self, name: &Text) -> bool
        ensures { result ≡ has_address_named self.now name.now }
    {
        self.rows.iter().any(|row| row.name == *name)
    }

    // Appends the address. Fails only where there is no memory for it.
    pub(crate) fn push(&mut self, row: AddressRow) -> Result<(), AllocError>
        requires { row.id ≡ length self.old + 1 }
        ensures ok { OnOk result (self.new ≡ self.old ++ row ∷ []) }
        ensures err { OnErr result (self.new ≡ self.old) }
    {
        self.rows.push(row)?;
        Ok(())
    }
}
