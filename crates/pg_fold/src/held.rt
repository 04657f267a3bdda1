// One message that is held in the journal, behind a pointer.
ghost use Rattle.std.specs.Prelude.{◌≡◌, IfOk};
ghost use Rattle.pg_fold.specs.Rows.{released, is_held};

use crate::holders::Holders;
use crate::rows::JournaledRow;
use std::alloc::{AllocError, Global};
use std::marker::Model;

// A row behind a pointer, so that a move of rows moves no more than their pointers.
pub(crate) struct Held {
    row: Box<JournaledRow>,
}

impl Model for Held {
    ghost use Rattle.pg_fold.specs.declared.rows.JournaledRow.{JournaledRow};

    ghost Value = { JournaledRow };

    ghost view = { λ held. held.row.value };
}

impl Drop for Held {
    fn drop(self) {
        let Held { row: _row } = self;
    }
}

impl Held {
    // The row behind a pointer. Fails only where there is no memory for it.
    pub(crate) fn new(alloc: Global, row: JournaledRow) -> Result<Held, AllocError>
        ensures { IfOk result (λ held. held ≡ row) }
    {
        Ok(Held {
            row: Box::new(alloc, row)?,
        })
    }

    // The row itself.
    pub(crate) fn row(&self) -> &JournaledRow
        ensures { result.now ≡ self.now }
    {
        &self.row
    }

    // Whether some queue holds the message.
    pub(crate) fn is_held(&self) -> bool
        ensures { result ≡ is_held self.now }
    {
        !self.row.holders.as_slice().is_empty()
    }

    // Takes the queue from the holders of the message.
    pub(crate) fn release(&mut self, alloc: Global, queue: u32)
        ensures { self.new ≡ released queue self.old }
    {
        release(alloc, &mut self.row, queue);
    }
}

fn release(alloc: Global, row: &mut JournaledRow, queue: u32)
    ensures { row.new ≡ released queue row.old }
{
    let holders = std::mem::replace(&mut row.holders, Holders::none(alloc));
    row.holders = holders.without(alloc, queue);
}
