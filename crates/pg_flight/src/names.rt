// The names of the open consumers.
ghost use Rattle.std.specs.Prelude.{◌==◌, ◌≡◌, ◌++◌, ◌∷◌, [], ℕ, None, OnOk, OnErr, IfSome, IfNone};
ghost use Rattle.std.specs.List.{list_any};
ghost use Rattle.std.specs.Option.{option_map};
ghost use Rattle.pg_flight.specs.Names.{AreApart, IsNumberOf, named, without_name};

use pg_bytes::Text;
use std::alloc::{AllocError, Global};
use std::collections::BTreeMap;
use std::marker::Model;

// An open consumer: its name and the id of its queue.
#[derive(Drop)]
pub(crate) struct Row {
    name: Text,
    queue: u32,
}

// The open consumers in the order of their opening. Each call but `is_consumed` takes at most logarithmic time.
pub(crate) struct Names {
    // The number of the next consumer. Numbers ascend in the order of opening.
    next: u64,
    // The consumers by their numbers.
    rows: BTreeMap<u64, Row>,
    // The number of each consumer by its name. A name that no consumer has may have one too.
    numbers: BTreeMap<String, u64>,
}

impl Model for Names {
    ghost use Rattle.std.specs.Prelude.{List};
    ghost use Rattle.std.specs.BTreeMap.{values};
    ghost use Rattle.pg_flight.specs.declared.names.Row.{Row};
    ghost use Rattle.pg_flight.specs.Names.{AreNumbered};

    ghost Value = { List Row };

    ghost view = { λ names. values names.rows };

    ghost invariant = { λ names. AreNumbered names.next names.rows names.numbers };
}

impl Drop for Names {
    fn drop(self) {
        let Names {
            next: _next,
            rows: _rows,
            numbers: _numbers,
        } = self;
    }
}

impl Names {
    // None. Takes no memory.
    pub(crate) fn new(alloc: Global) -> Names
        ensures { result ≡ [] }
    {
        Names {
            next: 0,
            rows: BTreeMap::new(alloc),
            numbers: BTreeMap::new(alloc),
        }
    }

    // Puts a consumer behind the others. Fails only where there is no memory for it, or where 2^64 - 1 were put in before.
    pub(crate) fn add(&mut self, alloc: Global, name: Text, queue: u32) -> Result<(), AllocError>
        requires { named name self.old ≡ None }
        ensures ok { OnOk result (self.new ≡ self.old ++ record { name = name; queue = queue } ∷ []) }
        ensures err { OnErr result (self.new ≡ self.old) }
    {
        let number = self.next;
        let Some(next) = number.checked_add(1) else {
            return Err(AllocError);
        };
        self.numbers
            .insert(String::from_str(alloc, name.as_str())?, number)?;
        self.rows.insert(number, Row { name, queue })?;
        self.next = next;
        Ok(())
    }

    // The queue of the consumer with that name.
    pub(crate) fn queue_of(&self, name: &Text) -> Option<u32>
        ensures queue { result ≡ option_map (λ row. row.queue) (named name.now self.now) }
        ensures apart { AreApart self.now }
    {
        let number = number_of(&self.rows, &self.numbers, name)?;
        let row = self.rows.get(&number)?;
        Some(row.queue)
    }

    // Whether some consumer is open on the queue. Takes time that grows with the number of consumers.
    pub(crate) fn is_consumed(&self, queue: u32) -> bool
        ensures { result ≡ list_any (λ row. row.queue == queue) self.now }
    {
        self.rows.values().any(|row| row.queue == queue)
    }

    // Takes the consumer of that name out, if there is one.
    pub(crate) fn remove(&mut self, name: &Text)
        ensures { self.new ≡ without_name name.now self.old }
    {
        if let Some(number) = number_of(&self.rows, &self.numbers, name) {
            self.numbers.remove(name.as_str());
            self.rows.remove(&number);
        }
    }
}

// The number of the consumer with that name.
fn number_of(rows: &BTreeMap<u64, Row>, numbers: &BTreeMap<String, u64>, name: &Text) -> Option<u64>
    ensures found { IfSome result (IsNumberOf rows.now numbers.now name.now) }
    ensures none { IfNone result ((number : ℕ) → ¬ IsNumberOf rows.now numbers.now name.now number) }
{
    let number = numbers.get(name.as_str()).copied()?;
    let row = rows.get(&number)?;
    if row.name == *name {
        Some(number)
    } else {
        None
    }
}
