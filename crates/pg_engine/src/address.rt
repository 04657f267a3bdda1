// The command `address`.
ghost use Rattle.std.specs.Prelude.{◌≡◌, ◌++◌, ◌∷◌, [], false, Some, IfOk, IfErr, OnOk};
ghost use Rattle.pg_msg.specs.Commands.{AreSettings};
ghost use Rattle.pg_msg.specs.Names.{IsName};
ghost use Rattle.pg_model.specs.Actions.{MakeAddress};
ghost use Rattle.pg_engine.specs.Outcomes.{IsOutcome, settings_of};

use crate::state::{Outcome, State};
use pg_bytes::Text;
use pg_disk::Fault;
use pg_msg::{MOST_ADDRESSES, Refusal};
use pg_records::Entry;
use std::alloc::{AllocError, Global};

/// The settings of an address: `max` and `ahead` in bytes of messages, `page` in bytes of a page file, `dup` as a count
/// of duplicate ids.
#[derive(Clone, Copy, Debug, PartialEq, Eq)]
pub struct Settings {
    pub max: u64,
    pub page: u64,
    pub ahead: u64,
    pub dup: u32,
}

impl State {
    // The command `address`.
    pub(crate) fn add_address(
        self,
        alloc: Global,
        name: Text,
        settings: Settings,
    ) -> Result<Outcome, Fault>
        requires name { IsName name }
        requires settings { AreSettings settings.max settings.page settings.ahead settings.dup }
        ensures outcome { IfOk result (λ outcome. IsOutcome self (Some (MakeAddress name (settings_of settings))) outcome) }
        ensures none { IfErr result (λ fault. fault ≡ Fault.Memory) }
    {
        if self.address_id(&name).is_some() {
            return Ok(self.refused(Refusal::Name));
        }
        if self.durable.addresses.as_slice().len() >= MOST_ADDRESSES {
            return Ok(self.refused(Refusal::Room));
        }
        self.make_address(alloc, name, settings)
    }
}

// The settings of an address.
pub(crate) fn settings_with(max: u64, page: u64, ahead: u64, dup: u32) -> Settings
    ensures { result ≡ record { max = max; page = page; ahead = ahead; dup = dup } }
{
    Settings {
        max,
        page,
        ahead,
        dup,
    }
}

// The entry of an address.
pub(crate) fn address_entry(address: u32, name: Text, settings: Settings) -> Entry
    ensures { result ≡ Entry.Address address name settings.max settings.page settings.ahead settings.dup }
{
    Entry::Address {
        address,
        name,
        max: settings.max,
        page: settings.page,
        ahead: settings.ahead,
        dup: settings.dup,
    }
}

// Adds the weight of an address without messages.
pub(crate) fn add_weight(weights: &mut Vec<u64>) -> Result<(), AllocError>
    ensures { OnOk result (weights.new.items ≡ weights.old.items ++ 0 ∷ []) }
{
    weights.push(0)?;
    Ok(())
}

// Adds the mark of an address without pages.
pub(crate) fn add_mark(paged: &mut Vec<bool>) -> Result<(), AllocError>
    ensures { OnOk result (paged.new.items ≡ paged.old.items ++ false ∷ []) }
{
    paged.push(false)?;
    Ok(())
}
