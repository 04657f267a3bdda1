// Filters of 2,048 operators and more, each deeper in the tree than the next.
use crate::messages::message;
use crate::patterns::row;
use crate::truths::is_true_so;
use pg_msg::Property;
use std::alloc::{AllocError, Global};
use std::test::Fail;

// The part so often, what stands at the end, and the truth.
const CHAINS: [(&str, usize, &str, &str); 6] = [
    ("n*", 2048, "n", "U"),
    ("n*", 2048, "n=1", "Y"),
    ("n+", 2048, "n=2049", "Y"),
    ("n-", 2048, "n=-2047", "Y"),
    ("z OR ", 818, "b", "Y"),
    ("b AND ", 682, "z", "U"),
];

fn is_chain(
    alloc: Global,
    chain: &(&str, usize, &str, &str),
    properties: &[Property],
) -> Result<bool, AllocError> {
    let (part, times, last, wanted) = *chain;
    let filter = row(alloc, part, times, last)?;
    is_true_so(alloc, filter.as_str(), wanted, properties)
}

// The part of the first chain with a wrong truth.
fn wrong_chain(alloc: Global) -> Result<Option<&'static str>, AllocError> {
    let properties = message(alloc)?;
    for chain in CHAINS.iter() {
        if !is_chain(alloc, chain, properties.as_slice())? {
            return Ok(Some(chain.0));
        }
    }
    Ok(None)
}

#[test]
fn evaluates_chains(rt: HostRuntime) -> Result<(), Fail> {
    assert!(rt; wrong_chain(rt.alloc())?.is_none());
    Ok(())
}
