//! The standing of page transactions: whether what they put into pages counts.
#![tactic(auto)]

mod page_txs;
mod standing;

pub use page_txs::PageTxs;
pub use standing::Standing;
