//! Paging states, through the public calls alone.
#![tactic(auto)]

#[cfg(test)]
mod addresses;
#[cfg(test)]
mod opened;
#[cfg(test)]
mod sends;
