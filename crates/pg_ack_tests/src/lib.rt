//! Acknowledged positions: in order, in reverse, scattered, and whole pages; and the standing of page transactions.
//! All through the public calls alone.
#![tactic(auto)]

#[cfg(test)]
mod orders;
#[cfg(test)]
mod pages;
#[cfg(test)]
mod standings;
