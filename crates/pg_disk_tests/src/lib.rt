//! Sites and sources in memory, through their public calls alone.
#![tactic(auto)]

#[cfg(test)]
mod crashes;
#[cfg(test)]
mod sites;
#[cfg(test)]
mod sources;
