//! Gated files and the journal, over sites in memory and through their public calls alone.
#![tactic(auto)]

#[cfg(test)]
mod gates;
#[cfg(test)]
mod journals;
