//! Tests alone: the edge to the system, over real folders and inputs.
#![tactic(auto)]

#[cfg(test)]
mod folders;
#[cfg(test)]
mod inputs;
#[cfg(test)]
mod names;
