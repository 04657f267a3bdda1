//! Scripts over the memory site and the memory source, through the public calls alone, and the stage that these and the
//! other scenarios share.
#![tactic(auto)]

#[cfg(test)]
mod bytewise;
#[cfg(test)]
mod consumers;
#[cfg(test)]
mod filters;
#[cfg(test)]
mod messages;
#[cfg(test)]
mod scripts;
pub mod stage;
