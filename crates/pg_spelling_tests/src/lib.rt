//! How bytes, texts, fields and messages are spelled, through the public calls alone, and the limits.
#![tactic(auto)]

#[cfg(test)]
mod fields;
#[cfg(test)]
mod limits;
#[cfg(test)]
mod messages;
#[cfg(test)]
mod octets;
#[cfg(test)]
mod texts;
