//! Which texts are like a pattern, and the truth of filters, through the public calls alone.
#![tactic(auto)]

#[cfg(test)]
mod chains;
#[cfg(test)]
mod messages;
#[cfg(test)]
mod patterns;
#[cfg(test)]
mod truths;
