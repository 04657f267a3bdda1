//! Routes: names, drops, names that are taken again, filters, and many queues, through the public calls alone.
#![tactic(auto)]

#[cfg(test)]
mod filters;
#[cfg(test)]
mod many;
#[cfg(test)]
mod names;
