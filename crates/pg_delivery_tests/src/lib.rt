//! What is in flight, the open consumers, and the entries of queues, through the public calls alone.
#![tactic(auto)]

#[cfg(test)]
mod consumers;
#[cfg(test)]
mod flights;
#[cfg(test)]
mod queues;
#[cfg(test)]
mod scattered;
