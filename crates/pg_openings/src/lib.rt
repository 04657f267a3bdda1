//! Runs over what an earlier run or a crash left.
#![tactic(auto)]

#[cfg(test)]
mod deliveries;
#[cfg(test)]
mod generations;
#[cfg(test)]
mod openings;
#[cfg(test)]
mod queue_ids;
