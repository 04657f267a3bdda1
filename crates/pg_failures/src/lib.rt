//! Runs in which a device fails or that a crash stops, and devices whose counts of faults are full.
#![tactic(auto)]

#[cfg(test)]
mod acknowledging;
#[cfg(test)]
mod crashes;
#[cfg(test)]
mod failing;
#[cfg(test)]
mod full_counts;
#[cfg(test)]
mod pending;
