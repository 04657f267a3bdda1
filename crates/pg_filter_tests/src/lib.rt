//! What filters are read as, through the public calls alone.
#![tactic(auto)]

#[cfg(test)]
mod tokens;
#[cfg(test)]
mod trees;
