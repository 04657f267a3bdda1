//! Scripts to the plain broker, with the replies that the rules give.
#![tactic(auto)]

#[cfg(test)]
mod scripts;
