//! Frames and page files, through the public calls alone.
#![tactic(auto)]

#[cfg(test)]
mod frames;
#[cfg(test)]
mod pages;
