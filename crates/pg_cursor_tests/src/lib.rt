//! Cursors over pages, through the public calls alone.
#![tactic(auto)]

#[cfg(test)]
mod beside;
#[cfg(test)]
mod cursors;
#[cfg(test)]
mod drains;
#[cfg(test)]
mod pages;
#[cfg(test)]
mod passed;
