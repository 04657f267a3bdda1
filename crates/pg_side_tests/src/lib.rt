//! The program and the unpaged broker side by side, over scripts that are made from numbers.
#![tactic(auto)]

#[cfg(test)]
mod scripts;
#[cfg(test)]
mod side_by_side;
