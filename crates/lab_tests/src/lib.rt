//! What calls of the libraries alone show.
//!
//! The contracts say which value each call returns, so the tests here show what no clause says: hashes that are stated
//! elsewhere, texts as they are read and printed, orders and small cases with answers found by hand, and that calls that
//! the program doesn't make answer where memory is ample, which a body that always runs out of it wouldn't. No answer
//! stated here was taken from what the program gave. The crate stands above the libraries, so none of them is proved again
//! for its tests. What runs of the program show, the folder `cases` at the top states.
#![tactic(auto)]

#[cfg(test)]
mod advertising;
#[cfg(test)]
mod agreement;
pub mod fixtures;
#[cfg(test)]
mod owned;
#[cfg(test)]
mod prefixes;
#[cfg(test)]
mod records;
#[cfg(test)]
mod replays;
#[cfg(test)]
mod routes;
#[cfg(test)]
mod spark;
#[cfg(test)]
mod tables;
#[cfg(test)]
mod timers;
#[cfg(test)]
mod values;
#[cfg(test)]
mod words;
