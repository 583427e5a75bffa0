//! Which keys have a deadline, and when.
//!
//! A `Wheel` has at most one deadline for each key, and gives the keys whose deadline is reached, by deadline and then by
//! key. Contracts see it as the list of its keys with their deadlines, in byte order of keys (`specs/Deadlines.antt`).
//! Beside the map from keys it keeps the same pairs in the order in which they are due, so that `set`, `cancel` and each
//! key that `due` gives cost a few steps in an ordered map, however many keys have a deadline.
#![tactic(auto)]

mod wheel;

pub use wheel::Wheel;
