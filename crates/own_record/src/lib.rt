//! A record that a module of a node has its node's store own.
//!
//! LinkMonitor and PrefixManager each publish one record under a key of its own. Whenever what it says may have changed,
//! the module makes its text anew, and hands it to the store where it differs from the text handed last (`OwnRecord`,
//! defined in `specs/OwnRecord.antt`). A record that says nothing is handed over only where an earlier text said
//! something. What stands under the key in the store isn't looked at: the store defends the keys that it owns.
#![tactic(auto)]

mod own_record;

pub use own_record::OwnRecord;
