//! IP prefixes as text: an address, `/` and a length.
//!
//! `read_prefix` reads IPv4 addresses in dotted decimal, and IPv6 addresses as RFC 4291 writes them, but without an
//! embedded dotted part. `prefix_text` writes IPv6 addresses as RFC 5952 recommends: in lower case, without leading
//! zeros, and with `::` for the longest run of at least two groups of 0. What is read is defined in
//! `specs/Reading.antt` and what is printed in `specs/Printing.antt`; both functions do exactly that, and
//! `prefixes_are_read_again` says that a printed prefix is read as itself.
//!
//! The files: `fault` (why a text is no prefix), `pieces` (a text cut at a separator or at `::`), `decimal` and `hex`
//! (single numbers), `groups` (what some groups make together), `address`, `v4` and `v6`, `read` and `print`.
#![tactic(auto)]

ghost use Rattle.or_prefix.specs.Law.{PrefixesAreReadAgain};

mod address;
mod decimal;
mod fault;
mod groups;
mod hex;
mod pieces;
mod print;
mod read;
mod v4;
mod v6;

pub use fault::PrefixFault;
pub use print::prefix_text;
pub use read::read_prefix;

/// The text of a prefix is read as that prefix.
pub fn prefixes_are_read_again()
    ensures { PrefixesAreReadAgain }
{}
