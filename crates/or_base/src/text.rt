ghost use Rattle.std.specs.Prelude.{◌≡◌, IfOk, IfSome, string_bytes};
ghost use Rattle.or_base.specs.Names.{is_among};

use crate::memory::{Copied, NoMemory};
use crate::seq::Seq;
use arrayvec::ArrayString;
use std::alloc::AllocError;
use std::cmp::Ordering;
use std::marker::Model;

/// The name of a node or of an interface: text that contracts see as its bytes.
#[derive(Drop)]
pub struct Name {
    text: Text,
}

impl Model for Name {
    ghost use Rattle.std.specs.Prelude.{ℕ, List};

    ghost Value = { List ℕ };

    ghost view = { λ name. name.text };
}

impl Name {
    /// It takes no memory, and keeps no limit.
    pub fn from_string(text: String) -> Self
        ensures { result ≡ string_bytes text }
    {
        Name {
            text: Text::from_string(text),
        }
    }

    /// The text.
    pub fn as_str(&self) -> &str
        ensures { result.now ≡ self.now }
    {
        self.text.as_str()
    }

    /// An equal name.
    pub fn copied(&self) -> Result<Self, NoMemory>
        ensures { IfOk result (λ copy. copy ≡ self.now) }
    {
        Ok(self.clone()?)
    }
}

impl Clone for Name {
    ghost is_clone = { λ x y. y ≡ x };

    fn clone(&self) -> Result<Self, AllocError> {
        Ok(Name {
            text: self.text.clone()?,
        })
    }
}

impl Copied for Name {
    fn copied(&self) -> Result<Self, NoMemory> {
        Name::copied(self)
    }
}

impl PartialEq for Name {
    ghost use Rattle.std.proofs.Common.{rules};
    ghost use Rattle.std.specs.Prelude.{◌==◌};
    ghost use Rattle.std.specs.Cmp.Lexicographic.{pointwise};
    ghost use Rattle.std.specs.Cmp.Rules.{comparing};

    ghost eq = { pointwise ◌==◌ };

    ghost laws = { Prim.search (comparing, rules) };

    fn eq(&self, other: &Name) -> bool {
        self.as_str() == other.as_str()
    }
}

impl Eq for Name {
    ghost use Rattle.std.proofs.Common.{rules};
    ghost use Rattle.std.specs.Cmp.Rules.{comparing};

    ghost laws = { Prim.search (comparing, rules) };
}

impl PartialOrd for Name {
    ghost use Rattle.std.proofs.Common.{rules};
    ghost use Rattle.std.specs.Cmp.{partial_order_from_own_ties};
    ghost use Rattle.std.specs.Cmp.Lexicographic.{slice_cmp};
    ghost use Rattle.std.specs.Cmp.Rules.{comparing};
    ghost use Rattle.std.specs.Ordering.{as_partial_cmp, nat_cmp};

    ghost partial_cmp = { as_partial_cmp (slice_cmp nat_cmp) };

    ghost laws = { partial_order_from_own_ties (Prim.search (comparing, rules)) (Prim.search (comparing, rules)) };

    fn partial_cmp(&self, other: &Name) -> Option<Ordering> {
        Some(self.cmp(other))
    }
}

impl Ord for Name {
    ghost use Rattle.std.proofs.Common.{rules};
    ghost use Rattle.std.specs.Cmp.Lexicographic.{slice_cmp};
    ghost use Rattle.std.specs.Cmp.Rules.{comparing};
    ghost use Rattle.std.specs.Ordering.{nat_cmp};

    // `bytes_cmp` of `specs/Order.antt`, written out, since a search for laws of a map's keys reads it.
    ghost cmp = { slice_cmp nat_cmp };

    ghost total = { Prim.search (comparing, rules) };

    ghost matches_partial_cmp = { Prim.search (comparing, rules) };

    ghost matches_eq = { Prim.search (comparing, rules) };

    fn cmp(&self, other: &Name) -> Ordering {
        self.as_str().cmp(&other.as_str())
    }
}

/// The name is one of these.
pub fn is_among(name: &Name, names: &[Name]) -> bool
    ensures { result ≡ is_among name.now names.now }
{
    let name = name.as_str();
    names.iter().any(|other| name == other.as_str())
}

/// The key of a value: text that contracts see as its bytes.
#[derive(Drop)]
pub struct Key {
    text: Text,
}

impl Model for Key {
    ghost use Rattle.std.specs.Prelude.{ℕ, List};

    ghost Value = { List ℕ };

    ghost view = { λ key. key.text };
}

impl Key {
    /// It takes no memory, and keeps no limit.
    pub fn from_string(text: String) -> Self
        ensures { result ≡ string_bytes text }
    {
        Key {
            text: Text::from_string(text),
        }
    }

    /// The text.
    pub fn as_str(&self) -> &str
        ensures { result.now ≡ self.now }
    {
        self.text.as_str()
    }

    /// An equal key.
    pub fn copied(&self) -> Result<Self, NoMemory>
        ensures { IfOk result (λ copy. copy ≡ self.now) }
    {
        Ok(self.clone()?)
    }
}

impl Clone for Key {
    ghost is_clone = { λ x y. y ≡ x };

    fn clone(&self) -> Result<Self, AllocError> {
        Ok(Key {
            text: self.text.clone()?,
        })
    }
}

impl Copied for Key {
    fn copied(&self) -> Result<Self, NoMemory> {
        Key::copied(self)
    }
}

impl PartialEq for Key {
    ghost use Rattle.std.proofs.Common.{rules};
    ghost use Rattle.std.specs.Prelude.{◌==◌};
    ghost use Rattle.std.specs.Cmp.Lexicographic.{pointwise};
    ghost use Rattle.std.specs.Cmp.Rules.{comparing};

    ghost eq = { pointwise ◌==◌ };

    ghost laws = { Prim.search (comparing, rules) };

    fn eq(&self, other: &Key) -> bool {
        self.as_str() == other.as_str()
    }
}

impl Eq for Key {
    ghost use Rattle.std.proofs.Common.{rules};
    ghost use Rattle.std.specs.Cmp.Rules.{comparing};

    ghost laws = { Prim.search (comparing, rules) };
}

impl PartialOrd for Key {
    ghost use Rattle.std.proofs.Common.{rules};
    ghost use Rattle.std.specs.Cmp.{partial_order_from_own_ties};
    ghost use Rattle.std.specs.Cmp.Lexicographic.{slice_cmp};
    ghost use Rattle.std.specs.Cmp.Rules.{comparing};
    ghost use Rattle.std.specs.Ordering.{as_partial_cmp, nat_cmp};

    ghost partial_cmp = { as_partial_cmp (slice_cmp nat_cmp) };

    ghost laws = { partial_order_from_own_ties (Prim.search (comparing, rules)) (Prim.search (comparing, rules)) };

    fn partial_cmp(&self, other: &Key) -> Option<Ordering> {
        Some(self.cmp(other))
    }
}

impl Ord for Key {
    ghost use Rattle.std.proofs.Common.{rules};
    ghost use Rattle.std.specs.Cmp.Lexicographic.{slice_cmp};
    ghost use Rattle.std.specs.Cmp.Rules.{comparing};
    ghost use Rattle.std.specs.Ordering.{nat_cmp};

    // `bytes_cmp` of `specs/Order.antt`, written out, since a search for laws of a map's keys reads it.
    ghost cmp = { slice_cmp nat_cmp };

    ghost total = { Prim.search (comparing, rules) };

    ghost matches_partial_cmp = { Prim.search (comparing, rules) };

    ghost matches_eq = { Prim.search (comparing, rules) };

    fn cmp(&self, other: &Key) -> Ordering {
        self.as_str().cmp(&other.as_str())
    }
}

/// Where the bytes of a text are: in place, or in memory of their own.
#[derive(Drop)]
enum Letters {
    Short(ArrayString<16>),
    Long(String),
}

/// A text that contracts see as its bytes. A short one is copied without memory.
struct Text {
    letters: Letters,
}

impl Model for Text {
    ghost use Rattle.std.specs.Prelude.{ℕ, List};
    ghost use Rattle.or_base.specs.Shared.{bytes_of};

    ghost Value = { List ℕ };

    ghost view = { λ text. bytes_of text.letters };
}

// Written out, so that a function that lets a name go doesn't look at where its bytes are.
impl Drop for Text {
    fn drop(self) {
        let Text { letters: _ } = self;
    }
}

impl Text {
    fn from_string(text: String) -> Text
        ensures { result ≡ string_bytes text }
    {
        let letters = match in_place(&text) {
            Some(short) => Letters::Short(short),
            None => Letters::Long(text),
        };
        Text { letters }
    }

    fn as_str(&self) -> &str
        ensures { result.now ≡ self.now }
    {
        match &self.letters {
            Letters::Short(short) => short.as_str(),
            Letters::Long(long) => long.as_str(),
        }
    }
}

impl Clone for Text {
    ghost is_clone = { λ x y. y ≡ x };

    fn clone(&self) -> Result<Self, AllocError> {
        let letters = match &self.letters {
            Letters::Short(short) => Letters::Short(*short),
            Letters::Long(long) => Letters::Long(long.clone()?),
        };
        Ok(Text { letters })
    }
}

/// The text in place, where it is short enough.
fn in_place(text: &str) -> Option<ArrayString<16>>
    ensures { IfSome result (λ short. short.bytes ≡ text.now) }
{
    match ArrayString::from(text) {
        Ok(short) => Some(short),
        Err(_) => None,
    }
}

/// Bytes of any content. Copies share them.
#[derive(Drop)]
pub struct Bytes {
    bytes: Seq<u8>,
}

impl Model for Bytes {
    ghost use Rattle.std.specs.Prelude.{ℕ, List};

    ghost Value = { List ℕ };

    ghost view = { λ all. all.bytes };
}

impl Bytes {
    /// The vector's bytes. Where memory for their count runs out, each copy copies them.
    pub fn from_vec(v: Vec<u8>) -> Bytes
        ensures { result ≡ v.items }
    {
        Bytes {
            bytes: Seq::from_vec(v),
        }
    }

    /// The bytes, in order.
    pub fn as_slice(&self) -> &[u8]
        ensures { result.now ≡ self.now }
    {
        self.bytes.as_slice()
    }

    /// The vector of the bytes. They are moved where no copy shares them, and else copied.
    pub fn into_vec(self) -> Result<Vec<u8>, NoMemory>
        ensures { IfOk result (λ v. v.items ≡ self) }
    {
        self.bytes.into_vec()
    }

    /// Equal bytes.
    pub fn copied(&self) -> Result<Self, NoMemory>
        ensures { IfOk result (λ copy. copy ≡ self.now) }
    {
        Ok(self.clone()?)
    }
}

impl Clone for Bytes {
    ghost is_clone = { λ x y. y ≡ x };

    fn clone(&self) -> Result<Self, AllocError> {
        Ok(Bytes {
            bytes: self.bytes.clone()?,
        })
    }
}

impl Copied for Bytes {
    fn copied(&self) -> Result<Self, NoMemory> {
        Bytes::copied(self)
    }
}
