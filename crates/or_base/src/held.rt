use crate::value::KvValue;

/// A value that a store holds, with the moment of its merge in milliseconds.
#[derive(Clone, Copy)]
pub struct Held<'a> {
    pub value: &'a KvValue,
    pub merged_at: u64,
}
