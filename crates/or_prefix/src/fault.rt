/// Why a text is no prefix: the first of these that holds.
#[derive(Clone, Copy, Debug, PartialEq, Eq)]
pub enum PrefixFault {
    /// The text hasn't the form of a prefix.
    BadForm,
    /// The length is above 32, or above 128 for IPv6.
    BadLength,
    /// A bit past the length is set.
    HostBits,
}
