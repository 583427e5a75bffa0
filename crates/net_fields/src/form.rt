/// What a field takes.
#[derive(Clone, Copy, Debug, PartialEq, Eq)]
pub enum Form {
    /// A text.
    Text,
    /// A name that is given here, of at most this many characters of a to z, 0 to 9, `-`, `_` and `.`.
    Name { longest: u64 },
    /// The name of a declared node.
    Node,
    /// The number of a declared link.
    Link,
    /// A key.
    Key,
    /// Bytes as an even number of hexadecimal digits of either case.
    Hex,
    /// A number from the one to the other.
    Number { least: u64, most: u64 },
    /// A list of at most `count` numbers from the one to the other.
    Numbers { count: u64, least: u64, most: u64 },
    /// `true` or `false`.
    Flag,
    /// `stores` or `full`.
    Kind,
    /// `both`, `stores`, `routes` or `none`.
    Show,
    /// A prefix.
    Prefix,
    /// A script: a list of at least one act, and of at most so many as a script has.
    Acts,
}
