/// A lane: the number of the actor that writes on it, the port by which that actor names it, and the number of the
/// actor that reads from it.
#[derive(Clone, Copy, Debug, PartialEq, Eq)]
pub struct Wire {
    pub writer: u32,
    pub port: u32,
    pub reader: u32,
}
