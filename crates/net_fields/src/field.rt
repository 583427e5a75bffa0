use crate::form::Form;

/// A field of a command.
#[derive(Clone, Copy, Debug)]
pub struct Field {
    pub name: &'static str,
    /// The field must be there.
    pub is_needed: bool,
    pub form: Form,
}
