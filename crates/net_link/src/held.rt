use or_base::Msg;

/// A message that is held back until so many further messages of its direction have come.
#[derive(Drop)]
pub struct HeldMsg {
    pub msg: Msg,
    pub count: u64,
}
