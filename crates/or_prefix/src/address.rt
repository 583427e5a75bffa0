ghost use Rattle.std.specs.Prelude.{◌<◌, ◌^◌};
ghost use Rattle.or_base.specs.Prefix.{address_bits};

/// An address of either version, as a number.
#[derive(Clone, Copy)]
pub struct Address {
    pub v6: bool,
    pub bits: u128,
    ghost within: { bits < 2 ^ address_bits v6 },
}
