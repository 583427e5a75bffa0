ghost use Rattle.std.specs.Prelude.{◌≡◌, ℕ, ◌<◌, ◌≤◌, ◌^◌, List, length, Option, IfOk, OnOk, OnErr};
ghost use Rattle.or_base.specs.Stream.{ReadsFront, WritesFront};

/// A read failed.
#[derive(Clone, Copy, Debug, PartialEq, Eq)]
pub struct ReadFault;

/// A write failed.
#[derive(Clone, Copy, Debug, PartialEq, Eq)]
pub struct WriteFault;

/// What bytes are read from. `Ok(0)` for a buffer that isn't empty is the end of input. The count of faults is
/// below 2^62 as a call begins; a fault raises it, and nothing else changes it.
pub trait Source {
    /// The bytes that are left, where the source can tell.
    ghost left: { Self → Option (List ℕ) };

    /// How many reads failed.
    ghost faults: { Self → ℕ };

    /// Reads into the front of the buffer, and tells how many bytes.
    fn read(&mut self, buf: &mut [u8]) -> Result<usize, ReadFault>
        requires { faults self.old < 2 ^ 62 }
        ensures within { IfOk result (λ count. count ≤ length buf.old) }
        ensures bytes { IfOk result (λ count. ReadsFront (left self.old) (left self.new) count buf.new) }
        ensures ok { OnOk result (faults self.new ≡ faults self.old) }
        ensures err { OnErr result (left self.new ≡ left self.old) }
        ensures cause { OnErr result (faults self.old < faults self.new) };
}

/// What bytes are written to. The count of faults is below 2^62 as a call begins; a fault raises it, and nothing
/// else changes it.
pub trait Sink {
    /// The bytes that were taken, where the sink can tell.
    ghost taken: { Self → Option (List ℕ) };

    /// How many writes failed.
    ghost faults: { Self → ℕ };

    /// Writes from the front of the buffer, and tells how many bytes: at least one of a buffer that isn't empty.
    fn write(&mut self, buf: &[u8]) -> Result<usize, WriteFault>
        requires { faults self.old < 2 ^ 62 }
        ensures within { IfOk result (λ count. count ≤ length buf.now) }
        ensures progress { IfOk result (λ count. 0 < length buf.now → 0 < count) }
        ensures bytes { IfOk result (λ count. WritesFront (taken self.old) (taken self.new) count buf.now) }
        ensures ok { OnOk result (faults self.new ≡ faults self.old) }
        ensures err { OnErr result (taken self.new ≡ taken self.old) }
        ensures cause { OnErr result (faults self.old < faults self.new) };
}
