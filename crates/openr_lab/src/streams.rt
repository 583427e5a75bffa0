ghost use Rattle.std.specs.Prelude.{◌≡◌, ℕ, ◌<◌, ◌≤◌, ◌^◌, length, vec_len, IfOk, OnOk, OnErr, Err};
ghost use Rattle.openr_lab.specs.Streams.{read_limit, ReadWhole, WroteWhole, WroteFront};

use or_base::{NoMemory, Sink, Source, WriteFault};
use std::alloc::Global;

/// Why a source was not read to its end.
#[derive(Clone, Copy, Debug, PartialEq, Eq)]
pub enum StreamRefusal {
    /// A read failed.
    Fault,
    /// Memory ran out.
    NoMemory,
}

/// How many bytes `read_all` reads at most: one more than the largest input, so that a larger one shows.
pub const READ_LIMIT: usize = 33_554_433;

/// How many bytes one call of the source may give.
const BUFFER_BYTES: usize = 65_536;

/// A buffer of so many bytes.
fn new_buffer(alloc: Global, len: usize) -> Result<Vec<u8>, NoMemory>
    ensures { IfOk result (λ buffer. vec_len buffer ≡ len) }
{
    let buffer = vec![in alloc; 0u8; len]?;
    Ok(buffer)
}

/// Reads through a buffer: to the source's end, or until there are `READ_LIMIT` bytes.
#[tactic(auto, using(crate::proofs::Steps::read_steps))]
fn read_through<S: Source>(
    alloc: Global,
    source: &mut S,
    buffer: &mut [u8],
) -> Result<Vec<u8>, StreamRefusal>
    requires faults { S.faults source.old < 2 ^ 62 }
    requires room { 0 < length buffer.old }
    ensures whole { IfOk result
        (λ bytes. ReadWhole read_limit (S.left source.old) (S.left source.new) bytes.items) }
    ensures within { IfOk result (λ bytes. vec_len bytes ≤ read_limit) }
    ensures ok { OnOk result (S.faults source.new ≡ S.faults source.old) }
    ensures fault { result ≡ Err StreamRefusal.Fault → S.faults source.old < S.faults source.new }
    ensures memory { result ≡ Err StreamRefusal.NoMemory → S.faults source.new ≡ S.faults source.old }
{
    let mut bytes = Vec::new(alloc);
    while bytes.len() < READ_LIMIT {
        let room = (READ_LIMIT - bytes.len()).min(buffer.len());
        let count = source
            .read(&mut buffer[..room])
            .map_err(|_| StreamRefusal::Fault)?;
        if count == 0 {
            return Ok(bytes);
        }
        bytes
            .extend_from_slice(&buffer[..count])
            .map_err(|_| StreamRefusal::NoMemory)?;
    }
    Ok(bytes)
}

/// Reads the source to its end, or until there are `READ_LIMIT` bytes. The buffer is on the heap, so that the program runs
/// on a small stack.
pub fn read_all<S: Source>(alloc: Global, source: &mut S) -> Result<Vec<u8>, StreamRefusal>
    requires { S.faults source.old < 2 ^ 62 }
    ensures whole { IfOk result
        (λ bytes. ReadWhole read_limit (S.left source.old) (S.left source.new) bytes.items) }
    ensures within { IfOk result (λ bytes. vec_len bytes ≤ read_limit) }
    ensures ok { OnOk result (S.faults source.new ≡ S.faults source.old) }
    ensures fault { result ≡ Err StreamRefusal.Fault → S.faults source.old < S.faults source.new }
    ensures memory { result ≡ Err StreamRefusal.NoMemory → S.faults source.new ≡ S.faults source.old }
{
    let mut buffer = new_buffer(alloc, BUFFER_BYTES).map_err(|_| StreamRefusal::NoMemory)?;
    read_through(alloc, source, buffer.as_mut_slice())
}

/// Writes the whole text. Each call of the sink is offered all that is left of it.
#[tactic(auto, using(crate::proofs::Steps::write_steps))]
pub fn write_all<K: Sink>(sink: &mut K, text: &[u8]) -> Result<(), WriteFault>
    requires { K.faults sink.old < 2 ^ 62 }
    ensures whole { OnOk result (WroteWhole (K.taken sink.old) (K.taken sink.new) text.now) }
    ensures front { WroteFront (K.taken sink.old) (K.taken sink.new) text.now }
    ensures ok { OnOk result (K.faults sink.new ≡ K.faults sink.old) }
    ensures cause { OnErr result (K.faults sink.old < K.faults sink.new) }
{
    let mut written = 0;
    while written < text.len() {
        written += sink.write(&text[written..])?;
    }
    Ok(())
}
