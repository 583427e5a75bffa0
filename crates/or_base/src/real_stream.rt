ghost use Rattle.std.specs.Prelude.{◌≡◌, None};

use crate::stream::{ReadFault, Sink, Source, WriteFault};
use std::io::{Read, Write};

/// A source over any reader. It counts faults, and tells nothing of the bytes.
#[derive(Drop)]
pub struct RealSource<R> {
    reader: R,
    faults: u64,
}

impl<R: Read> RealSource<R> {
    /// It takes no memory.
    pub fn new(reader: R) -> RealSource<R>
        ensures { ⟦<RealSource<R> as Source>⟧.faults result ≡ 0 }
    {
        RealSource { reader, faults: 0 }
    }
}

impl<R: Read> Source for RealSource<R> {
    ghost left = { λ _. None };

    ghost faults = { λ source. source.faults };

    fn read(&mut self, buf: &mut [u8]) -> Result<usize, ReadFault> {
        match self.reader.read(buf) {
            Ok(count) => Ok(count),
            Err(_) => {
                self.faults += 1;
                Err(ReadFault)
            }
        }
    }
}

/// A sink over any writer. It counts faults, an `Ok(0)` for a buffer that isn't empty among them, and tells
/// nothing of the bytes.
#[derive(Drop)]
pub struct RealSink<W> {
    writer: W,
    faults: u64,
}

impl<W: Write> RealSink<W> {
    /// It takes no memory.
    pub fn new(writer: W) -> RealSink<W>
        ensures { ⟦<RealSink<W> as Sink>⟧.faults result ≡ 0 }
    {
        RealSink { writer, faults: 0 }
    }
}

impl<W: Write> Sink for RealSink<W> {
    ghost taken = { λ _. None };

    ghost faults = { λ sink. sink.faults };

    fn write(&mut self, buf: &[u8]) -> Result<usize, WriteFault> {
        match self.writer.write(buf) {
            Ok(count) if 0 < count || buf.is_empty() => Ok(count),
            _ => {
                self.faults += 1;
                Err(WriteFault)
            }
        }
    }
}
