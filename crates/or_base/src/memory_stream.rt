ghost use Rattle.std.specs.Prelude.{◌≡◌, ◌+◌, ◌-◌, ◌<◌, ◌≤◌, ◌^◌, ◌++◌, ◌||◌, [], Some, length, drop, take, min, nat_lt, is_err, IfOk, OnOk, OnErr, vec_capacity};
ghost use Rattle.or_base.specs.Memory.{is_listed, next_call, sink_bytes};
ghost use Rattle.or_base.specs.Stream.{ReadsFront, WritesFront};

use crate::memory::NoMemory;
use crate::stream::{ReadFault, Sink, Source, WriteFault};
use std::alloc::Global;

/// A source over bytes in memory, some of whose reads fail. Calls are numbered from 1.
#[derive(Drop)]
pub struct MemSource {
    bytes: Vec<u8>,
    at: usize,
    per_call: usize,
    failing: Vec<u64>,
    calls: u64,
    faults: u64,
    ghost in_range: { at ≤ length bytes.items },
    ghost gives: { 0 < per_call },
}

impl MemSource {
    /// Gives at most `per_call` bytes a call, and fails the calls whose numbers, from 1, are listed.
    pub fn new(bytes: Vec<u8>, per_call: usize, failing: Vec<u64>) -> Result<MemSource, NoMemory>
        requires { 0 < per_call }
        ensures left { IfOk result (λ source. ⟦<MemSource as Source>⟧.left source ≡ Some bytes.items) }
        ensures faults { IfOk result (λ source. ⟦<MemSource as Source>⟧.faults source ≡ 0) }
        ensures per_call { IfOk result (λ source. source.per_call ≡ per_call) }
        ensures failing { IfOk result (λ source. source.failing ≡ failing) }
        ensures calls { IfOk result (λ source. source.calls ≡ 0) }
    {
        Ok(MemSource {
            bytes,
            at: 0,
            per_call,
            failing,
            calls: 0,
            faults: 0,
        })
    }
}

impl Source for MemSource {
    ghost left = { λ source. Some (drop source.at source.bytes.items) };

    ghost faults = { λ source. source.faults };

    /// Fails exactly where this call is listed, and else gives as many bytes as are left, as `per_call` and the
    /// buffer allow.
    fn read(&mut self, buf: &mut [u8]) -> Result<usize, ReadFault>
        requires { self.old.faults < 2 ^ 62 }
        ensures within { IfOk result (λ count. count ≤ length buf.old) }
        ensures bytes { IfOk result (λ count. ReadsFront (Some (drop self.old.at self.old.bytes.items)) (Some (drop self.new.at self.new.bytes.items)) count buf.new) }
        ensures ok { OnOk result (self.new.faults ≡ self.old.faults) }
        ensures err { OnErr result (self.new.at ≡ self.old.at) }
        ensures cause { OnErr result (self.new.faults ≡ self.old.faults + 1) }
        ensures fails { is_err result ≡ is_listed (next_call self.old.calls) self.old.failing.items }
        ensures count { IfOk result (λ count. count ≡ min (min (length self.old.bytes.items - self.old.at) self.old.per_call) (length buf.old)) }
        ensures calls { self.new.calls ≡ next_call self.old.calls }
        ensures same_bytes { self.new.bytes ≡ self.old.bytes }
        ensures same_failing { self.new.failing ≡ self.old.failing }
        ensures same_per_call { self.new.per_call ≡ self.old.per_call }
    {
        self.calls = self.calls.saturating_add(1);
        if self.failing.contains(&self.calls) {
            self.faults += 1;
            return Err(ReadFault);
        }
        let left = &self.bytes.as_slice()[self.at..];
        let count = left.len().min(self.per_call).min(buf.len());
        buf[..count].copy_from_slice(&left[..count]);
        self.at += count;
        Ok(count)
    }
}

/// How many bytes a sink in memory takes, 32 MiB.
pub const SINK_BYTES: usize = 33_554_432;

/// A sink into memory, some of whose writes fail. A write past `SINK_BYTES` fails too. Calls are numbered from 1.
#[derive(Drop)]
pub struct MemSink {
    bytes: Vec<u8>,
    per_call: usize,
    failing: Vec<u64>,
    calls: u64,
    faults: u64,
    ghost takes: { 0 < per_call },
    ghost in_range: { length bytes.items ≤ sink_bytes },
    ghost room: { sink_bytes ≤ vec_capacity bytes },
}

impl MemSink {
    /// Takes at most `per_call` bytes a call, and fails the calls whose numbers, from 1, are listed. All its
    /// memory is reserved here.
    pub fn new(alloc: Global, per_call: usize, failing: Vec<u64>) -> Result<MemSink, NoMemory>
        requires { 0 < per_call }
        ensures taken { IfOk result (λ sink. ⟦<MemSink as Sink>⟧.taken sink ≡ Some []) }
        ensures faults { IfOk result (λ sink. ⟦<MemSink as Sink>⟧.faults sink ≡ 0) }
        ensures per_call { IfOk result (λ sink. sink.per_call ≡ per_call) }
        ensures failing { IfOk result (λ sink. sink.failing ≡ failing) }
        ensures calls { IfOk result (λ sink. sink.calls ≡ 0) }
    {
        Ok(MemSink {
            bytes: Vec::with_capacity(alloc, SINK_BYTES)?,
            per_call,
            failing,
            calls: 0,
            faults: 0,
        })
    }

    /// The bytes taken.
    pub fn bytes(&self) -> &[u8]
        ensures { ⟦<MemSink as Sink>⟧.taken self.now ≡ Some result.now }
    {
        self.bytes.as_slice()
    }
}

impl Sink for MemSink {
    ghost taken = { λ sink. Some sink.bytes.items };

    ghost faults = { λ sink. sink.faults };

    /// Fails exactly where this call is listed or its bytes go past `SINK_BYTES`, and else takes as many bytes as
    /// the buffer has and `per_call` allows.
    fn write(&mut self, buf: &[u8]) -> Result<usize, WriteFault>
        requires { self.old.faults < 2 ^ 62 }
        ensures within { IfOk result (λ count. count ≤ length buf.now) }
        ensures progress { IfOk result (λ count. 0 < length buf.now → 0 < count) }
        ensures bytes { IfOk result (λ count. WritesFront (Some self.old.bytes.items) (Some self.new.bytes.items) count buf.now) }
        ensures ok { OnOk result (self.new.faults ≡ self.old.faults) }
        ensures err { OnErr result (self.new.bytes.items ≡ self.old.bytes.items) }
        ensures cause { OnErr result (self.new.faults ≡ self.old.faults + 1) }
        ensures fails { is_err result ≡ (is_listed (next_call self.old.calls) self.old.failing.items || nat_lt (sink_bytes - length self.old.bytes.items) (min (length buf.now) self.old.per_call)) }
        ensures count { IfOk result (λ count. count ≡ min (length buf.now) self.old.per_call) }
        ensures calls { self.new.calls ≡ next_call self.old.calls }
        ensures same_failing { self.new.failing ≡ self.old.failing }
        ensures same_per_call { self.new.per_call ≡ self.old.per_call }
    {
        self.calls = self.calls.saturating_add(1);
        let count = buf.len().min(self.per_call);
        let refused = self.failing.contains(&self.calls) || SINK_BYTES - self.bytes.len() < count;
        if refused || self.bytes.extend_from_slice(&buf[..count]).is_err() {
            self.faults += 1;
            return Err(WriteFault);
        }
        Ok(count)
    }
}
