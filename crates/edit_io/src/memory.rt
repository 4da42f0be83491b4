// Sources and sinks in memory.
ghost use Rattle.std.specs.Prelude.{◌≡◌, ℕ, ◌+◌, ◌-◌, ◌^◌, ◌<◌, ◌≤◌, ◌↔◌, ◌++◌, true, length, take, drop, min, vec_len, Some, IfOk, IfErr, OnOk, OnErr, IsOk, IsErr, IsErrOf, IsTrue};
ghost use Rattle.edit_io.specs.Faults.{next_call, fails_at, failed_below};

use crate::streams::{Failed, Sink, SinkFault, Source};

/// Hands out its bytes from `at` on, at most `piece` a call, and fails in the calls that `failing`
/// lists by their numbers, counted from 0.
#[derive(Drop)]
pub struct MemorySource {
    pub bytes: Vec<u8>,
    pub at: usize,
    pub piece: usize,
    pub failing: Vec<u64>,
    pub calls: u64,
    pub ghost within: { at ≤ vec_len bytes },
    pub ghost some: { 0 < piece },
}

impl Source for MemorySource {
    ghost left = { λ s. Some (drop s.at s.bytes.items) };

    ghost faults = { λ s. failed_below s.failing.items s.calls };

    ghost handed = { λ s. s.at };

    fn read(&mut self, buf: &mut [u8]) -> Result<usize, Failed>
        requires { 0 < length buf.old }
        ensures fails { IsErr result ↔ IsTrue (fails_at self.old.failing.items self.old.calls) }
        ensures calls { self.new.calls ≡ next_call self.old.calls }
        ensures given { IfOk result (λ n. n ≡ min (min self.old.piece (length buf.old))
            (vec_len self.old.bytes - self.old.at)) }
        ensures moved { IfOk result (λ n. self.new.at ≡ self.old.at + n) }
        ensures stays { OnErr result (self.new.at ≡ self.old.at) }
        ensures written { IfOk result (λ n. buf.new ≡ take n (drop self.old.at self.old.bytes.items)
            ++ drop n buf.old) }
        ensures untouched { OnErr result (buf.new ≡ buf.old) }
        ensures same { (self.new.bytes ≡ self.old.bytes) × (self.new.piece ≡ self.old.piece)
            × (self.new.failing ≡ self.old.failing) }
    {
        let call = self.calls;
        self.calls = call.saturating_add(1);
        if fails_now(&self.failing, call) {
            return Err(Failed);
        }
        let count = hand_out(&self.bytes, self.at, self.piece, buf);
        self.at += count;
        Ok(count)
    }
}

/// Hands out the bytes of a slice from `at` on, as many a call as the buffer takes, and never
/// fails.
#[derive(Drop)]
pub struct SliceSource<'a> {
    pub bytes: &'a [u8],
    pub at: usize,
    pub ghost within: { at ≤ length bytes.now },
}

impl<'a> Source for SliceSource<'a> {
    ghost left = { λ s. Some (drop s.at s.bytes.now) };

    ghost faults = { λ _. 0 };

    ghost handed = { λ s. s.at };

    fn read(&mut self, buf: &mut [u8]) -> Result<usize, Failed>
        requires { 0 < length buf.old }
        ensures sure { IsOk result }
        ensures given { IfOk result (λ n. n
            ≡ min (length buf.old) (length self.old.bytes.now - self.old.at)) }
        ensures moved { IfOk result (λ n. self.new.at ≡ self.old.at + n) }
        ensures written { IfOk result (λ n. buf.new ≡ take n (drop self.old.at self.old.bytes.now)
            ++ drop n buf.old) }
        ensures same { self.new.bytes.now ≡ self.old.bytes.now }
        ensures fits { self.new.at < 2 ^ 64 }
    {
        let count = hand_out(self.bytes, self.at, buf.len(), buf);
        self.at += count;
        Ok(count)
    }
}

/// Takes at most `piece` bytes a call, and fails in the calls that `failing` lists by their
/// numbers, counted from 0. A call for which there is no memory isn't counted.
#[derive(Drop)]
pub struct MemorySink {
    pub taken: Vec<u8>,
    pub piece: usize,
    pub failing: Vec<u64>,
    pub calls: u64,
    pub ghost some: { 0 < piece },
}

impl Sink for MemorySink {
    ghost taken = { λ s. Some s.taken.items };

    ghost faults = { λ s. failed_below s.failing.items s.calls };

    fn write(&mut self, piece: &[u8]) -> Result<usize, SinkFault>
        requires { 0 < length piece.now }
        ensures fails { IsErrOf result SinkFault.Failed
            ↔ IsTrue (fails_at self.old.failing.items self.old.calls) }
        ensures given { IfOk result (λ n. n ≡ min self.old.piece (length piece.now)) }
        ensures grown { IfOk result (λ n. self.new.taken.items ≡ self.old.taken.items
            ++ take n piece.now) }
        ensures stays { OnErr result (self.new.taken.items ≡ self.old.taken.items) }
        ensures calls { OnOk result (self.new.calls ≡ next_call self.old.calls) }
        ensures failed_calls { IfErr result (λ e. e ≡ SinkFault.Failed → self.new.calls
            ≡ self.old.calls + 1) }
        ensures memory_calls { IfErr result (λ e. e ≡ SinkFault.Memory → self.new.calls
            ≡ self.old.calls) }
        ensures same { (self.new.piece ≡ self.old.piece) × (self.new.failing ≡ self.old.failing) }
    {
        if fails_now(&self.failing, self.calls) {
            self.calls += 1;
            return Err(SinkFault::Failed);
        }
        let count = self.piece.min(piece.len());
        self.taken.extend_from_slice(&piece[..count])?;
        self.calls = self.calls.saturating_add(1);
        Ok(count)
    }
}

/// Takes whatever it is given, and fails only where memory is out.
#[derive(Drop)]
pub struct SureSink {
    pub taken: Vec<u8>,
}

impl Sink for SureSink {
    ghost taken = { λ s. Some s.taken.items };

    ghost faults = { λ _. 0 };

    fn write(&mut self, piece: &[u8]) -> Result<usize, SinkFault>
        requires { 0 < length piece.now }
        ensures sure { IfErr result (λ e. e ≡ SinkFault.Memory) }
        ensures given { IfOk result (λ n. n ≡ length piece.now) }
        ensures grown { OnOk result (self.new.taken.items ≡ self.old.taken.items ++ piece.now) }
        ensures stays { OnErr result (self.new.taken.items ≡ self.old.taken.items) }
    {
        self.taken.extend_from_slice(piece)?;
        Ok(piece.len())
    }
}

// Whether the call with this number is to fail.
fn fails_now(failing: &Vec<u64>, call: u64) -> bool
    ensures { result ≡ fails_at failing.now.items call }
{
    failing.contains(&call) && call < u64::MAX
}

// Copies bytes from `at` on to the front of the buffer, as many as there are, are let out and have
// room.
fn hand_out(bytes: &[u8], at: usize, most: usize, buf: &mut [u8]) -> usize
    requires { at ≤ length bytes.now }
    ensures count { result ≡ min (min most (length buf.old)) (length bytes.now - at) }
    ensures written { buf.new ≡ take result (drop at bytes.now) ++ drop result buf.old }
{
    let rest = &bytes[at..];
    let count = most.min(buf.len()).min(rest.len());
    buf[..count].copy_from_slice(&rest[..count]);
    count
}
