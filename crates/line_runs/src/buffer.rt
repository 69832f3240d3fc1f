//! One buffer for the line that is read.
ghost use Rattle.std.specs.Prelude.{◌≡◌, ◌≢◌, ◌↔◌, ◌+◌, ◌<◌, ◌≤◌, ◌==◌, ℕ, List, [], ◌∷◌, ◌++◌, length, take, drop, IsTrue, IfOk, OnErr, OnOk, MatchBool, MatchOption};
ghost use Rattle.std.specs.Io.KnownBytes.{Consumes, Keeps, IsAtEnd};
ghost use Rattle.tensor_ports.specs.Causes.{HasCause};
ghost use Rattle.line_runs.specs.Reads.{HasNoBreak, Gives};

use std::alloc::{AllocError, Global};
use std::marker::Model;
use tensor_ports::{Source, SourceFailed};

/// How many bytes are held at most: a line of 4000 bytes and its LF.
pub const ROOM: usize = 4001;

/// The bytes that were read and are not yet answered.
#[derive(Drop)]
pub struct LineBuffer {
    bytes: Vec<u8>,
    start: usize,
    end: usize,
}

impl Model for LineBuffer {
    ghost use Rattle.std.specs.Prelude.{◌≡◌, ◌≤◌, ℕ, List, length, take, drop};

    ghost Value = { List ℕ };

    ghost view = { λ b. drop b.start (take b.end b.bytes.items) };

    ghost invariant = { λ b. (b.start ≤ b.end) × (b.end ≤ 4001) × (length b.bytes.items ≡ 4001) };
}

impl LineBuffer {
    pub fn new(alloc: Global) -> Result<LineBuffer, AllocError>
        ensures { IfOk result (λ b. b ≡ []) }
    {
        let bytes = vec![in alloc; 0; ROOM]?;
        Ok(LineBuffer {
            bytes,
            start: 0,
            end: 0,
        })
    }

    /// What is held.
    pub fn held(&self) -> &[u8]
        ensures held { result.now ≡ self.now }
        ensures fits { length self.now ≤ 4001 }
    {
        &self.bytes[self.start..self.end]
    }

    /// The first of the bytes that are held.
    pub fn front(&self, count: usize) -> &[u8]
        requires { count ≤ length self.now }
        ensures { result.now ≡ take count self.now }
    {
        &self.bytes[self.start..self.start + count]
    }

    /// Lets the first of the bytes go.
    pub fn remove(&mut self, count: usize)
        requires { count ≤ length self.old }
        ensures { self.new ≡ drop count self.old }
    {
        self.start += count;
    }

    /// Lets all bytes go where the buffer is full. Tells whether it was.
    pub fn let_go(&mut self) -> bool
        ensures { MatchBool result ((length self.old ≡ 4001) × (self.new ≡ [])) ((length self.old < 4001) × (self.new ≡ self.old)) }
    {
        let full = self.end - self.start == ROOM;
        if full {
            self.start = 0;
            self.end = 0;
        }
        full
    }

    /// Reads once, at most this many bytes, behind those that are held.
    pub fn fill<I: Source>(&mut self, source: &mut I, most: usize) -> Result<usize, SourceFailed>
        requires room { length self.old < 4001 }
        requires some { 0 < most }
        ensures count { IfOk result (λ n. n ≤ most) }
        ensures added { IfOk result (λ n. (bytes : List ℕ) × (length bytes ≡ n) × (self.new ≡ self.old ++ bytes)
            × Consumes (I.left source.old) (I.left source.new) bytes) }
        ensures end { IfOk result (λ n. n ≡ 0 → IsAtEnd (I.left source.new)) }
        ensures err { OnErr result ((self.new ≡ self.old) × Keeps (I.left source.old) (I.left source.new)) }
        ensures fits { length self.new ≤ 4001 }
        ensures cause { HasCause (I.faults source.old) (I.faults source.new) result }
        ensures calm { OnOk result (I.faults source.new ≡ I.faults source.old) }
    {
        self.bytes.copy_within(self.start..self.end, 0);
        self.end -= self.start;
        self.start = 0;
        let stop = self.end + most.min(ROOM - self.end);
        match source.read(&mut self.bytes[self.end..stop]) {
            Ok(count) => {
                self.end += count;
                Ok(count)
            }
            Err(failed) => Err(failed),
        }
    }
}

/// What one more read gave.
pub enum More {
    Bytes(usize),
    End,
    Past,
}

/// Reads once more, within a budget of bytes. Without a budget it only looks whether there is a byte more.
pub fn read_more<I: Source>(
    buffer: &mut LineBuffer,
    source: &mut I,
    budget: u64,
) -> Result<More, SourceFailed>
    requires { length buffer.old < 4001 }
    ensures ok { IfOk result (λ m. Gives m budget buffer.old buffer.new (I.left source.old) (I.left source.new)) }
    ensures err { OnErr result ((buffer.new ≡ buffer.old) × Keeps (I.left source.old) (I.left source.new)) }
    ensures fits { length buffer.new ≤ 4001 }
    ensures cause { HasCause (I.faults source.old) (I.faults source.new) result }
    ensures calm { OnOk result (I.faults source.new ≡ I.faults source.old) }
{
    if budget == 0 {
        let mut probe = [0u8; 1];
        return match source.read(&mut probe) {
            Ok(0) => Ok(More::End),
            Ok(_) => Ok(More::Past),
            Err(failed) => Err(failed),
        };
    }
    let most = budget.min(ROOM as u64) as usize;
    match buffer.fill(source, most) {
        Ok(0) => Ok(More::End),
        Ok(count) => Ok(More::Bytes(count)),
        Err(failed) => Err(failed),
    }
}

/// The place of the first LF.
pub fn first_break(bytes: &[u8]) -> Option<usize>
    ensures { MatchOption result (HasNoBreak bytes.now) (λ at. (at < length bytes.now) × HasNoBreak (take at bytes.now)
        × (bytes.now ≡ take at bytes.now ++ 10 ∷ drop (at + 1) bytes.now)) }
{
    for i in 0..bytes.len() {
        if bytes[i] == b'\n' {
            return Some(i);
        }
    }
    None
}
