ghost use Rattle.std.specs.Prelude.{◌≡◌, ◌≤◌, ◌<◌, ◌↔◌, [], length, min, IfErr, IfOk, IsErr, IsErrOf, None, Some};
ghost use Rattle.cc_world.specs.Calls.{counted, FailsNext, none_made};
ghost use Rattle.cc_world.specs.Causes.{faults_after, HasCause, HasWant, StaysUnlessFailed, wants_after};
ghost use Rattle.cc_world.specs.Told.{Puts, Takes};

use crate::calls::Calls;
use crate::fault::IoFault;
use crate::sink::Sink;
use crate::source::Source;
use cc_base::{Bytes, Cells};
use std::alloc::Global;

/// A source over bytes in memory. It gives at most `piece` bytes a call, and fails where it is told to.
#[derive(Drop)]
pub struct MemSource {
    bytes: Bytes,
    at: usize,
    piece: usize,
    calls: Calls,
    faults: u64,
    ghost gives: { 1 ≤ piece },
    ghost inside: { at ≤ length bytes },
}

impl MemSource {
    ghost use Rattle.cc_world.specs.MemSource.{bytes_left, calls_of, faults_of, piece_of};

    /// A source of these bytes, which gives at least one byte a call. `failing` lists the numbers of the calls that
    /// fail, from 1.
    pub fn new(bytes: Bytes, piece: usize, failing: Cells) -> MemSource
        requires { 1 ≤ piece }
        ensures left { bytes_left result ≡ bytes }
        ensures faults { faults_of result ≡ 0 }
        ensures piece { piece_of result ≡ piece }
        ensures calls { calls_of result ≡ none_made failing }
    {
        MemSource {
            bytes,
            at: 0,
            piece,
            calls: Calls::new(failing),
            faults: 0,
        }
    }
}

impl Source for MemSource {
    ghost use Rattle.cc_world.specs.MemSource.{bytes_left, calls_of, faults_of, piece_of};
    ghost use Rattle.std.specs.Prelude.{Some};

    ghost left = { λ s. Some (bytes_left s) };

    ghost faults = { λ s. faults_of s };

    fn take(&mut self, buf: &mut [u8]) -> Result<usize, IoFault>
        requires { 0 < length buf.old }
        ensures bytes { Takes (Some (bytes_left self.old)) (Some (bytes_left self.new)) result buf.new }
        ensures cause { HasCause (faults_of self.old) (faults_of self.new) result }
        ensures spared { StaysUnlessFailed (faults_of self.old) (faults_of self.new) result }
        ensures faults { faults_of self.new ≡ faults_after result (faults_of self.old) }
        ensures fails { IsErr result ↔ FailsNext (calls_of self.old) }
        ensures only { IfErr result (λ e. e ≡ IoFault.Failed) }
        ensures count { let most = min (length (bytes_left self.old)) (length buf.old) in
            IfOk result (λ n. n ≡ min (piece_of self.old) most) }
        ensures calls { calls_of self.new ≡ counted (calls_of self.old) }
        ensures piece { piece_of self.new ≡ piece_of self.old }
    {
        if self.calls.next_fails() {
            self.faults = self.faults.saturating_add(1);
            return Err(IoFault::Failed);
        }
        let rest = &self.bytes.as_slice()[self.at..];
        let count = self.piece.min(rest.len().min(buf.len()));
        buf[..count].copy_from_slice(&rest[..count]);
        self.at += count;
        Ok(count)
    }
}

/// A sink that keeps its bytes in memory. It takes at most `piece` bytes a call, and fails where it is told to.
#[derive(Drop)]
pub struct MemSink {
    bytes: Bytes,
    piece: usize,
    calls: Calls,
    faults: u64,
    wants: u64,
    ghost takes: { 1 ≤ piece },
}

impl MemSink {
    ghost use Rattle.cc_world.specs.MemSink.{bytes_held, calls_of, faults_of, piece_of, wants_of};

    /// An empty sink. `failing` lists the numbers of the calls that fail, from 1.
    pub fn new(alloc: Global, piece: usize, failing: Cells) -> MemSink
        requires { 1 ≤ piece }
        ensures held { bytes_held result ≡ [] }
        ensures faults { faults_of result ≡ 0 }
        ensures wants { wants_of result ≡ 0 }
        ensures piece { piece_of result ≡ piece }
        ensures calls { calls_of result ≡ none_made failing }
    {
        MemSink {
            bytes: Bytes::new(alloc),
            piece,
            calls: Calls::new(failing),
            faults: 0,
            wants: 0,
        }
    }

    /// What it holds.
    pub fn bytes(&self) -> &Bytes
        ensures { result.now ≡ bytes_held self.now }
    {
        &self.bytes
    }
}

impl Sink for MemSink {
    ghost use Rattle.cc_world.specs.MemSink.{bytes_held, calls_of, faults_of, piece_of, wants_of};
    ghost use Rattle.std.specs.Prelude.{Some};

    ghost held = { λ s. Some (bytes_held s) };

    ghost faults = { λ s. faults_of s };

    ghost wants = { λ s. wants_of s };

    fn put(&mut self, bytes: &[u8]) -> Result<usize, IoFault>
        requires { 0 < length bytes.now }
        ensures bytes { Puts (Some (bytes_held self.old)) (Some (bytes_held self.new)) result bytes.now }
        ensures cause { HasCause (faults_of self.old) (faults_of self.new) result }
        ensures spared { StaysUnlessFailed (faults_of self.old) (faults_of self.new) result }
        ensures want { HasWant (wants_of self.old) (wants_of self.new) result }
        ensures faults { faults_of self.new ≡ faults_after result (faults_of self.old) }
        ensures wants { wants_of self.new ≡ wants_after result (wants_of self.old) }
        ensures fails { IsErrOf result IoFault.Failed ↔ FailsNext (calls_of self.old) }
        ensures count { IfOk result (λ n. n ≡ min (piece_of self.old) (length bytes.now)) }
        ensures calls { calls_of self.new ≡ counted (calls_of self.old) }
        ensures piece { piece_of self.new ≡ piece_of self.old }
    {
        if self.calls.next_fails() {
            self.faults = self.faults.saturating_add(1);
            return Err(IoFault::Failed);
        }
        let count = self.piece.min(bytes.len());
        match self.bytes.append(&bytes[..count]) {
            Ok(()) => Ok(count),
            Err(_) => {
                self.wants = self.wants.saturating_add(1);
                Err(IoFault::Memory)
            }
        }
    }
}
