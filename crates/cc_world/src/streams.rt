ghost use Rattle.std.specs.Prelude.{◌≡◌, true};
ghost use Rattle.cc_world.specs.Told.{is_told_if};

use crate::fault::IoFault;
use crate::sink::Sink;
use crate::source::Source;
use std::io::{Read, Write};

/// A source over any reader. It tells its bytes if it was made by `telling`, and else nothing, as over standard input
/// and files, whose bytes aren't known. Each error counts as a fault.
#[derive(Drop)]
pub struct StdSource<R: Read + Drop> {
    reader: R,
    faults: u64,
    tells: bool,
    ghost known: { is_told_if tells (R.remaining reader) ≡ true },
}

impl<R: Read + Drop> StdSource<R> {
    ghost use Rattle.std.specs.Prelude.{◌≡◌, None, true};
    ghost use Rattle.std.specs.Option.{is_some};
    ghost use Rattle.cc_world.specs.System.{source_faults, source_left};

    /// A source with no faults so far, which tells nothing.
    pub fn new(reader: R) -> StdSource<R>
        ensures faults { source_faults result ≡ 0 }
        ensures left { source_left result ≡ None }
    {
        StdSource {
            reader,
            faults: 0,
            tells: false,
        }
    }

    /// A source with no faults so far, which tells the bytes that the reader has left.
    pub fn telling(reader: R) -> StdSource<R>
        requires known { is_some (R.remaining reader) ≡ true }
        ensures faults { source_faults result ≡ 0 }
        ensures left { source_left result ≡ R.remaining reader }
    {
        StdSource {
            reader,
            faults: 0,
            tells: true,
        }
    }
}

impl<R: Read + Drop> Source for StdSource<R> {
    ghost use Rattle.std.specs.Prelude.{◌≡◌, ◌<◌, length, IfErr};
    ghost use Rattle.cc_world.specs.Causes.{HasCause, StaysUnlessFailed};
    ghost use Rattle.cc_world.specs.System.{source_faults, source_left};
    ghost use Rattle.cc_world.specs.Told.{Takes};

    ghost left = { λ s. source_left s };

    ghost faults = { λ s. source_faults s };

    fn take(&mut self, buf: &mut [u8]) -> Result<usize, IoFault>
        requires { 0 < length buf.old }
        ensures bytes { Takes (source_left self.old) (source_left self.new) result buf.new }
        ensures cause { HasCause (source_faults self.old) (source_faults self.new) result }
        ensures spared { StaysUnlessFailed (source_faults self.old) (source_faults self.new) result }
        ensures only { IfErr result (λ e. e ≡ IoFault.Failed) }
    {
        match self.reader.read(buf) {
            Ok(count) => Ok(count),
            Err(_) => {
                self.faults = self.faults.saturating_add(1);
                Err(IoFault::Failed)
            }
        }
    }
}

/// A sink over any writer. It tells its bytes if it was made by `telling`, and else nothing, as over standard output and
/// files, whose bytes aren't known. Each error counts as a fault, and so does a writer that takes nothing.
#[derive(Drop)]
pub struct StdSink<W: Write + Drop> {
    writer: W,
    faults: u64,
    tells: bool,
    ghost known: { is_told_if tells (W.contents writer) ≡ true },
}

impl<W: Write + Drop> StdSink<W> {
    ghost use Rattle.std.specs.Prelude.{◌≡◌, IfSome, None, Some, true};
    ghost use Rattle.std.specs.Option.{is_some};
    ghost use Rattle.cc_world.specs.System.{sink_faults, sink_held};

    /// A sink with no faults so far, which tells nothing.
    pub fn new(writer: W) -> StdSink<W>
        ensures faults { sink_faults result ≡ 0 }
        ensures held { sink_held result ≡ None }
    {
        StdSink {
            writer,
            faults: 0,
            tells: false,
        }
    }

    /// A sink with no faults so far, which tells the bytes that the writer holds.
    pub fn telling(writer: W) -> StdSink<W>
        requires known { is_some (W.contents writer) ≡ true }
        ensures faults { sink_faults result ≡ 0 }
        ensures held { sink_held result ≡ W.contents writer }
    {
        StdSink {
            writer,
            faults: 0,
            tells: true,
        }
    }

    /// The writer, which holds what the sink held.
    pub fn into_writer(self) -> W
        ensures held { IfSome (sink_held self) (λ bytes. W.contents result ≡ Some bytes) }
    {
        self.writer
    }
}

impl<W: Write + Drop> Sink for StdSink<W> {
    ghost use Rattle.cc_world.specs.System.{sink_faults, sink_held};

    ghost held = { λ s. sink_held s };

    ghost faults = { λ s. sink_faults s };

    ghost wants = { λ _. 0 };

    fn put(&mut self, bytes: &[u8]) -> Result<usize, IoFault> {
        match self.writer.write(bytes) {
            Ok(count) if count > 0 => Ok(count),
            _ => {
                self.faults = self.faults.saturating_add(1);
                Err(IoFault::Failed)
            }
        }
    }
}
