use cc_base::Bytes;
use cc_world::{
    Clock, DirShelf, IoFault, RealClock, Shelf, Sink, Source, StdSink, StdSource, write_all,
};
use std::alloc::Global;
use std::cell::Cell;
use std::fs;
use std::io::{self, ErrorKind, Read, Write};
use std::rt::HostRuntime;
use std::test::Fail;
use std::time::{self, Duration};
use std::vec::Vec;

/// A writer that takes one byte a call, and none once it is full.
#[derive(Drop)]
struct OneByteWriter {
    bytes: Vec<u8>,
    room: usize,
}

impl Write for OneByteWriter {
    fn write(&mut self, buf: &[u8]) -> io::Result<usize> {
        if buf.is_empty() || self.bytes.len() == self.room {
            return Ok(0);
        }
        self.bytes.push(buf[0])?;
        Ok(1)
    }

    fn flush(&mut self) -> io::Result<()> {
        Ok(())
    }
}

/// A reader of the letters from `a` on, which gives at most `piece` of them a call and `left` in all.
#[derive(Drop)]
struct LetterReader {
    next: u8,
    left: usize,
    piece: usize,
}

impl Read for LetterReader {
    fn read(&mut self, buf: &mut [u8]) -> io::Result<usize> {
        let count = self.piece.min(self.left).min(buf.len());
        self.left -= count;
        for byte in buf[..count].iter_mut() {
            *byte = self.next;
            self.next = self.next.wrapping_add(1);
        }
        Ok(count)
    }
}

/// A writer and a reader that always fail.
#[derive(Drop)]
struct Broken;

impl Write for Broken {
    fn write(&mut self, _buf: &[u8]) -> io::Result<usize> {
        Err(io::Error::from(ErrorKind::OutOfMemory))
    }

    fn flush(&mut self) -> io::Result<()> {
        Ok(())
    }
}

impl Read for Broken {
    fn read(&mut self, _buf: &mut [u8]) -> io::Result<usize> {
        Err(io::Error::from(ErrorKind::BrokenPipe))
    }
}

#[test]
fn a_sink_tells_the_bytes_of_a_vector(rt: HostRuntime) -> Result<(), Fail> {
    let mut sink = StdSink::telling(Vec::new(rt.alloc()));
    write_all(&mut sink, b"ab").or(Err("no put"))?;
    write_all(&mut sink, b"c").or(Err("no put"))?;
    assert_eq!(rt; sink.into_writer().as_slice(), b"abc".as_slice());
    Ok(())
}

#[test]
fn a_writer_of_one_byte_gets_all_bytes(rt: HostRuntime) -> Result<(), Fail> {
    let mut sink = StdSink::new(OneByteWriter {
        bytes: Vec::new(rt.alloc()),
        room: 5,
    });
    assert_eq!(rt; sink.put(b"abc"), Ok(1));
    assert_eq!(rt; write_all(&mut sink, b"bcd"), Ok(()));
    assert_eq!(rt; write_all(&mut sink, b"ef"), Err(IoFault::Failed));
    assert_eq!(rt; sink.into_writer().bytes.as_slice(), b"abcde".as_slice());
    Ok(())
}

/// All that a source gives.
fn all_of<S: Source>(alloc: Global, source: &mut S) -> Result<Bytes, IoFault> {
    let mut bytes = Bytes::new(alloc);
    let mut buf = [0u8; 8];
    for _ in 0..100 {
        let count = source.take(&mut buf)?;
        if count == 0 {
            break;
        }
        bytes.append(&buf[..count])?;
    }
    Ok(bytes)
}

#[test]
fn a_reader_in_pieces_gives_all_bytes(rt: HostRuntime) -> Result<(), Fail> {
    for piece in [1, 3, 20] {
        let mut source = StdSource::new(LetterReader {
            next: b'a',
            left: 20,
            piece,
        });
        let bytes = all_of(rt.alloc(), &mut source).or(Err("no take"))?;
        assert_eq!(rt; bytes.as_slice(), b"abcdefghijklmnopqrst".as_slice());
    }
    Ok(())
}

#[test]
fn each_error_of_a_stream_is_a_fault(rt: HostRuntime) -> Result<(), Fail> {
    let mut sink = StdSink::new(Broken);
    let mut source = StdSource::new(Broken);
    let mut buf = [0u8; 8];
    assert_eq!(rt; sink.put(b"a"), Err(IoFault::Failed));
    assert_eq!(rt; source.take(&mut buf), Err(IoFault::Failed));
    Ok(())
}

/// So many bytes, which repeat after 251.
fn pattern(alloc: Global, len: usize) -> Result<Bytes, Fail> {
    let mut bytes = Bytes::new(alloc);
    let mut next = 0u8;
    for _ in 0..len {
        bytes.push(next)?;
        next = if next == 250 { 0 } else { next.wrapping_add(1) };
    }
    Ok(bytes)
}

/// A file of these tests alone, which they remove.
const SCRATCH: &str = "cc_world_edges";

#[test]
fn files_of_each_size_are_read_whole(rt: HostRuntime) -> Result<(), Fail> {
    let mut shelf = DirShelf::new(&rt, rt.alloc());
    for len in [0, 1, 4096, 4097, 1_048_577] {
        let bytes = pattern(rt.alloc(), len)?;
        shelf.write(SCRATCH, bytes.as_slice()).or(Err("no write"))?;
        let read = shelf.read(SCRATCH, 2_000_000).or(Err("no read"))?;
        assert!(rt; read.as_slice() == bytes.as_slice());
        let front = shelf.read(SCRATCH, 4096).or(Err("no read"))?;
        assert_eq!(rt; front.len(), len.min(4096));
        assert!(rt; bytes.as_slice().starts_with(front.as_slice()));
    }
    fs::remove_file(&rt, SCRATCH)?;
    Ok(())
}

#[test]
fn what_is_no_file_fails(rt: HostRuntime) -> Result<(), Fail> {
    let mut shelf = DirShelf::new(&rt, rt.alloc());
    assert!(rt; matches!(shelf.read("cc_world_missing", 3), Err(IoFault::Failed)));
    assert!(rt; matches!(shelf.read(".", 3), Err(IoFault::Failed)));
    assert_eq!(rt; shelf.write(".", b"a"), Err(IoFault::Failed));
    assert_eq!(rt;
        shelf.write("cc_world_missing/j", b"a"),
        Err(IoFault::Failed)
    );
    assert_eq!(rt; shelf.write("", b"a"), Err(IoFault::Failed));
    Ok(())
}

/// A clock of the system that goes on in sleep alone.
#[derive(Drop)]
struct SleepClock {
    nanos: Cell<u64>,
}

impl time::Clock for SleepClock {
    fn monotonic(&self) -> io::Result<Duration> {
        Ok(Duration::from_nanos(self.nanos.get()))
    }

    fn since_1970(&self) -> io::Result<Duration> {
        Ok(Duration::from_nanos(self.nanos.get()))
    }

    fn sleep(&self, duration: Duration) {
        let slept = u64::try_from(duration.as_nanos()).unwrap_or(0);
        self.nanos.set(self.nanos.get().saturating_add(slept));
    }
}

#[test]
fn a_rest_sleeps_up_to_its_moment(rt: HostRuntime) -> Result<(), Fail> {
    let system = SleepClock {
        nanos: Cell::new(7_000_000_000),
    };
    let mut clock = RealClock::new(&system);
    assert_eq!(rt; clock.now(), 0);
    clock.rest(40);
    assert_eq!(rt; clock.now(), 40);
    clock.rest(45);
    assert_eq!(rt; clock.now(), 45);
    clock.rest(45);
    clock.rest(3);
    assert_eq!(rt; clock.now(), 45);
    Ok(())
}
