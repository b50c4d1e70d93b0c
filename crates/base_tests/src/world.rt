use cc_base::{Bytes, Cells};
use cc_world::{
    Clock, DirShelf, IoFault, MemShelf, MemSink, MemSource, Moments, RealClock, Shelf, Sink,
    Source, StdSink, StdSource, StepClock, write_all,
};
use std::alloc::Global;
use std::fs;
use std::rt::HostRuntime;
use std::test::Fail;

/// The numbers of one call that fails.
fn only(alloc: Global, call: i64) -> Result<Cells, Fail> {
    let mut failing = Cells::new(alloc);
    failing.push(call)?;
    Ok(failing)
}

fn take_eight<S: Source>(source: &mut S, buf: &mut [u8; 8]) -> Result<usize, IoFault> {
    source.take(buf)
}

fn put_abc<K: Sink>(sink: &mut K) -> Result<usize, IoFault> {
    sink.put(b"abc")
}

/// Sets a file and reads its beginning.
fn write_and_read<H: Shelf>(shelf: &mut H, name: &str, bytes: &[u8]) -> Result<Bytes, IoFault> {
    shelf.write(name, bytes)?;
    shelf.read(name, 3)
}

/// Two answers of a clock, with a rest of two milliseconds between.
fn rest_two<C: Clock>(clock: &mut C) -> (u64, u64) {
    let before = clock.now();
    clock.rest(before.saturating_add(2));
    (before, clock.now())
}

#[test]
fn source_gives_pieces(rt: HostRuntime) -> Result<(), Fail> {
    let bytes = Bytes::from_slice(rt.alloc(), b"abc")?;
    let mut source = MemSource::new(bytes.copy()?, 2, Cells::new(rt.alloc()));
    let mut buf = [0u8; 8];
    for count in [2, 1, 0] {
        assert_eq!(rt; take_eight(&mut source, &mut buf), Ok(count));
    }

    let mut failing = MemSource::new(bytes, 2, only(rt.alloc(), 2)?);
    assert_eq!(rt; take_eight(&mut failing, &mut buf), Ok(2));
    assert!(rt; buf[..2] == b"ab"[..]);
    assert_eq!(rt; take_eight(&mut failing, &mut buf), Err(IoFault::Failed));
    assert_eq!(rt; take_eight(&mut failing, &mut buf), Ok(1));
    assert!(rt; buf[..1] == b"c"[..]);
    Ok(())
}

#[test]
fn sink_takes_pieces(rt: HostRuntime) -> Result<(), Fail> {
    let mut sink = MemSink::new(rt.alloc(), 1, only(rt.alloc(), 5)?);
    assert_eq!(rt; put_abc(&mut sink), Ok(1));
    assert_eq!(rt; write_all(&mut sink, b""), Ok(()));
    assert_eq!(rt; write_all(&mut sink, b"xyz"), Ok(()));
    assert_eq!(rt; write_all(&mut sink, b"no"), Err(IoFault::Failed));
    assert_eq!(rt; write_all(&mut sink, b"!"), Ok(()));
    assert_eq!(rt; sink.bytes().as_slice(), b"axyz!".as_slice());
    Ok(())
}

#[test]
fn shelf_sets_and_reads_files(rt: HostRuntime) -> Result<(), Fail> {
    let mut shelf = MemShelf::new(rt.alloc(), only(rt.alloc(), 3)?);
    shelf.place("k", Bytes::from_slice(rt.alloc(), b"kept")?)?;
    let first = write_and_read(&mut shelf, "j", b"abcd")?;
    assert_eq!(rt; first.as_slice(), b"abc".as_slice());
    assert!(rt; write_and_read(&mut shelf, "j", b"lost").is_err());
    let whole = shelf.read("j", 9)?;
    assert_eq!(rt; whole.as_slice(), b"abcd".as_slice());
    let newest = write_and_read(&mut shelf, "j", b"e")?;
    assert_eq!(rt; newest.as_slice(), b"e".as_slice());
    assert!(rt; matches!(shelf.read("none", 3), Err(IoFault::Failed)));
    assert!(rt; shelf.file("none").is_none());
    assert_eq!(rt;
        shelf.file("k").ok_or("no file")?.as_slice(),
        b"kept".as_slice()
    );
    Ok(())
}

#[test]
fn clocks_rest(rt: HostRuntime) -> Result<(), Fail> {
    let mut moments = Moments::new(rt.alloc());
    moments.push(7)?;
    assert_eq!(rt; moments.len(), 1);
    assert_eq!(rt; moments.get(0), Some(7));
    assert_eq!(rt; moments.get(1), None);

    let mut step = StepClock::new(7);
    assert_eq!(rt; rest_two(&mut step), (7, 9));
    step.rest(3);
    assert_eq!(rt; step.now(), 9);

    let (before, after) = rest_two(&mut RealClock::new(&rt));
    assert!(rt; before.saturating_add(2) <= after);
    Ok(())
}

/// A file of this test alone, which it removes.
const SCRATCH: &str = "cc_world_scratch";

#[test]
fn system_moves_bytes(rt: HostRuntime) -> Result<(), Fail> {
    let mut shelf = DirShelf::new(&rt, rt.alloc());
    assert!(rt; matches!(shelf.read("cc_world_missing", 3), Err(IoFault::Failed)));
    assert_eq!(rt;
        shelf.write("cc_world_missing/j", b""),
        Err(IoFault::Failed)
    );
    let first = write_and_read(&mut shelf, SCRATCH, b"abcd")?;
    assert_eq!(rt; first.as_slice(), b"abc".as_slice());

    assert_eq!(rt;
        put_abc(&mut StdSink::new(fs::create(&rt, SCRATCH)?)),
        Ok(3)
    );
    let mut source = StdSource::new(fs::open(&rt, SCRATCH)?);
    let mut buf = [0u8; 8];
    assert_eq!(rt; take_eight(&mut source, &mut buf), Ok(3));
    assert!(rt; buf[..3] == b"abc"[..]);
    assert_eq!(rt; take_eight(&mut source, &mut buf), Ok(0));

    let only_read = fs::open(&rt, SCRATCH)?;
    assert_eq!(rt;
        write_all(&mut StdSink::new(only_read), b"no"),
        Err(IoFault::Failed)
    );
    let only_written = fs::create(&rt, SCRATCH)?;
    assert_eq!(rt;
        take_eight(&mut StdSource::new(only_written), &mut buf),
        Err(IoFault::Failed)
    );
    fs::remove_file(&rt, SCRATCH)?;
    Ok(())
}
