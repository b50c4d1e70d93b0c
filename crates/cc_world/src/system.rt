ghost use Rattle.std.specs.Prelude.{◌≡◌, ◌≤◌, [], length, IfOk, None};

use crate::clock::Clock;
use crate::fault::{IoFault, ShelfCall};
use crate::misses::Misses;
use crate::shelf::Shelf;
use cc_base::Bytes;
use std::alloc::Global;
use std::io::{self, ErrorKind, Read};
use std::rt::Files;
use std::time::{Duration, Instant};
use std::{fs, thread};

/// The files of the system, by their paths. It does not tell what they hold.
#[derive(Drop)]
pub struct DirShelf<R: Drop> {
    rt: R,
    alloc: Global,
    failed: Misses,
}

impl<R: Files + Drop> DirShelf<R> {
    ghost use Rattle.cc_world.specs.System.{shelf_failed};

    /// A shelf with no failed call so far.
    pub fn new(rt: R, alloc: Global) -> DirShelf<R>
        ensures { shelf_failed result ≡ [] }
    {
        DirShelf {
            rt,
            alloc,
            failed: Misses::new(alloc),
        }
    }

    /// The first `most` bytes of a file, or all where it is shorter.
    fn first_bytes(&self, name: &str, most: usize) -> Result<Bytes, IoFault>
        ensures { IfOk result (λ bytes. length bytes ≤ most) }
    {
        let mut file = fs::open(&self.rt, name).map_err(fault_of)?;
        let mut bytes = Bytes::new(self.alloc);
        let mut piece = [0u8; 4096];
        while bytes.len() < most {
            let room = (most - bytes.len()).min(4096);
            let count = file.read(&mut piece[..room]).map_err(fault_of)?;
            if count == 0 {
                break;
            }
            bytes.append(&piece[..count])?;
        }
        Ok(bytes)
    }
}

impl<R: Files + Drop> Shelf for DirShelf<R> {
    ghost use Rattle.cc_world.specs.System.{shelf_failed};
    ghost use Rattle.std.specs.Prelude.{None};

    ghost files = { λ _. None };

    ghost failed = { λ s. shelf_failed s };

    fn read(&mut self, name: &str, most: usize) -> Result<Bytes, IoFault> {
        let noted = Bytes::from_slice(self.alloc, name.as_bytes())?;
        self.failed.reserve()?;
        let answer = self.first_bytes(name, most);
        if let Err(IoFault::Failed) = &answer {
            self.failed.add(noted, ShelfCall::Read);
        }
        answer
    }

    fn write(&mut self, name: &str, bytes: &[u8]) -> Result<(), IoFault> {
        let noted = Bytes::from_slice(self.alloc, name.as_bytes())?;
        self.failed.reserve()?;
        let answer = fs::write(&self.rt, name, bytes).map_err(fault_of);
        if let Err(IoFault::Failed) = &answer {
            self.failed.add(noted, ShelfCall::Write);
        }
        answer
    }
}

/// Out of memory where the system says so, and a fault otherwise.
fn fault_of(error: io::Error) -> IoFault {
    if error.kind() == ErrorKind::OutOfMemory {
        IoFault::Memory
    } else {
        IoFault::Failed
    }
}

/// The system's clock, from the moment when this was made. Where the system's fails it shows its last answer, and it
/// never goes back. It tells no meaning.
#[derive(Drop)]
pub struct RealClock<R: Drop> {
    rt: R,
    start: Option<Instant>,
    latest: u64,
}

impl<R: std::time::Clock + Drop> RealClock<R> {
    ghost use Rattle.cc_world.specs.System.{latest_answer};

    /// A clock that is made now.
    pub fn new(rt: R) -> RealClock<R>
        ensures { latest_answer result ≡ 0 }
    {
        let start = Instant::now(&rt).ok();
        RealClock {
            rt,
            start,
            latest: 0,
        }
    }

    /// The milliseconds since it was made, where the system's clock tells them.
    fn passed(&self) -> Option<u64> {
        let passed = self.start?.elapsed(&self.rt).ok()?;
        Some(u64::try_from(passed.as_millis()).unwrap_or(u64::MAX))
    }
}

impl<R: std::time::Clock + Drop> Clock for RealClock<R> {
    ghost use Rattle.cc_world.specs.System.{latest_answer};
    ghost use Rattle.std.specs.Prelude.{None};

    ghost given = { λ _. None };

    ghost rests = { λ _. None };

    ghost at = { λ _. None };

    fn now(&mut self) -> u64
        ensures rises { latest_answer self.old ≤ result }
        ensures latest { latest_answer self.new ≡ result }
    {
        if let Some(passed) = self.passed() {
            self.latest = self.latest.max(passed);
        }
        self.latest
    }

    fn rest(&mut self, until: u64)
        ensures rises { latest_answer self.old ≤ latest_answer self.new }
    {
        let now = self.now();
        if now < until {
            thread::sleep(&self.rt, Duration::from_millis(until - now));
        }
    }
}
