ghost use Rattle.std.specs.Prelude.{ℕ, ℤ, List};
ghost use Rattle.cc_base.specs.Grants.{IsNext};
ghost use Rattle.cc_base.specs.declared.request.Grant.{Grant};
ghost use Rattle.cc_base.specs.declared.request.Grant.TheVariants.{Go};

use cc_base::{Alt, Alts, Behave, Bytes, Cells, Grant, Memory, Pid, Request, Shape};
use std::alloc::Global;
use std::rt::HostRuntime;
use std::sync::Arc;

#[test]
fn cells_are_pushed_read_and_copied(rt: HostRuntime) {
    let mut cells = Cells::new(rt.alloc());
    assert!(rt; cells.push(5).is_ok());
    assert_eq!(rt; cells.get(0), Some(5));
    assert_eq!(rt; cells.get(1), None);
    assert_eq!(rt; cells.len(), 1);
    let copy = cells.copy().expect(&rt, "memory");
    assert_eq!(rt; copy.get(0), Some(5));
    assert_eq!(rt; copy.get(1), None);
}

#[test]
fn bytes_are_pushed_read_and_copied(rt: HostRuntime) {
    let mut bytes = Bytes::new(rt.alloc());
    assert!(rt; bytes.push(5).is_ok());
    assert_eq!(rt; bytes.get(0), Some(5));
    assert_eq!(rt; bytes.get(1), None);
    let copy = bytes.copy().expect(&rt, "memory");
    assert!(rt; copy.as_slice() == [5].as_slice());
    assert!(rt; bytes.append(b"ab").is_ok());
    assert!(rt; bytes.as_slice() == b"\x05ab".as_slice());
    let whole = Bytes::from_slice(rt.alloc(), b"xyz").expect(&rt, "memory");
    assert_eq!(rt; whole.len(), 3);
}

#[test]
fn alternatives_keep_their_numbers(rt: HostRuntime) {
    let mut alts = Alts::new(rt.alloc());
    assert!(rt; alts.push((1, Alt::After { wait: 10 })).is_ok());
    assert_eq!(rt; alts.len(), 1);
    assert!(rt; matches!(alts.get(0), Some((1, Alt::After { wait: 10 }))));
    assert!(rt; alts.get(1).is_none());
    let request = Request::Select { alts };
    assert!(rt; matches!(&request, Request::Select { alts } if alts.len() == 1));
    assert!(rt; matches!(Grant::Made(Pid(3)), Grant::Made(Pid(3))));
}

/// The bytes that `main` prints, one after the other.
#[derive(Drop)]
struct Letters {
    bytes: Vec<u8>,
}

/// A process that prints them.
#[derive(Drop)]
struct Writer {
    letters: Arc<Letters>,
    asked: usize,
}

impl Behave for Letters {
    type Proc = Writer;

    ghost use Rattle.std.specs.Prelude.{◌≡◌, min, length};
    ghost use Rattle.base_tests.specs.Printing.{printing, printing_well_formed, printing_has_sites};

    ghost means = { λ l. printing l.bytes.items };

    ghost sites = { λ l. 0 };

    ghost at = { λ l w kind args grants. (w.letters.value ≡ l) × (w.asked ≡ min (length grants) (length l.bytes.items)) };

    ghost well_formed = { λ l. printing_well_formed l.bytes.items };

    ghost has_sites = { λ l. printing_has_sites l.bytes.items };

    fn start(
        this: &Arc<Letters>,
        _alloc: Global,
        _kind: u32,
        _args: Cells,
    ) -> Result<Writer, Memory> {
        let letters = Arc::try_clone(this)?;
        Ok(Writer { letters, asked: 0 })
    }

    fn go(this: &mut Writer, alloc: Global, _grant: Grant) -> Result<Request, Memory> {
        match this.letters.bytes.get(this.asked) {
            None => Ok(Request::Done),
            Some(byte) => {
                let bytes = Bytes::from_slice(alloc, &[*byte])?;
                this.asked += 1;
                Ok(Request::Print { bytes })
            }
        }
    }

    fn fit(&self, _site: u32, _env: &Cells, _args: &Cells) -> Option<i64> {
        None
    }

    fn shape(&self, _trans: u32) -> Shape {
        Shape {
            is_async: false,
            args: 1,
            value: 1,
        }
    }
}

/// What the process of a program asks next, where that is a byte to print.
fn next_byte<B: Behave>(process: &mut B::Proc, alloc: Global) -> Result<Option<u8>, Memory>
    requires { (code : B) × (kind : ℕ) × (args : List ℤ) × (grants : List Grant) × B.at code process.old kind args grants × IsNext (B.means code) kind args grants Go }
{
    match B::go(process, alloc, Grant::Go)? {
        Request::Print { bytes } => Ok(bytes.get(0)),
        _other => Ok(None),
    }
}

/// What `main` asks at its start, where that is a byte to print.
fn first_byte<B: Behave>(program: &Arc<B>, alloc: Global) -> Result<Option<u8>, Memory> {
    let mut process = B::start(program, alloc, 0, Cells::new(alloc))?;
    next_byte::<B>(&mut process, alloc)
}

#[test]
fn a_list_of_bytes_is_a_program(rt: HostRuntime) {
    let alloc = rt.alloc();
    let bytes = Vec::from_slice(alloc, b"Hi").expect(&rt, "memory");
    let letters = Arc::new(alloc, Letters { bytes }).expect(&rt, "memory");
    assert_eq!(rt; first_byte(&letters, alloc).ok(), Some(Some(b'H')));
    assert_eq!(rt;
        letters.fit(0, &Cells::new(alloc), &Cells::new(alloc)),
        None
    );
    assert!(rt; letters.shape(0).args == 1);
    let none = Letters {
        bytes: Vec::new(alloc),
    };
    let silent = Arc::new(alloc, none).expect(&rt, "memory");
    assert_eq!(rt; first_byte(&silent, alloc).ok(), Some(None));
}
