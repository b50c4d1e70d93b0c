//! A program on the kernel: what its processes ask, one after the other.
use cc_base::{Behave, Bytes, Cells, FaultKind, Memory, Request};
use cc_kernel::Kernel;
use cc_rules::Standing;
use std::alloc::Global;
use std::sync::Arc;

/// A request in numbers: which it is; to whom, how long, which fault or its first byte; its cells as digits, or how many bytes or
/// alternatives it has.
pub type Told = (i64, i64, i64);

/// What a run leaves.
#[derive(Drop)]
pub struct Ran {
    /// What the processes asked, each with its number.
    pub asked: Vec<(u32, Told)>,
    /// The same in full, a line each.
    pub text: String,
    pub printed: Bytes,
    /// The cells of the last Reply.
    pub replied: Cells,
    /// How the run stands.
    pub standing: Standing,
}

/// The digits of a list of cells.
fn digits(cells: &Cells) -> i64 {
    let mut number = 0i64;
    for at in 0..cells.len() {
        number = number
            .wrapping_mul(10)
            .wrapping_add(cells.get(at).unwrap_or(0));
    }
    number
}

/// The first of some bytes.
fn first_byte(bytes: &Bytes) -> i64 {
    match bytes.get(0) {
        Some(byte) => i64::from(byte),
        None => -1,
    }
}

/// A fault as a number.
fn fault(kind: FaultKind) -> i64 {
    match kind {
        FaultKind::DivideByZero => 1,
        FaultKind::Overflow => 2,
        FaultKind::Index => 3,
        FaultKind::Depth => 4,
        FaultKind::Cells => 5,
        FaultKind::NullProcess => 6,
        FaultKind::CalleeGone => 7,
        FaultKind::NoAlternative => 8,
        _ => 9,
    }
}

/// A request in numbers.
pub fn told(request: &Request) -> Told {
    match request {
        Request::Done => (0, 0, 0),
        Request::Create { kind, args } => (1, i64::from(*kind), digits(args)),
        Request::Call { target, args, .. } => (2, i64::from(target.0), digits(args)),
        Request::TimedCall {
            target,
            args,
            wait,
            ..
        } => (3, i64::from(target.0).wrapping_add(*wait), digits(args)),
        Request::Send { target, args, .. } => (4, i64::from(target.0), digits(args)),
        Request::Delay { wait } => (5, *wait, 0),
        Request::Reply { value } => (6, 0, digits(value)),
        Request::Print { bytes } => (
            7,
            first_byte(bytes),
            i64::try_from(bytes.len()).unwrap_or(-1),
        ),
        Request::Get => (8, 0, 0),
        Request::Fault { kind } => (9, fault(*kind), 0),
        Request::Pause => (10, 0, 0),
        Request::Select { alts } => (11, 0, i64::try_from(alts.len()).unwrap_or(-1)),
    }
}

/// A request is kept in full, with the process that asked it, and the cells of a Reply.
fn keep(ran: &mut Ran, pid: u32, request: &Request) -> Result<(), Memory> {
    if writeln!(ran.text, "{pid} {request:?}").is_err() {
        return Err(Memory);
    }
    match request {
        Request::Reply { value } => ran.replied = value.copy()?,
        _ => {}
    }
    Ok(())
}

/// A process that is ready goes on with its grant, and what it asks is done. False where none is ready.
fn go_on<B: Behave>(kernel: &mut Kernel<B>, alloc: Global, ran: &mut Ran) -> Result<bool, Memory> {
    let Some((pid, mut process, grant)) = kernel.pick() else {
        return Ok(false);
    };
    let request = B::go(&mut process, alloc, grant)?;
    ran.asked.push((pid.0, told(&request)))?;
    keep(ran, pid.0, &request)?;
    kernel.prepare(Some(&request))?;
    let bytes = kernel.commit(pid, process, request);
    ran.printed.append(bytes.as_slice())?;
    Ok(true)
}

/// At most so many slices.
fn go_on_for<B: Behave>(
    kernel: &mut Kernel<B>,
    alloc: Global,
    ran: &mut Ran,
    slices: u32,
) -> Result<(), Memory> {
    for _ in 0..slices {
        if !go_on(kernel, alloc, ran)? {
            return Ok(());
        }
    }
    Ok(())
}

/// A reading of the clock, where no process is running.
fn tell_idle<B: Behave>(kernel: &mut Kernel<B>, moment: u64) -> Result<(), Memory> {
    let Standing::Idle { until: _until } = kernel.state() else {
        return Ok(());
    };
    if !kernel.time_allowed(moment) {
        return Ok(());
    }
    kernel.prepare(None)?;
    kernel.at_moment(moment);
    Ok(())
}

/// A run that has not begun.
fn nothing_asked(alloc: Global) -> Ran {
    Ran {
        asked: Vec::new(alloc),
        text: String::new(alloc),
        printed: Bytes::new(alloc),
        replied: Cells::new(alloc),
        standing: Standing::Going,
    }
}

/// A run on an input. After at most so many slices the clock shows the readings one after the other, each followed by at most so
/// many slices again.
pub fn run<B: Behave>(
    alloc: Global,
    program: B,
    input: &[u8],
    slices: u32,
    readings: &[u64],
) -> Result<Ran, Memory> {
    let program = Arc::new(alloc, program)?;
    let input = Bytes::from_slice(alloc, input)?;
    let mut kernel = Kernel::open(alloc, program, input, 1_000_000)?;
    let mut ran = nothing_asked(alloc);
    go_on_for(&mut kernel, alloc, &mut ran, slices)?;
    for reading in readings {
        tell_idle(&mut kernel, *reading)?;
        go_on_for(&mut kernel, alloc, &mut ran, slices)?;
    }
    ran.standing = kernel.state();
    Ok(ran)
}

/// What was asked at this place.
pub fn asked_at(ran: &Ran, at: usize) -> Option<(u32, Told)> {
    ran.asked.get(at).copied()
}
