use cc_base::{Behave, Bytes, CallId, Cells, FaultKind, Memory, Pid};
use cc_kernel::Kernel;
use cc_pool::{Driven, Stop, drive};
use cc_rules::{Event, Faults, Journal, Standing, Word};
use cc_source::{
    AcceptPart, Argument, ChainStep, DataType, Early, Expression, Kind, Location, NumberType,
    Program, ProgramParts, Site, Statement, Transaction,
};
use cc_world::MemSink;
use sqlite_items::{Boxed, Items};
use std::alloc::Global;
use std::process::Abort;
use std::rt::HostRuntime;
use std::sync::Arc;

/// The type of processes of kind 1.
fn server_type() -> DataType {
    DataType::process(1)
}

/// The list of one item.
fn one<T: Drop>(alloc: Global, item: T) -> Result<Items<T>, Memory> {
    let mut items = Items::new(alloc);
    items.push(item)?;
    Ok(items)
}

/// The list of two items.
fn two<T: Drop>(alloc: Global, first: T, second: T) -> Result<Items<T>, Memory> {
    let mut items = one(alloc, first)?;
    items.push(second)?;
    Ok(items)
}

fn number(value: i64) -> Expression {
    Expression::Constant {
        value,
        number_type: NumberType::Int,
    }
}

/// Variable 0, of this type.
fn place(alloc: Global, data_type: DataType) -> Location {
    Location {
        variable: 0,
        of: data_type,
        steps: Items::new(alloc),
        data_type,
    }
}

fn variable(alloc: Global, data_type: DataType) -> Expression {
    Expression::Read {
        from: place(alloc, data_type),
    }
}

/// `putchar(e);`
fn put(alloc: Global, e: Expression) -> Result<Statement, Memory> {
    let value = Boxed::new(alloc, e)?;
    Ok(Statement::Evaluate {
        expression: Expression::PutChar { value },
    })
}

/// `p = create s();`
fn create(alloc: Global) -> Result<Statement, Memory> {
    let made = Expression::CreateProcess {
        kind: 1,
        args: Items::new(alloc),
    };
    let value = Boxed::new(alloc, made)?;
    let to = place(alloc, server_type());
    Ok(Statement::Evaluate {
        expression: Expression::Assign { to, value },
    })
}

/// `p.t(args)`
fn call(alloc: Global, args: Items<Argument>, data_type: DataType) -> Result<Expression, Memory> {
    let first = Boxed::new(alloc, variable(alloc, server_type()))?;
    let step = ChainStep::Call {
        transaction: 0,
        args,
        data_type,
    };
    let steps = one(alloc, step)?;
    Ok(Expression::Chain {
        first,
        steps,
        data_type,
    })
}

/// `process s p;`
fn declare() -> Statement {
    Statement::Declare {
        variable: 0,
        data_type: server_type(),
    }
}

/// A kind of this type without parameters and with one variable.
fn kind(
    alloc: Global,
    declared: DataType,
    data_type: DataType,
    body: Items<Statement>,
) -> Result<Kind, Memory> {
    let variables = one(alloc, data_type)?;
    Ok(Kind {
        parameters: 0,
        variables,
        result: declared,
        body,
    })
}

/// `putchar(p.t(65));`
fn put_answer(alloc: Global) -> Result<Statement, Memory> {
    let argument = Argument {
        value: number(65),
        data_type: DataType::int(),
    };
    let args = one(alloc, argument)?;
    let called = call(alloc, args, DataType::int())?;
    put(alloc, called)
}

/// `main() { process s p; p = create s(); putchar(p.t(65)); }`
fn client(alloc: Global) -> Result<Kind, Memory> {
    let created = create(alloc)?;
    let mut body = two(alloc, declare(), created)?;
    let printed = put_answer(alloc)?;
    body.push(printed)?;
    kind(alloc, DataType::int(), server_type(), body)
}

/// `process body s() { accept t(x) { putchar(x); treturn 66; } }`
fn server(alloc: Global) -> Result<Kind, Memory> {
    let printed = put(alloc, variable(alloc, DataType::int()))?;
    let replied = Statement::TransactionReturn {
        value: Some(number(66)),
        data_type: DataType::int(),
    };
    let block = two(alloc, printed, replied)?;
    let accept = Statement::Accept {
        part: AcceptPart { site: 0, block },
    };
    let body = one(alloc, accept)?;
    kind(alloc, DataType::Void, DataType::int(), body)
}

/// `process body s() { }`
fn idle(alloc: Global) -> Kind {
    Kind {
        parameters: 0,
        variables: Items::new(alloc),
        result: DataType::Void,
        body: Items::new(alloc),
    }
}

/// The sites of the accept of `server`.
fn sites(alloc: Global) -> Result<Items<Site>, Memory> {
    one(
        alloc,
        Site {
            kind: 1,
            transaction: 0,
            first: 0,
            environment: Items::new(alloc),
            such_that: None,
            least_by: None,
        },
    )
}

/// `process spec s() { trans int t(int a); };` and these bodies of `main` and `s`.
fn program(
    alloc: Global,
    main: Kind,
    body: Kind,
    sites: Items<Site>,
    transaction: Transaction,
) -> Result<ProgramParts, Memory> {
    Ok(ProgramParts {
        structures: Items::new(alloc),
        kinds: two(alloc, main, body)?,
        functions: Items::new(alloc),
        transactions: one(alloc, transaction)?,
        sites,
        formats: Items::new(alloc),
    })
}

/// `trans int t(int a);`
fn asked(alloc: Global) -> Result<Transaction, Memory> {
    Ok(Transaction {
        kind: 1,
        is_async: false,
        parameters: one(alloc, DataType::int())?,
        value: DataType::int(),
    })
}

/// A server that answers one call, and its caller.
fn rendezvous(alloc: Global) -> Result<ProgramParts, Memory> {
    let main = client(alloc)?;
    let body = server(alloc)?;
    let places = sites(alloc)?;
    let transaction = asked(alloc)?;
    program(alloc, main, body, places, transaction)
}

/// The same caller, whose server ends at once.
fn deserted(alloc: Global) -> Result<ProgramParts, Memory> {
    let main = client(alloc)?;
    let transaction = asked(alloc)?;
    program(alloc, main, idle(alloc), Items::new(alloc), transaction)
}

/// `process spec s() { trans void t(); }; process body s() { } main() { process s p; p.t(); }`
fn nobody(alloc: Global) -> Result<ProgramParts, Memory> {
    let expression = call(alloc, Items::new(alloc), DataType::Void)?;
    let body = two(alloc, declare(), Statement::Evaluate { expression })?;
    let main = kind(alloc, DataType::int(), server_type(), body)?;
    let transaction = Transaction {
        kind: 1,
        is_async: false,
        parameters: Items::new(alloc),
        value: DataType::Void,
    };
    program(alloc, main, idle(alloc), Items::new(alloc), transaction)
}

/// The program of these parts.
fn straight(rt: &impl Abort, alloc: Global, parts: Result<ProgramParts, Memory>) -> Arc<Early> {
    let parts = parts.expect(rt, "memory");
    let typed = Program::new(alloc, parts).expect(rt, "memory");
    let program = typed.expect(rt, "typed");
    let straight = Early::new(program).expect(rt, "straight");
    Arc::new(alloc, straight).expect(rt, "memory")
}

/// Runs the program of these parts.
fn run(
    rt: &impl Abort,
    alloc: Global,
    parts: Result<ProgramParts, Memory>,
    turns: u32,
) -> Driven<MemSink> {
    let code = straight(rt, alloc, parts);
    let out = MemSink::new(alloc, 64, Cells::new(alloc));
    drive(alloc, &code, Bytes::new(alloc), turns, out)
}

fn ask(pid: u32, word: Word) -> Event {
    Event::Ask {
        pid: Pid(pid),
        word,
    }
}

fn has_events(journal: &Journal, events: &[Event]) -> bool {
    for (at, event) in events.iter().enumerate() {
        if journal.get(at) != Some(event) {
            return false;
        }
    }
    journal.len() == events.len()
}

/// The run stands so, printed these bytes, and has this journal.
fn leaves(ran: &Driven<MemSink>, standing: Standing, printed: &[u8], events: &[Event]) -> bool {
    ran.stop == Stop::Over
        && ran.standing == standing
        && has_events(&ran.journal, events)
        && ran.out.bytes().as_slice() == printed
}

/// The events of a caller and a server that meet once.
const MEETING: [Event; 9] = [
    Event::Ask {
        pid: Pid(0),
        word: Word::Create,
    },
    Event::Ask {
        pid: Pid(0),
        word: Word::Call,
    },
    Event::Ask {
        pid: Pid(1),
        word: Word::Select,
    },
    Event::Accept {
        pid: Pid(1),
        alt: 0,
        call: CallId(0),
    },
    Event::Ask {
        pid: Pid(1),
        word: Word::Print,
    },
    Event::Ask {
        pid: Pid(1),
        word: Word::Reply,
    },
    Event::Ask {
        pid: Pid(1),
        word: Word::Done,
    },
    Event::Ask {
        pid: Pid(0),
        word: Word::Print,
    },
    Event::Ask {
        pid: Pid(0),
        word: Word::Done,
    },
];

#[test]
fn two_processes_meet(rt: HostRuntime) {
    let ran = run(&rt, rt.alloc(), rendezvous(rt.alloc()), 1_000_000);
    assert!(rt; leaves(&ran, Standing::Ended { faulted: false }, b"AB", &MEETING));
    assert_eq!(rt; ran.faults.len(), 0);
}

/// The process that is ready goes on with its grant, and what it asks is done. None where none is ready.
fn slice<B: Behave>(
    kernel: &mut Kernel<B>,
    alloc: Global,
    printed: &mut Bytes,
) -> Result<Option<Pid>, Memory> {
    let Some((pid, mut process, grant)) = kernel.pick() else {
        return Ok(None);
    };
    let request = B::go(&mut process, alloc, grant)?;
    kernel.prepare(Some(&request))?;
    let bytes = kernel.commit(pid, process, request);
    printed.append(bytes.as_slice())?;
    Ok(Some(pid))
}

/// Whether these processes go on, one after the other.
fn go_on<B: Behave>(
    kernel: &mut Kernel<B>,
    alloc: Global,
    printed: &mut Bytes,
    pids: &[u32],
) -> Result<bool, Memory> {
    for pid in pids {
        if slice(kernel, alloc, printed)? != Some(Pid(*pid)) {
            return Ok(false);
        }
    }
    Ok(true)
}

/// What a kernel driven by hand leaves.
#[derive(Drop)]
struct Hand {
    before: Standing,
    went: bool,
    after: Standing,
    printed: Bytes,
    journal: Journal,
    faults: Faults,
}

/// A kernel of this program with 8 turns, of which these processes take one each.
fn by_hand(alloc: Global, code: Arc<Early>, pids: &[u32]) -> Result<Hand, Memory> {
    let mut kernel = Kernel::open(alloc, code, Bytes::new(alloc), 8)?;
    let before = kernel.state();
    let mut printed = Bytes::new(alloc);
    let went = go_on(&mut kernel, alloc, &mut printed, pids)?;
    let after = kernel.state();
    let (journal, faults) = kernel.into_journal();
    Ok(Hand {
        before,
        went,
        after,
        printed,
        journal,
        faults,
    })
}

#[test]
fn a_kernel_of_two_processes_is_driven_by_hand(rt: HostRuntime) {
    let code = straight(&rt, rt.alloc(), rendezvous(rt.alloc()));
    let hand = by_hand(rt.alloc(), code, &[0, 0, 1, 1, 1, 1, 0, 0]).expect(&rt, "memory");
    assert!(rt; hand.before == Standing::Going && hand.went);
    assert!(rt; hand.after == Standing::Ended { faulted: false });
    assert!(rt; hand.printed.as_slice() == b"AB".as_slice());
    assert!(rt; has_events(&hand.journal, &MEETING));
    assert_eq!(rt; hand.faults.len(), 0);
}

#[test]
fn a_call_of_no_process_is_a_fault(rt: HostRuntime) {
    let ran = run(&rt, rt.alloc(), nobody(rt.alloc()), 1_000_000);
    let events = [ask(0, Word::Fault)];
    assert!(rt; leaves(&ran, Standing::Ended { faulted: true }, b"", &events));
    assert!(rt; ran.faults.get(0) == Some(&(Pid(0), FaultKind::NullProcess)));
}

#[test]
fn a_caller_is_told_that_its_server_ended(rt: HostRuntime) {
    let ran = run(&rt, rt.alloc(), deserted(rt.alloc()), 1_000_000);
    let events = [
        ask(0, Word::Create),
        ask(0, Word::Call),
        ask(1, Word::Done),
        ask(0, Word::Fault),
    ];
    assert!(rt; leaves(&ran, Standing::Ended { faulted: true }, b"", &events));
    assert!(rt; ran.faults.get(0) == Some(&(Pid(0), FaultKind::CalleeGone)));
}

#[test]
fn no_turns_are_soon_spent(rt: HostRuntime) {
    let ran = run(&rt, rt.alloc(), rendezvous(rt.alloc()), 0);
    assert!(rt; leaves(&ran, Standing::Spent, b"", &[]));
}
