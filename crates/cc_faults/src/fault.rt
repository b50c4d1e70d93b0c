ghost use Rattle.std.specs.Prelude.{◌≡◌, Some};
ghost use Rattle.cc_faults.specs.Faults as spec;

use cc_base::Place;

/// What is wrong with a phrase. The kinds are in the order of their numbers.
#[derive(Clone, Copy, Debug, Drop, PartialEq, Eq)]
pub enum TypeKind {
    /// No function is called `main`.
    NoMain,
    /// A second declaration of a name in one scope and space, or a second body.
    Duplicate,
    /// A name that is not visible.
    UnknownName,
    /// A structure, an enumeration or a process type that is not visible.
    UnknownType,
    /// A variable, a parameter or a field of type `void`.
    VoidHere,
    /// An array's length that is no number from 1 to 65,536.
    BadLength,
    /// The value of a constant that is no `int`, or is given by a name that is no constant.
    EnumRange,
    /// A structure or an array of more than 65,536 cells.
    LargeType,
    /// Parameters of more than 256 cells.
    ManyCells,
    /// A specification without a body.
    NoBody,
    /// A body without a specification.
    NoSpec,
    /// A body with another number of names than its specification.
    BodyNames,
    /// Another number of arguments, or of an accept's names; `main` with parameters.
    Arity,
    /// A part of a type that is not allowed there.
    Mismatch,
    /// The target of an assignment, of `++` or of `--` is no place.
    NotAPlace,
    /// A call of a name that is no function, or of `main`.
    NotAFunction,
    /// A function that is named without a call.
    NotAValue,
    /// A field that the structure lacks.
    UnknownField,
    /// A transaction that the process type lacks.
    UnknownTransaction,
    /// `accept` or `select` in a function or in `main`.
    AcceptPlace,
    /// `treturn` outside an accept's block.
    TreturnPlace,
    /// `break` or `continue` in no loop.
    LoopPlace,
    /// A statement that would leave an accept's block.
    LeavesAccept,
    /// A value behind `return` or `treturn` where none is given back.
    ValueHere,
    /// A part of `suchthat` or `by` that is of a kind which no pure expression is made of.
    NotPure,
    /// An expression of `suchthat` or `by` that is deeper than 64.
    PureTooDeep,
    /// The middle of `within` is no call of a synchronous transaction.
    NotTimed,
    /// A format with a `%` that begins no conversion.
    BadFormat,
}

/// A fault of a text, and where it is.
#[derive(Clone, Copy, Debug, Drop, PartialEq, Eq)]
pub struct FaultAt {
    pub place: Place,
    pub kind: TypeKind,
}

/// The number of a kind in the table of faults, from 1.
fn number_of(kind: TypeKind) -> u32
    ensures { result ≡ spec.number_of kind }
{
    match kind {
        TypeKind::NoMain => 1,
        TypeKind::Duplicate => 2,
        TypeKind::UnknownName => 3,
        TypeKind::UnknownType => 4,
        TypeKind::VoidHere => 5,
        TypeKind::BadLength => 6,
        TypeKind::EnumRange => 7,
        TypeKind::LargeType => 8,
        TypeKind::ManyCells => 9,
        TypeKind::NoBody => 10,
        TypeKind::NoSpec => 11,
        TypeKind::BodyNames => 12,
        TypeKind::Arity => 13,
        TypeKind::Mismatch => 14,
        TypeKind::NotAPlace => 15,
        TypeKind::NotAFunction => 16,
        TypeKind::NotAValue => 17,
        TypeKind::UnknownField => 18,
        TypeKind::UnknownTransaction => 19,
        TypeKind::AcceptPlace => 20,
        TypeKind::TreturnPlace => 21,
        TypeKind::LoopPlace => 22,
        TypeKind::LeavesAccept => 23,
        TypeKind::ValueHere => 24,
        TypeKind::NotPure => 25,
        TypeKind::PureTooDeep => 26,
        TypeKind::NotTimed => 27,
        TypeKind::BadFormat => 28,
    }
}

/// Whether a fault stands before another, by place and then by number.
fn before(a: FaultAt, b: FaultAt) -> bool
    ensures { result ≡ spec.before a b }
{
    if a.place.line != b.place.line {
        return a.place.line < b.place.line;
    }
    if a.place.column != b.place.column {
        return a.place.column < b.place.column;
    }
    number_of(a.kind) < number_of(b.kind)
}

/// Notes a fault: of those noted the first is kept.
pub fn note(least: &mut Option<FaultAt>, fault: FaultAt)
    ensures first { least.new ≡ Some (spec.earlier least.old fault) }
{
    match *least {
        None => *least = Some(fault),
        Some(old) => {
            if before(fault, old) {
                *least = Some(fault);
            }
        }
    }
}
