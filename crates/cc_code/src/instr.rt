use cc_base::NumberType;

/// An instruction. Each part of a program, a function or the body of a kind of process, works on an operand stack of its
/// own and on variable cells, which its offsets count from 0.
///
/// Before each meaning stand the cells that the instruction takes from the top of the stack and those that it leaves in
/// their place, as `taken -> given`, the top last. Every instruction but `Jump`, `JumpZero`, `Call`, `Ret`, `AskWithin`,
/// `SelWait`, `Yield` and `End` goes on to the one after it. The results of arithmetic are numbers of the type: 0 to 255 for
/// `char`. There is one fault more: `Depth`, where an instruction would go on, having neither spent a tick nor got a grant, and
/// 131,072 others came since the last of either.
#[derive(Clone, Copy, Debug, Drop)]
pub enum Instr {
    /// `-> number`. A number.
    Const(i64),
    /// `-> 0 ..`. So many zeros.
    Zeros(u32),
    /// `cell .. ->`. So many cells are dropped.
    Drop(u32),
    /// `cell -> cell cell`. The top once more.
    Dup,
    /// `offset -> offset`. So many cells further. Index above 2^63 - 1.
    Field(u32),
    /// `offset index -> offset`. The element of this index, in an array of `length` elements of `stride` cells each. Index outside
    /// the array, and above 2^63 - 1.
    Index { length: u32, stride: u32 },
    /// `offset -> cell ..`. So many variable cells. Index outside the variables.
    Fetch(u32),
    /// `offset cell .. -> cell ..`. So many cells are stored, and left on the stack. Index outside the variables.
    Put(u32),
    /// `offset -> cell`. What stands there; its sum with `by`, in `long` where the type is that and else in `int`, is stored
    /// in its place, modulo 256 as a `char`. Index outside the variables, Overflow.
    Bump { number_type: NumberType, by: i64 },
    /// `->`. So many variable cells from this offset on become 0. Index outside the variables.
    Zero { offset: u64, cells: u32 },
    /// `cell .. -> cell ..`. Of a number of `cells`, `kept` of them, those from the place `from` on, which counts from 0. Index
    /// where from + kept is above cells.
    Part { from: u32, cells: u32, kept: u32 },
    /// `cell .. index -> cell ..`. Of `length` elements of `stride` cells each, the one of this index. Index outside 0 to
    /// length - 1.
    Pick { length: u32, stride: u32 },
    /// `left right -> number`. Their sum. Overflow.
    Add(NumberType),
    /// `left right -> number`. Their difference. Overflow.
    Sub(NumberType),
    /// `left right -> number`. Their product. Overflow.
    Mul(NumberType),
    /// `left right -> number`. Their quotient, towards zero. Overflow, DivideByZero.
    Div(NumberType),
    /// `left right -> number`. What is left of that division, with the sign of the left. Overflow, DivideByZero.
    Rem(NumberType),
    /// `number -> number`. Its negative. Overflow.
    Neg(NumberType),
    /// `left right -> truth`. Whether the left is less: 1 or 0.
    Lt,
    /// `left right -> truth`. Whether the left is at most the right.
    Le,
    /// `left right -> truth`. Whether the left is greater.
    Gt,
    /// `left right -> truth`. Whether the left is at least the right.
    Ge,
    /// `left right -> truth`. Whether they are equal.
    Eq,
    /// `left right -> truth`. Whether they differ.
    Ne,
    /// `number -> truth`. 1 for 0, and else 0.
    Not,
    /// `number -> number`. A `long` as a number of this type: as a `char` it is taken modulo 256, as an `int` it is Overflow where it
    /// does not fit, and as a `long` it stays.
    Narrow(NumberType),
    /// `->`. Goes on at this address.
    Jump(u16),
    /// `number ->`. Goes on at this address on 0.
    JumpZero(u16),
    /// `->`. Spends a tick.
    Tick,
    /// `argument .. -> value ..`. Calls a function, which goes on at its entry, with the arguments and then zeros for its
    /// variables and with an empty stack. Depth where 1,000 calls are active; Cells where the function and all calls that are
    /// active, with the body that made the first, would have more than 65,536 variable cells together; Index where the function has
    /// more arguments than variable cells.
    Call(u32),
    /// `value ..`. Goes back behind the call, with so many cells.
    Ret(u32),
    /// `argument .. -> process`. Asks Create of a process of this kind.
    Create(u32),
    /// `process argument .. -> value ..`. Asks Call of this transaction. NullProcess, CalleeGone.
    Ask(u32),
    /// `wait process argument .. -> value ..`. Asks TimedCall of this transaction; on Late goes on at this address, with
    /// nothing given. NullProcess, CalleeGone.
    AskWithin { trans: u32, late: u16 },
    /// `process argument .. ->`. Asks Send of this transaction. NullProcess.
    Send(u32),
    /// `->`. No alternative is open from here on.
    SelBegin,
    /// `->`. Opens this alternative, an accept at this site, whose environment is taken now. Index where the alternative is
    /// not above those that are open, and where the environment is outside the variables.
    OfferAccept { alt: u32, site: u32 },
    /// `wait ->`. Opens this alternative, a delay. Index as before.
    OfferAfter(u32),
    /// `->`. Opens this alternative, an immediate one. Index as before.
    OfferNow(u32),
    /// `->`. Opens this alternative, the collective end. Index as before.
    OfferEnd(u32),
    /// `->`. Asks Select of the open alternatives and leaves none open. The first entry of the taken alternative in this table
    /// says where it goes on, and its site where the call's arguments are stored. NoAlternative where none is open; Index
    /// where the table has no such entry, and where the arguments are outside the variables.
    SelWait(u32),
    /// `milliseconds ->`. Asks Delay.
    Wait,
    /// `value .. ->`. Asks Reply with so many cells.
    Reply(u32),
    /// `number -> byte`. Asks Print of the number modulo 256, which it gives.
    PutByte,
    /// `-> byte`. Asks Get, and gives the byte, or -1 at the end of the input.
    GetByte,
    /// `number .. -> length`. Asks Print of this format with as many numbers as it converts, and gives how many bytes that are.
    Format(u32),
    /// `number`. Ends a pure fragment, with this value.
    Yield,
    /// Asks Done.
    End,
}
