/// A type of numbers.
#[derive(Clone, Copy, Debug, Drop, PartialEq, Eq)]
pub enum NumberType {
    /// 0 to 255.
    Char,
    /// 32 bits, signed.
    Int,
    /// 64 bits, signed.
    Long,
}

/// An operation of arithmetic on two numbers.
#[derive(Clone, Copy, Debug, Drop, PartialEq, Eq)]
pub enum Operator {
    Add,
    Subtract,
    Multiply,
    /// Towards zero.
    Divide,
    /// What is left of a division towards zero: it has the sign of the dividend.
    Remainder,
}

/// A comparison of two numbers.
#[derive(Clone, Copy, Debug, Drop, PartialEq, Eq)]
pub enum Comparison {
    Less,
    AtMost,
    Greater,
    AtLeast,
    Equal,
    Different,
}
