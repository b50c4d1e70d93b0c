ghost use Rattle.std.specs.Prelude.{◌≡◌, ◌≤◌, ◌∷◌, [], All, pos, IfOk};
ghost use Rattle.cc_base.specs.declared.numbers.NumberType.TheVariants as numeric;
ghost use Rattle.cc_typed.specs.declared.tree.Expression.{Constant};
ghost use Rattle.cc_typed.specs.Checked.{parts_of};
ghost use Rattle.cc_command.specs.Program.{program_of, puts};

use cc_base::Memory;
use cc_source::{DataType, Early, Expression, Kind, NumberType, Program, ProgramParts, Statement};
use sqlite_items::{Boxed, Items};
use std::alloc::Global;

/// A byte as a number of type `int`.
fn number(byte: u8) -> Expression
    ensures { result ≡ Constant (pos byte) numeric.Int }
{
    Expression::Constant {
        value: i64::from(byte),
        number_type: NumberType::Int,
    }
}

/// `putchar(byte);`
fn put_statement(alloc: Global, byte: u8) -> Result<Statement, Memory>
    ensures { IfOk result (λ statement. statement ≡ puts byte) }
{
    let value = Boxed::new(alloc, number(byte))?;
    Ok(Statement::Evaluate {
        expression: Expression::PutChar { value },
    })
}

/// `main`, which puts these bytes one after the other.
fn main_kind(alloc: Global, bytes: &[u8]) -> Result<Kind, Memory>
    ensures { IfOk result (λ kind. kind ∷ [] ≡ (program_of bytes.now).kinds) }
{
    let mut body = Items::new(alloc);
    for byte in bytes {
        body.push(put_statement(alloc, *byte)?)?;
    }
    Ok(Kind {
        parameters: 0,
        variables: Items::new(alloc),
        result: DataType::int(),
        body,
    })
}

/// The parts of the program that puts these bytes one after the other.
fn parts(alloc: Global, bytes: &[u8]) -> Result<ProgramParts, Memory>
    ensures { IfOk result (λ parts. parts_of parts ≡ program_of bytes.now) }
{
    let mut kinds = Items::new(alloc);
    kinds.push(main_kind(alloc, bytes)?)?;
    Ok(ProgramParts {
        structures: Items::new(alloc),
        kinds,
        functions: Items::new(alloc),
        transactions: Items::new(alloc),
        sites: Items::new(alloc),
        formats: Items::new(alloc),
    })
}

/// The program that puts these bytes one after the other.
pub(crate) fn program(alloc: Global, bytes: &[u8]) -> Result<Early, Memory>
    requires { All (λ byte. byte ≤ 255) bytes.now }
    ensures { IfOk result (λ early. early ≡ program_of bytes.now) }
{
    let program = Program::of(parts(alloc, bytes)?);
    match Early::new(program) {
        Some(early) => Ok(early),
        None => unreachable!(),
    }
}
