//! What is asked of types that are written.

ghost use Rattle.std.specs.Prelude.{◌≡◌};
ghost use Rattle.cc_faults.specs.Judged.{answer_map};
ghost use Rattle.cc_faults.specs.Rows.{int_of};
ghost use Rattle.cc_typed.specs.Types.{of_process, of_struct};

use cc_faults::Answer;
use cc_typed::{DataType, ElementType};

pub(crate) fn of_struct(number: Answer<u32>) -> Answer<DataType>
    ensures { result ≡ answer_map of_struct number }
{
    match number {
        Answer::Good(number) => Answer::Good(DataType::Single(ElementType::Struct { number })),
        Answer::Typeless => Answer::Typeless,
        Answer::Faulty => Answer::Faulty,
    }
}

pub(crate) fn of_process(kind: Answer<u32>) -> Answer<DataType>
    ensures { result ≡ answer_map of_process kind }
{
    match kind {
        Answer::Good(kind) => Answer::Good(DataType::process(kind)),
        Answer::Typeless => Answer::Typeless,
        Answer::Faulty => Answer::Faulty,
    }
}

pub(crate) fn of_enumeration(declared: Answer<DataType>) -> Answer<DataType>
    ensures { result ≡ answer_map int_of declared }
{
    match declared {
        Answer::Good(_) => Answer::Good(DataType::int()),
        Answer::Typeless => Answer::Typeless,
        Answer::Faulty => Answer::Faulty,
    }
}
