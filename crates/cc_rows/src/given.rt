//! What is given back, and for which type.

ghost use Rattle.std.specs.Prelude.{◌≡◌, None};
ghost use Rattle.cc_faults.specs.Faults.{noted};
ghost use Rattle.cc_faults.specs.Judged.{answer, answer_map, answer_then, faults, faults_then};
ghost use Rattle.cc_faults.specs.Rows as row;
ghost use Rattle.cc_faults.specs.Statements as statement;

use crate::found::is_void;
use cc_base::Place;
use cc_faults::{Answer, Least, Role, TypeKind, known, wrong};
use cc_typed::{DataType, Expression};

/// The type with which a function, `main` or a process body returns: that of a process body is `void`.
#[tactic(auto, using(crate::proofs::Laws::rows))]
pub fn type_of_role(least: &mut Least, role: Role) -> Answer<DataType>
    ensures value { result ≡ answer (statement.type_of_role role) }
    ensures noted { least.new ≡ noted least.old (faults (statement.type_of_role role)) }
{
    match role {
        Role::Function(t) => known(least, t),
        Role::Main(t) => known(least, t),
        Role::Body(_) => Answer::Good(DataType::Void),
    }
}

/// ValueHere: the type for which a value is given back is not `void`.
#[tactic(auto, using(crate::proofs::Laws::rows))]
pub fn has_value(least: &mut Least, place: Place, t: Answer<DataType>) -> Answer<DataType>
    ensures value { result ≡ answer_then t (row.has_value place) }
    ensures noted { least.new ≡ noted least.old (faults_then t (row.has_value place)) }
{
    match t {
        Answer::Good(t) => {
            if is_void(t) {
                wrong(least, place, TypeKind::ValueHere);
                return Answer::Faulty;
            }
            Answer::Good(t)
        }
        Answer::Typeless => Answer::Typeless,
        Answer::Faulty => Answer::Faulty,
    }
}

/// What is given back without a value.
pub fn without_value(t: Answer<DataType>) -> Answer<(DataType, Option<Expression>)>
    ensures without { result ≡ answer_map (λ (v : DataType). (v, None)) t }
{
    match t {
        Answer::Good(t) => Answer::Good((t, None)),
        Answer::Typeless => Answer::Typeless,
        Answer::Faulty => Answer::Faulty,
    }
}
