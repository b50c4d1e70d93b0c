//! The rows that are asked of names, and of how many there are.

ghost use Rattle.std.specs.Prelude.{◌≡◌};
ghost use Rattle.cc_faults.specs.Faults.{noted};
ghost use Rattle.cc_faults.specs.Judged.{answer, answer_then, faults, faults_then};
ghost use Rattle.cc_faults.specs.Rows as row;

use crate::answer::Answer;
use crate::answers::{Least, wrong};
use crate::fault::TypeKind;
use crate::plain::Identifier;
use crate::scope::{Meaning, Named};
use cc_base::Place;

/// Duplicate: the name is taken in this scope and space.
#[tactic(auto, using(crate::proofs::Judged::rows))]
pub fn fresh(least: &mut Least, taken: bool, x: Identifier) -> Answer<()>
    ensures value { result ≡ answer (row.fresh taken x) }
    ensures noted { least.new ≡ noted least.old (faults (row.fresh taken x)) }
{
    if taken {
        wrong(least, x.place, TypeKind::Duplicate);
        return Answer::Faulty;
    }
    Answer::Good(())
}

/// UnknownName: what a name means that is visible.
#[tactic(auto, using(crate::proofs::Judged::rows))]
pub fn visible(least: &mut Least, x: Identifier, named: Option<Named>) -> Answer<Meaning>
    ensures value { result ≡ answer (row.visible x named) }
    ensures noted { least.new ≡ noted least.old (faults (row.visible x named)) }
{
    let Some(named) = named else {
        wrong(least, x.place, TypeKind::UnknownName);
        return Answer::Faulty;
    };
    Answer::Good(named.meaning)
}

/// UnknownType: a structure, an enumeration or a process type that is visible.
#[tactic(auto, using(crate::proofs::Judged::rows))]
pub fn visible_type<T: Drop>(least: &mut Least, x: Identifier, entry: Option<T>) -> Answer<T>
    ensures value { result ≡ answer (row.visible_type x entry) }
    ensures noted { least.new ≡ noted least.old (faults (row.visible_type x entry)) }
{
    let Some(entry) = entry else {
        wrong(least, x.place, TypeKind::UnknownType);
        return Answer::Faulty;
    };
    Answer::Good(entry)
}

/// NotAFunction: the number of the function that is called.
#[tactic(auto, using(crate::proofs::Judged::rows))]
pub fn function_called(least: &mut Least, place: Place, meaning: Answer<Meaning>) -> Answer<u32>
    ensures value { result ≡ answer_then meaning (row.function_called place) }
    ensures noted { least.new ≡ noted least.old (faults_then meaning (row.function_called place)) }
{
    match meaning {
        Answer::Good(Meaning::Function(number)) => Answer::Good(number),
        Answer::Good(_) => {
            wrong(least, place, TypeKind::NotAFunction);
            Answer::Faulty
        }
        Answer::Typeless => Answer::Typeless,
        Answer::Faulty => Answer::Faulty,
    }
}

/// Arity: as many as are wanted.
#[tactic(auto, using(crate::proofs::Judged::rows))]
pub fn as_many<T: Drop>(
    least: &mut Least,
    place: Place,
    given: usize,
    wanted: usize,
    value: T,
) -> Answer<T>
    ensures value { result ≡ answer (row.as_many place given wanted value) }
    ensures noted { least.new ≡ noted least.old (faults (row.as_many place given wanted value)) }
{
    if given != wanted {
        wrong(least, place, TypeKind::Arity);
        return Answer::Faulty;
    }
    Answer::Good(value)
}

/// BodyNames: as many names as parameters.
#[tactic(auto, using(crate::proofs::Judged::rows))]
pub fn as_many_names(
    least: &mut Least,
    x: Identifier,
    names: usize,
    parameters: usize,
) -> Answer<()>
    ensures value { result ≡ answer (row.as_many_names x names parameters) }
    ensures noted { least.new ≡ noted least.old (faults (row.as_many_names x names parameters)) }
{
    if names != parameters {
        wrong(least, x.place, TypeKind::BodyNames);
        return Answer::Faulty;
    }
    Answer::Good(())
}

/// NoBody: a specification with a body.
#[tactic(auto, using(crate::proofs::Judged::rows))]
pub fn with_body(least: &mut Least, there: bool, x: Identifier) -> Answer<()>
    ensures value { result ≡ answer (row.with_body there x) }
    ensures noted { least.new ≡ noted least.old (faults (row.with_body there x)) }
{
    if !there {
        wrong(least, x.place, TypeKind::NoBody);
        return Answer::Faulty;
    }
    Answer::Good(())
}

/// NoSpec: the kind of a body with a specification.
#[tactic(auto, using(crate::proofs::Judged::rows))]
pub fn with_specification(least: &mut Least, x: Identifier, kind: Option<u32>) -> Answer<u32>
    ensures value { result ≡ answer (row.with_specification x kind) }
    ensures noted { least.new ≡ noted least.old (faults (row.with_specification x kind)) }
{
    let Some(kind) = kind else {
        wrong(least, x.place, TypeKind::NoSpec);
        return Answer::Faulty;
    };
    Answer::Good(kind)
}
