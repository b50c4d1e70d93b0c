ghost use Rattle.std.specs.Prelude.{◌≡◌, [], ◌∷◌};
ghost use Rattle.cc_faults.specs.Faults.{noted};
ghost use Rattle.cc_faults.specs.Judged as judged;
ghost use Rattle.cc_faults.specs.Judged.{answer, answer_map, answer_pair, answer_then, faults, faults_then, good_of};
ghost use Rattle.cc_faults.specs.Statements as statement;

use crate::answer::Answer;
use crate::fault::{FaultAt, TypeKind, note};
use cc_base::Place;

/// The first of the faults so far.
pub type Least = Option<FaultAt>;

/// Notes a fault of this kind.
#[tactic(auto, using(crate::proofs::Judged::rows))]
pub fn wrong(least: &mut Least, place: Place, kind: TypeKind)
    ensures noted { least.new ≡ noted least.old (record { place = place; kind = kind } ∷ []) }
{
    note(least, FaultAt { place, kind });
}

/// Both, where both are good.
pub fn pair<A: Drop, B: Drop>(a: Answer<A>, b: Answer<B>) -> Answer<(A, B)>
    ensures pair { result ≡ answer_pair a b }
{
    match a {
        Answer::Good(v) => match b {
            Answer::Good(w) => Answer::Good((v, w)),
            Answer::Typeless => Answer::Typeless,
            Answer::Faulty => Answer::Faulty,
        },
        Answer::Typeless => match b {
            Answer::Good(_) => Answer::Typeless,
            Answer::Typeless => Answer::Typeless,
            Answer::Faulty => Answer::Faulty,
        },
        Answer::Faulty => Answer::Faulty,
    }
}

/// What is good, where it is.
pub fn good<T: Copy + Drop>(a: &Answer<T>) -> Option<T>
    ensures good { result ≡ good_of a.now }
{
    match a {
        Answer::Good(v) => Some(*v),
        Answer::Typeless => None,
        Answer::Faulty => None,
    }
}

/// A part that may be left out, and isn't.
pub fn some<T: Drop>(a: Answer<T>) -> Answer<Option<T>>
    ensures some { result ≡ answer_map statement.some a }
{
    match a {
        Answer::Good(v) => Answer::Good(Some(v)),
        Answer::Typeless => Answer::Typeless,
        Answer::Faulty => Answer::Faulty,
    }
}

/// What is known of a name that is declared; where it was declared with a fault, that is noted.
#[tactic(auto, using(crate::proofs::Judged::rows))]
pub fn known<T: Drop>(least: &mut Least, outcome: Result<T, FaultAt>) -> Answer<T>
    ensures value { result ≡ answer (judged.known outcome) }
    ensures noted { least.new ≡ noted least.old (faults (judged.known outcome)) }
{
    match outcome {
        Ok(v) => Answer::Good(v),
        Err(fault) => {
            note(least, fault);
            Answer::Typeless
        }
    }
}

/// What is known of a part that is good.
#[tactic(auto, using(crate::proofs::Judged::rows))]
pub fn known_part<T: Drop>(least: &mut Least, part: Answer<Result<T, FaultAt>>) -> Answer<T>
    ensures value { result ≡ answer_then part judged.known }
    ensures noted { least.new ≡ noted least.old (faults_then part judged.known) }
{
    match part {
        Answer::Good(outcome) => known(least, outcome),
        Answer::Typeless => Answer::Typeless,
        Answer::Faulty => Answer::Faulty,
    }
}
