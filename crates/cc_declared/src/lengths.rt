//! Numbers that are known before the program runs: lengths of arrays, and values of constants.

ghost use Rattle.std.specs.Prelude.{◌≡◌, ◌&&◌, int_le, nat_abs, pos, true};
ghost use Rattle.cc_base.specs.Limits.{most_elements};
ghost use Rattle.cc_base.specs.Numbers.{fits};
ghost use Rattle.cc_faults.specs.Faults.{noted};
ghost use Rattle.cc_faults.specs.Judged.{answer, answer_then, faults, faults_then};
ghost use Rattle.cc_faults.specs.Rows as row;

use crate::visible::Visible;
use cc_base::Place;
use cc_base::limits::MOST_ELEMENTS;
use cc_faults::{Answer, Identifier, Least, Length, Meaning, TypeKind, note, visible, wrong};

/// Whether an array may have so many elements.
pub(crate) fn is_length(number: i64) -> bool
    ensures { result ≡ int_le (pos 1) number && int_le number (pos most_elements) }
{
    1 <= number && number <= i64::from(MOST_ELEMENTS)
}

/// So many elements.
pub(crate) fn elements(number: i64) -> u32
    requires { int_le (pos 1) number && int_le number (pos most_elements) ≡ true }
    ensures { result ≡ nat_abs number }
{
    number as u32
}

/// BadLength: a number outside those that an array may have.
#[tactic(auto, using(crate::proofs::Laws::rules))]
fn length_in_range(least: &mut Least, place: Place, number: i64) -> Answer<u32>
    ensures value { result ≡ answer (row.length_in_range place number) }
    ensures noted { least.new ≡ noted least.old (faults (row.length_in_range place number)) }
{
    if !is_length(number) {
        wrong(least, place, TypeKind::BadLength);
        return Answer::Faulty;
    }
    Answer::Good(elements(number))
}

/// BadLength: a name that is no constant.
#[tactic(auto, using(crate::proofs::Laws::rules))]
fn length_named(least: &mut Least, place: Place, meaning: Answer<Meaning>) -> Answer<u32>
    ensures value { result ≡ answer_then meaning (row.length_named place) }
    ensures noted { least.new ≡ noted least.old (faults_then meaning (row.length_named place)) }
{
    match meaning {
        Answer::Good(Meaning::Constant(number)) => length_in_range(least, place, number),
        Answer::Good(Meaning::Valueless(fault)) => {
            note(least, fault);
            Answer::Typeless
        }
        Answer::Good(_) => {
            wrong(least, place, TypeKind::BadLength);
            Answer::Faulty
        }
        Answer::Typeless => Answer::Typeless,
        Answer::Faulty => Answer::Faulty,
    }
}

impl Visible {
    /// How many elements are written: UnknownName and BadLength.
    #[tactic(auto, using(crate::proofs::Laws::rules))]
    pub fn array_length(&self, least: &mut Least, length: Length) -> Answer<u32>
        ensures value { result ≡ answer (row.array_length self.now length) }
        ensures noted { least.new ≡ noted least.old (faults (row.array_length self.now length)) }
    {
        match length {
            Length::Number { place, value } => length_in_range(least, place, value),
            Length::Name(x) => {
                let meaning = visible(least, x, self.meaning(x));
                length_named(least, x.place, meaning)
            }
        }
    }
}
