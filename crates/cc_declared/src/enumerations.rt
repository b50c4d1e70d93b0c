//! Enumerations and their constants.

ghost use Rattle.std.specs.Prelude.{◌≡◌, if◌then◌else◌};
ghost use Rattle.cc_base.specs.Numbers.{in_range};
ghost use Rattle.cc_base.specs.declared.numbers.NumberType.TheVariants as numeric;
ghost use Rattle.cc_declared.specs.Lists.{and_keep, faults_ruled, ruled};
ghost use Rattle.cc_declared.specs.Walks.{int_at};
ghost use Rattle.cc_faults.specs.Declarations as spec;
ghost use Rattle.cc_faults.specs.Faults.{noted};
ghost use Rattle.cc_faults.specs.Judged.{both, checked, faults, known, map, outcome};
ghost use Rattle.cc_faults.specs.Programs.{fresh_enumeration};
ghost use Rattle.cc_faults.specs.Rows as row;
ghost use Rattle.cc_faults.specs.Scopes.{is_here, meaning_at, with_name};

use crate::lists::{keep, noted_fault, unless_taken};
use crate::names::{entry, is_here, is_there, put_at};
use crate::visible::Visible;
use cc_base::{FaultKind, NumberType, Operator, arithmetic};
use cc_faults::{
    Constant, ConstantValue, FaultAt, Identifier, Least, Length, Meaning, TypeKind, fresh, note,
};
use cc_typed::DataType;

/// The scope of the items in their order.
pub(crate) const ITEMS_SCOPE: u32 = 1;

/// The value of the constant before, or the fault for which it has none; and the type of those so far, or the first of their faults.
#[derive(Clone, Copy, Debug, Drop)]
struct Constants {
    before: Result<i64, FaultAt>,
    found: Result<DataType, FaultAt>,
}

/// EnumRange, at the constant `x`: its value, where it is an `int`.
#[tactic(auto, using(crate::proofs::Laws::rules))]
fn int_at(least: &mut Least, x: Identifier, value: Result<i64, FaultKind>) -> Result<i64, FaultAt>
    ensures outcome { result ≡ outcome (int_at x value) }
    ensures noted { least.new ≡ noted least.old (faults (int_at x value)) }
{
    match value {
        Ok(value) => Ok(value),
        Err(_) => Err(noted_fault(least, x.place, TypeKind::EnumRange)),
    }
}

/// The value of a constant behind another: one more. Where that one has none, neither has this one.
#[tactic(auto, using(crate::proofs::Values::values))]
fn next_value(
    least: &mut Least,
    x: Identifier,
    before: Result<i64, FaultAt>,
) -> Result<i64, FaultAt>
    ensures outcome { result ≡ outcome (checked (map spec.one_above (known before)) (row.value_in_range x)) }
    ensures noted { least.new ≡ noted least.old (faults (checked (map spec.one_above (known before)) (row.value_in_range x))) }
{
    match before {
        Err(fault) => {
            note(least, fault);
            Err(fault)
        }
        Ok(value) => int_at(
            least,
            x,
            arithmetic::operate(Operator::Add, NumberType::Int, value, 1),
        ),
    }
}

/// A value with its sign, where it is an `int`.
fn signed(negative: bool, value: i64) -> Result<i64, FaultKind>
    ensures { result ≡ in_range numeric.Int (spec.signed negative value) }
{
    if negative {
        return arithmetic::negate(NumberType::Int, value);
    }
    arithmetic::in_range(NumberType::Int, value)
}

/// EnumRange, at the constant `x`: what a name means that it is set to.
#[tactic(auto, using(crate::proofs::Laws::rules))]
fn value_named(least: &mut Least, x: Identifier, meaning: Meaning) -> Result<i64, FaultAt>
    ensures outcome { result ≡ outcome (row.value_named x meaning) }
    ensures noted { least.new ≡ noted least.old (faults (row.value_named x meaning)) }
{
    match meaning {
        Meaning::Constant(value) => Ok(value),
        Meaning::Valueless(fault) => {
            note(least, fault);
            Err(fault)
        }
        _ => Err(noted_fault(least, x.place, TypeKind::EnumRange)),
    }
}

/// What the name of a constant means.
fn meaning_of(value: Result<i64, FaultAt>) -> Meaning
    ensures { result ≡ spec.constant_meaning value }
{
    match value {
        Ok(value) => Meaning::Constant(value),
        Err(fault) => Meaning::Valueless(fault),
    }
}

/// EnumRange, at the constant `x`: a value that was found, with its sign.
#[tactic(auto, using(crate::proofs::Values::values), unfolding(crate::specs::Lists::ruled, crate::specs::Lists::faults_ruled))]
fn with_sign(
    least: &mut Least,
    x: Identifier,
    negative: bool,
    value: Result<i64, FaultAt>,
) -> Result<i64, FaultAt>
    ensures outcome { result ≡ ruled value (λ n. outcome (row.value_in_range x (spec.signed negative n))) }
    ensures noted { least.new ≡ noted least.old (faults_ruled value (λ n. row.value_in_range x (spec.signed negative n))) }
{
    match value {
        Err(fault) => Err(fault),
        Ok(value) => int_at(least, x, signed(negative, value)),
    }
}

impl Visible {
    /// What the constant `x` is set to, without its sign: UnknownName, and EnumRange at `x`.
    #[tactic(auto, using(crate::proofs::Laws::rules), unfolding(cc_faults::specs::Judged::checked))]
    fn value_given(&self, least: &mut Least, x: Identifier, length: Length) -> Result<i64, FaultAt>
        ensures outcome { result ≡ outcome (row.value_given self.now x length) }
        ensures noted { least.new ≡ noted least.old (faults (row.value_given self.now x length)) }
    {
        match length {
            Length::Number { value, .. } => Ok(value),
            Length::Name(y) => match self.meaning(y) {
                None => Err(noted_fault(least, y.place, TypeKind::UnknownName)),
                Some(named) => value_named(least, x, named.meaning),
            },
        }
    }

    /// The value of a constant behind another, or the fault for which it has none. All of its faults are noted.
    #[tactic(auto, using(crate::proofs::Values::made))]
    fn constant_value(
        &self,
        least: &mut Least,
        before: Result<i64, FaultAt>,
        c: Constant,
    ) -> Result<i64, FaultAt>
        ensures outcome { result ≡ outcome (spec.constant_value self.now before c) }
        ensures noted { least.new ≡ noted least.old (faults (spec.constant_value self.now before c)) }
    {
        match c.value {
            None => next_value(least, c.name, before),
            Some(v) => {
                let value = self.value_given(least, c.name, v.length);
                with_sign(least, c.name, v.negative, value)
            }
        }
    }

    /// From here on the name of a constant means its value, unless the name is declared.
    fn name_constant(&mut self, here: bool, x: Identifier, value: Result<i64, FaultAt>)
        ensures { self.new ≡ (if here then self.old else with_name spec.items_scope self.old x (spec.constant_meaning value)) }
    {
        if !here {
            self.name(ITEMS_SCOPE, x, meaning_of(value));
        }
    }

    /// Whether a constant's name is declared among the items so far.
    pub(crate) fn is_declared(&self, x: Identifier) -> bool
        ensures { result ≡ is_here spec.items_scope (meaning_at self.now x) }
    {
        is_here(ITEMS_SCOPE, self.meaning(x))
    }

    /// Declares a constant. The constants so far are of the type that is given, or have a first fault.
    #[tactic(auto, using(crate::proofs::Firsts::firsts))]
    fn constant(&mut self, least: &mut Least, so_far: Constants, c: Constant) -> Constants
        ensures after { self.new ≡ spec.after_constant self.old so_far.before c }
        ensures before { result.before ≡ outcome (spec.constant_value self.old so_far.before c) }
        ensures found { result.found ≡ and_keep so_far.found (outcome (spec.constant self.old so_far.before c)) }
        ensures noted { least.new ≡ noted least.old (faults (spec.constant self.old so_far.before c)) }
    {
        let here = self.is_declared(c.name);
        let _ = fresh(least, here, c.name);
        let value = self.constant_value(least, so_far.before, c);
        self.name_constant(here, c.name, value);
        Constants {
            before: value,
            found: keep(so_far.found, unless_taken(here, c.name, value)),
        }
    }

    /// Declares constants in their order, and gives their type or the first of their faults. All of them are noted.
    fn constants(&mut self, least: &mut Least, all: &[Constant]) -> Result<DataType, FaultAt>
        ensures after { self.new ≡ spec.after_constants self.old all.now }
        ensures outcome { result ≡ outcome (map spec.int_type (spec.constants self.old all.now)) }
        ensures noted { least.new ≡ noted least.old (faults (spec.constants self.old all.now)) }
    {
        let mut so_far = Constants {
            before: Ok(-1),
            found: Ok(DataType::int()),
        };
        for c in all {
            so_far = self.constant(least, so_far, *c);
        }
        so_far.found
    }

    /// Duplicate: the name of an enumeration.
    #[tactic(auto, using(crate::proofs::Laws::rules))]
    fn fresh_enumeration(&self, least: &mut Least, x: Option<Identifier>)
        ensures { least.new ≡ noted least.old (faults (fresh_enumeration self.now x)) }
    {
        if let Some(x) = x {
            let there = is_there(entry(self.enumerations_named.as_slice(), x));
            let _ = fresh(least, there, x);
        }
    }

    /// Declares the name of an enumeration, unless one of its name is declared.
    fn name_enumeration(&mut self, x: Option<Identifier>, found: Result<DataType, FaultAt>)
        ensures { self.new ≡ spec.named_enumeration x found self.old }
    {
        if let Some(x) = x {
            if !is_there(entry(self.enumerations_named.as_slice(), x)) {
                put_at(&mut self.enumerations_named, x.name, Some(found));
            }
        }
    }

    /// Declares the constants of an enumeration, each of which is visible behind its own value, and then its name. A second enumeration of its
    /// name is Duplicate and declares its constants alone.
    #[tactic(auto, using(crate::proofs::Firsts::firsts))]
    pub fn enumeration(&mut self, least: &mut Least, x: Option<Identifier>, constants: &[Constant])
        ensures after { self.new ≡ spec.after_enumeration self.old x constants.now }
        ensures noted { least.new ≡ noted least.old (faults (both (fresh_enumeration self.old x) (spec.constants self.old constants.now))) }
    {
        self.fresh_enumeration(least, x);
        let found = self.constants(least, constants);
        self.name_enumeration(x, found);
    }
}
