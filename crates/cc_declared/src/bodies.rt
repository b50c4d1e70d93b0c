//! Heads of functions and of bodies, and the names of a body or of an accept as variables.

ghost use Rattle.std.specs.Prelude.{◌≡◌, List, Some, IfOk, OnOk, length, nat_eq, slice_get};
ghost use Rattle.cc_declared.specs.Entering.{names_from, unless_others};
ghost use Rattle.cc_declared.specs.Lists.{and_once, made_of};
ghost use Rattle.cc_declared.specs.Undone.{undone};
ghost use Rattle.cc_faults.specs.Declarations.{items_scope, signature};
ghost use Rattle.cc_faults.specs.Faults.{noted};
ghost use Rattle.cc_faults.specs.Judged.{Judged, both, faults, known, outcome};
ghost use Rattle.cc_faults.specs.Programs as spec;
ghost use Rattle.cc_faults.specs.Rows as row;
ghost use Rattle.cc_faults.specs.Scopes.{is_among, is_here, meaning_at};
ghost use Rattle.cc_faults.specs.Statements.{kth};
ghost use Rattle.cc_typed.specs.declared.types.DataType.{DataType};

use crate::functions::OUTERMOST_SCOPE;
use crate::known::Known;
use crate::lists::noted_fault;
use crate::names::Hidden;
use crate::seen::Seen;
use crate::visible::Visible;
use cc_base::Memory;
use cc_faults::{
    FaultAt, Identifier, KindHead, Least, Parameter, Signature, TypeKind, TypeName, as_many,
    as_many_names, fresh, note, with_specification,
};
use cc_typed::DataType;
use sqlite_items::{Items, at};
use std::alloc::Global;

/// Duplicate: a name that is among those before it.
fn name_once(least: &mut Least, names: &mut Seen, x: Identifier) -> Result<(), Memory>
    ensures noted { OnOk result (least.new ≡ noted least.old (faults (row.fresh (is_among names.old x.name) x))) }
    ensures names { OnOk result (names.new ≡ and_once names.old x.name) }
{
    let taken = names.see(x.name)?;
    let _ = fresh(least, taken, x);
    Ok(())
}

/// Duplicate: each of the names of a body that is among those before it.
pub fn names_once(alloc: Global, least: &mut Least, all: &[Identifier]) -> Result<(), Memory>
    ensures noted { OnOk result (least.new ≡ noted least.old (faults (spec.names_once all.now))) }
{
    let mut names = Seen::new(alloc);
    for x in all {
        name_once(least, &mut names, *x)?;
    }
    Ok(())
}

/// Duplicate: each parameter whose name is among those before it.
fn parameters_once(alloc: Global, least: &mut Least, all: &[Parameter]) -> Result<(), Memory>
    ensures { OnOk result (least.new ≡ noted least.old (faults (spec.names_once (spec.names_in all.now)))) }
{
    let mut names = Seen::new(alloc);
    for p in all {
        name_once(least, &mut names, p.name)?;
    }
    Ok(())
}

/// Arity: `main` has no parameters.
#[tactic(auto, using(crate::proofs::Firsts::noting))]
fn few_for_main(least: &mut Least, x: Identifier, count: usize)
    ensures { least.new ≡ noted least.old (faults (spec.few_for_main x count)) }
{
    if x.name == 0 {
        let _ = as_many(least, x.place, count, 0, ());
    }
}

/// The type of this number; `void` where there is none.
fn type_or_void(types: &[DataType], number: usize) -> DataType
    ensures { result ≡ kth number types.now }
{
    match types.get(number) {
        None => DataType::Void,
        Some(t) => *t,
    }
}

/// The type of this number, or the fault for which the types aren't known.
#[tactic(auto, unfolding(crate::specs::Lists::made_of))]
fn type_at(types: &Result<Items<DataType>, FaultAt>, number: usize) -> Result<DataType, FaultAt>
    ensures { result ≡ made_of (kth number) types.now }
{
    match types {
        Err(fault) => Err(*fault),
        Ok(types) => Ok(type_or_void(types.as_slice(), number)),
    }
}

/// What was found, unless there is another number of names.
#[tactic(auto, unfolding(crate::specs::Entering::unless_others))]
fn unless_others(
    x: Identifier,
    names: usize,
    parameters: usize,
    types: Result<Items<DataType>, FaultAt>,
) -> Result<Items<DataType>, FaultAt>
    ensures { result ≡ unless_others (nat_eq names parameters) x types }
{
    if names != parameters {
        return Err(FaultAt {
            place: x.place,
            kind: TypeKind::BodyNames,
        });
    }
    types
}

/// A copy of types that are known; where they aren't, the fault is noted.
#[tactic(auto, using(crate::proofs::Laws::rules))]
fn known_types(
    alloc: Global,
    least: &mut Least,
    types: &Result<Items<DataType>, FaultAt>,
) -> Result<Result<Items<DataType>, FaultAt>, Memory>
    ensures outcome { IfOk result (λ r. r ≡ outcome (known types.now)) }
    ensures noted { OnOk result (least.new ≡ noted least.old (faults (known types.now))) }
{
    match types {
        Err(fault) => {
            note(least, *fault);
            Ok(Err(*fault))
        }
        Ok(types) => {
            let copy = Items::from_slice(alloc, types.as_slice())?;
            Ok(Ok(copy))
        }
    }
}

/// BodyNames: the types of a body's names, of which there are so many.
#[tactic(auto, using(crate::proofs::Entered::types_of_body))]
fn types_of_names(
    alloc: Global,
    least: &mut Least,
    x: Identifier,
    count: usize,
    head: &KindHead,
) -> Result<Result<Items<DataType>, FaultAt>, Memory>
    ensures outcome { IfOk result (λ r. r ≡ outcome (spec.types_of_names x count (Some head.now))) }
    ensures noted { OnOk result (least.new ≡ noted least.old (faults (spec.types_of_names x count (Some head.now)))) }
{
    let _ = as_many_names(least, x, count, head.count);
    let types = known_types(alloc, least, &head.parameters)?;
    Ok(unless_others(x, count, head.count, types))
}

/// The types of a body's names, by the kind of this number.
#[tactic(auto, using(crate::proofs::Laws::rules))]
fn types_of_kind(
    alloc: Global,
    least: &mut Least,
    kinds: &[KindHead],
    kind: u32,
    x: Identifier,
    count: usize,
) -> Result<Result<Items<DataType>, FaultAt>, Memory>
    ensures outcome { IfOk result (λ r. r ≡ outcome (spec.types_of_names x count (slice_get kinds.now kind))) }
    ensures noted { OnOk result (least.new ≡ noted least.old (faults (spec.types_of_names x count (slice_get kinds.now kind)))) }
{
    match at(kinds, kind as usize) {
        None => Ok(Ok(Items::new(alloc))),
        Some(head) => {
            let found = types_of_names(alloc, least, x, count, head)?;
            Ok(found)
        }
    }
}

impl Visible {
    /// The types of a function, or the first of the faults of its types. All faults of its head are noted: a second declaration of its name,
    /// those of its types, `main` with parameters, and a second parameter of one name.
    #[tactic(auto, using(crate::proofs::Firsts::heads))]
    pub fn function_head(
        &self,
        alloc: Global,
        least: &mut Least,
        x: Identifier,
        of: TypeName,
        parameters: &[Parameter],
    ) -> Result<Result<Signature, FaultAt>, Memory>
        ensures outcome { IfOk result (λ r. r ≡ outcome (signature self.now x of parameters.now)) }
        ensures noted { OnOk result (least.new ≡ noted least.old (faults (both (row.fresh (is_here items_scope (meaning_at self.now x)) x) (both (signature self.now x of parameters.now) (both (spec.few_for_main x (length parameters.now)) (spec.names_once (spec.names_in parameters.now))))))) }
    {
        let here = self.is_declared(x);
        let _ = fresh(least, here, x);
        let found = self.signature(alloc, least, x, of, parameters)?;
        few_for_main(least, x, parameters.len());
        parameters_once(alloc, least, parameters)?;
        Ok(found)
    }

    /// NoSpec, and what is found of the types of a body's names.
    #[tactic(auto, using(crate::proofs::Laws::rules), unfolding(cc_faults::specs::Judged::checked))]
    fn body_types(
        &self,
        alloc: Global,
        least: &mut Least,
        text: &Known,
        x: Identifier,
        count: usize,
    ) -> Result<Result<Items<DataType>, FaultAt>, Memory>
        ensures outcome { IfOk result (λ r. r ≡ outcome (spec.body_types text.now self.now x count)) }
        ensures noted { OnOk result (least.new ≡ noted least.old (faults (spec.body_types text.now self.now x count))) }
    {
        match self.process(x) {
            None => Ok(Err(noted_fault(least, x.place, TypeKind::NoSpec))),
            Some(kind) => {
                let found = types_of_kind(alloc, least, text.kinds(), kind, x, count)?;
                Ok(found)
            }
        }
    }

    /// The types of a body's names, or the first of the faults for which they aren't known. All faults of its head are noted: a second body of its
    /// name, where `taken` says so, a body without a specification or with another number of names, and a second use of a name.
    #[tactic(auto, using(crate::proofs::Firsts::heads))]
    pub fn body_head(
        &self,
        alloc: Global,
        least: &mut Least,
        text: &Known,
        taken: bool,
        x: Identifier,
        names: &[Identifier],
    ) -> Result<Result<Items<DataType>, FaultAt>, Memory>
        ensures outcome { IfOk result (λ r. r ≡ outcome (spec.body_types text.now self.now x (length names.now))) }
        ensures noted { OnOk result (least.new ≡ noted least.old (faults (both (row.fresh taken x) (both (both (spec.kind_of_body text.now self.now x) (spec.body_types text.now self.now x (length names.now))) (spec.names_once names.now))))) }
    {
        let _ = fresh(least, taken, x);
        let _ = with_specification(least, x, self.process(x));
        let types = self.body_types(alloc, least, text, x, names.len())?;
        names_once(alloc, least, names)?;
        Ok(types)
    }

    /// Declares names in the scope of this number with these types, in their order, or with the fault for which the types aren't known. What they
    /// meant before is added to `hidden`.
    pub fn enter_names(
        &mut self,
        scope: u32,
        types: &Result<Items<DataType>, FaultAt>,
        names: &[Identifier],
        hidden: &mut Items<Hidden>,
    ) -> Result<(), Memory>
        ensures after { OnOk result (self.new ≡ names_from scope types.now 0 self.old names.now) }
        ensures names { OnOk result (undone hidden.new self.new.names ≡ undone hidden.old self.old.names) }
    {
        for k in 0..names.len() {
            let t = type_at(types, k);
            self.declare(scope, names[k], t, hidden)?;
        }
        Ok(())
    }

    /// Enters a body: its variables are its names, with the types of its parameters. What its names meant before is added to `hidden`.
    pub fn enter_body(
        &mut self,
        alloc: Global,
        types: &Result<Items<DataType>, FaultAt>,
        names: &[Identifier],
        hidden: &mut Items<Hidden>,
    ) -> Result<(), Memory>
        ensures after { OnOk result ((ts : Judged (List DataType)) → outcome ts ≡ types.now → self.new ≡ spec.in_body self.old ts names.now) }
        ensures names { OnOk result (undone hidden.new self.new.names ≡ undone hidden.old self.old.names) }
    {
        self.without_variables(alloc);
        self.enter_names(OUTERMOST_SCOPE, types, names, hidden)?;
        Ok(())
    }
}
