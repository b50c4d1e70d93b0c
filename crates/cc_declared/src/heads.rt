//! Heads: types of parameters, functions, transactions.

ghost use Rattle.std.specs.Prelude.{◌≡◌, [], Ok, IfOk, OnOk};
ghost use Rattle.cc_declared.specs.Lists.{faults_ruled, made_of, paired, ruled};
ghost use Rattle.cc_declared.specs.Walks.{and_parameter_found, and_type_found};
ghost use Rattle.cc_faults.specs.Declarations as spec;
ghost use Rattle.cc_faults.specs.Faults.{noted};
ghost use Rattle.cc_faults.specs.Judged.{after_each, faults, outcome};
ghost use Rattle.cc_faults.specs.Rows as row;

use crate::lists::{noted_fault, put};
use crate::sums::are_within;
use crate::visible::Visible;
use cc_base::Memory;
use cc_base::limits::MOST_PARAMETER_CELLS;
use cc_faults::{
    FaultAt, Identifier, Least, Parameter, Signature, Transaction, TypeKind, TypeName,
};
use cc_typed::DataType;
use sqlite_items::Items;
use std::alloc::Global;

/// A signature of both.
#[tactic(auto, unfolding(crate::specs::Lists::made_of, crate::specs::Lists::paired))]
fn signature_of(
    of: Result<DataType, FaultAt>,
    parameters: Result<Items<DataType>, FaultAt>,
) -> Result<Signature, FaultAt>
    ensures { result ≡ made_of spec.signature_of (paired of parameters) }
{
    match of {
        Err(fault) => Err(fault),
        Ok(of) => match parameters {
            Err(fault) => Err(fault),
            Ok(parameters) => Ok(Signature {
                parameters,
                result: of,
            }),
        },
    }
}

impl Visible {
    /// The type of a value, or the first of its faults. All of them are noted.
    fn noted_value_type(&self, least: &mut Least, t: TypeName) -> Result<DataType, FaultAt>
        ensures outcome { result ≡ outcome (row.value_type self.now t) }
        ensures noted { least.new ≡ noted least.old (faults (row.value_type self.now t)) }
    {
        let _ = self.value_type(least, t);
        self.outcome_of_value_type(t)
    }

    /// The type that is written, or the first of its faults. All of them are noted.
    fn noted_type(&self, least: &mut Least, t: TypeName) -> Result<DataType, FaultAt>
        ensures outcome { result ≡ outcome (row.written self.now t) }
        ensures noted { least.new ≡ noted least.old (faults (row.written self.now t)) }
    {
        let _ = self.type_written(least, t);
        self.outcome_of_type(t)
    }

    /// The types that are written, or the first of their faults. All of them are noted.
    fn types(
        &self,
        alloc: Global,
        least: &mut Least,
        all: &[TypeName],
    ) -> Result<Result<Items<DataType>, FaultAt>, Memory>
        ensures types { IfOk result (λ r. r ≡ (after_each (and_type_found self.now) (Ok [], least.old) all.now).0) }
        ensures noted { OnOk result (least.new ≡ (after_each (and_type_found self.now) (Ok [], least.old) all.now).1) }
    {
        let mut types = Ok(Items::new(alloc));
        for t in all {
            let found = self.noted_value_type(least, *t);
            types = put(types, found)?;
        }
        Ok(types)
    }

    /// The types of parameters of a function.
    fn parameter_types(
        &self,
        alloc: Global,
        least: &mut Least,
        all: &[Parameter],
    ) -> Result<Result<Items<DataType>, FaultAt>, Memory>
        ensures types { IfOk result (λ r. r ≡ (after_each (and_parameter_found self.now) (Ok [], least.old) all.now).0) }
        ensures noted { OnOk result (least.new ≡ (after_each (and_parameter_found self.now) (Ok [], least.old) all.now).1) }
    {
        let mut types = Ok(Items::new(alloc));
        for p in all {
            let found = self.noted_value_type(least, p.of);
            types = put(types, found)?;
        }
        Ok(types)
    }

    /// ManyCells: types of parameters with few cells.
    #[tactic(auto, using(crate::proofs::Firsts::noting))]
    fn not_many(
        &self,
        least: &mut Least,
        x: Identifier,
        types: Items<DataType>,
    ) -> Result<Items<DataType>, FaultAt>
        ensures outcome { result ≡ outcome (row.few_cells self.now.structures x types) }
        ensures noted { least.new ≡ noted least.old (faults (row.few_cells self.now.structures x types)) }
    {
        if !are_within(
            self.structures.as_slice(),
            types.as_slice(),
            MOST_PARAMETER_CELLS,
        ) {
            return Err(noted_fault(least, x.place, TypeKind::ManyCells));
        }
        Ok(types)
    }

    /// ManyCells, of types that were found.
    #[tactic(auto, using(crate::proofs::Firsts::noting), unfolding(crate::specs::Lists::ruled, crate::specs::Lists::faults_ruled))]
    fn few_cells(
        &self,
        least: &mut Least,
        x: Identifier,
        types: Result<Items<DataType>, FaultAt>,
    ) -> Result<Items<DataType>, FaultAt>
        ensures outcome { result ≡ ruled types (λ ts. outcome (row.few_cells self.now.structures x ts)) }
        ensures noted { least.new ≡ noted least.old (faults_ruled types (row.few_cells self.now.structures x)) }
    {
        match types {
            Err(fault) => Err(fault),
            Ok(types) => self.not_many(least, x, types),
        }
    }

    /// The types of the parameters that are written behind the name `x`, or the first of their faults. All of them are noted.
    pub fn parameters(
        &self,
        alloc: Global,
        least: &mut Least,
        x: Identifier,
        types: &[TypeName],
    ) -> Result<Result<Items<DataType>, FaultAt>, Memory>
        ensures outcome { IfOk result (λ r. r ≡ outcome (spec.parameters self.now x types.now)) }
        ensures noted { OnOk result (least.new ≡ noted least.old (faults (spec.parameters self.now x types.now))) }
    {
        let types = self.types(alloc, least, types)?;
        Ok(self.few_cells(least, x, types))
    }

    /// The same of the parameters of a function.
    fn function_parameters(
        &self,
        alloc: Global,
        least: &mut Least,
        x: Identifier,
        parameters: &[Parameter],
    ) -> Result<Result<Items<DataType>, FaultAt>, Memory>
        ensures outcome { IfOk result (λ r. r ≡ outcome (spec.parameters self.now x (spec.types_of parameters.now))) }
        ensures noted { OnOk result (least.new ≡ noted least.old (faults (spec.parameters self.now x (spec.types_of parameters.now)))) }
    {
        let types = self.parameter_types(alloc, least, parameters)?;
        Ok(self.few_cells(least, x, types))
    }

    /// The types of a function, or the first of the faults of its head. All of them are noted.
    #[tactic(auto, using(crate::proofs::Firsts::heads))]
    pub fn signature(
        &self,
        alloc: Global,
        least: &mut Least,
        x: Identifier,
        of: TypeName,
        parameters: &[Parameter],
    ) -> Result<Result<Signature, FaultAt>, Memory>
        ensures outcome { IfOk result (λ r. r ≡ outcome (spec.signature self.now x of parameters.now)) }
        ensures noted { OnOk result (least.new ≡ noted least.old (faults (spec.signature self.now x of parameters.now))) }
    {
        let of = self.noted_type(least, of);
        let parameters = self.function_parameters(alloc, least, x, parameters)?;
        Ok(signature_of(of, parameters))
    }

    /// The type of what a transaction gives back; an asynchronous one gives nothing back.
    #[tactic(auto, using(crate::proofs::Firsts::noting))]
    fn transaction_result(
        &self,
        least: &mut Least,
        of: Option<TypeName>,
    ) -> Result<DataType, FaultAt>
        ensures outcome { result ≡ outcome (spec.transaction_result self.now of) }
        ensures noted { least.new ≡ noted least.old (faults (spec.transaction_result self.now of)) }
    {
        match of {
            None => Ok(DataType::Void),
            Some(t) => self.noted_type(least, t),
        }
    }

    /// The types of a transaction, or the first of the faults of its line. All of them are noted.
    #[tactic(auto, using(crate::proofs::Firsts::heads))]
    pub fn transaction_signature(
        &self,
        alloc: Global,
        least: &mut Least,
        transaction: &Transaction,
    ) -> Result<Result<Signature, FaultAt>, Memory>
        ensures outcome { IfOk result (λ r. r ≡ outcome (spec.transaction_signature self.now transaction.now)) }
        ensures noted { OnOk result (least.new ≡ noted least.old (faults (spec.transaction_signature self.now transaction.now))) }
    {
        let of = self.transaction_result(least, transaction.result);
        let types = transaction.parameters.as_slice();
        let parameters = self.parameters(alloc, least, transaction.name, types)?;
        Ok(signature_of(of, parameters))
    }
}
