//! The program so far, as the items of a text are read one after the other.

ghost use Rattle.std.specs.Prelude.{◌≡◌, IfOk, OnOk, slice_set};
ghost use Rattle.cc_types.specs.Making as making;

use cc_base::Memory;
use cc_faults::{Answer, FaultAt, Signature};
use cc_typed::{DataType, Function, Kind, Statement, Transaction};
use sqlite_items::Items;
use std::alloc::Global;

/// The parts of the program so far that items add.
#[derive(Drop)]
pub(crate) struct Made {
    pub(crate) functions: Items<Function>,
    pub(crate) transactions: Items<Transaction>,
    /// The first body that was found of each kind; where none was, one with nothing.
    pub(crate) kinds: Items<Kind>,
    /// Whether a body was found of the kind.
    pub(crate) there: Items<bool>,
}

/// The variables and the statements of a function or body.
#[derive(Drop)]
pub(crate) struct Block {
    pub(crate) variables: Items<DataType>,
    pub(crate) body: Answer<Items<Statement>>,
}

/// A kind with nothing.
fn no_kind(alloc: Global) -> Kind
    ensures { result ≡ making.no_kind }
{
    Kind {
        parameters: 0,
        variables: Items::new(alloc),
        result: DataType::Void,
        body: Items::new(alloc),
    }
}

/// Nothing so far, of this many kinds.
pub(crate) fn nothing_made(alloc: Global, count: usize) -> Result<Made, Memory>
    ensures { IfOk result (λ m. m ≡ making.nothing_made count) }
{
    let mut kinds = Items::new(alloc);
    let mut there = Items::new(alloc);
    for _ in 0..count {
        kinds.push(no_kind(alloc))?;
        there.push(false)?;
    }
    Ok(Made {
        functions: Items::new(alloc),
        transactions: Items::new(alloc),
        kinds,
        there,
    })
}

/// Sets the element of this number, where there is one.
#[tactic(auto, using(cc_declared::proofs::Laws::past))]
fn put_at<T: Drop>(items: &mut Items<T>, number: u32, item: T)
    ensures { items.new ≡ slice_set items.old number item }
{
    if (number as usize) < items.len() {
        items.set(number as usize, item);
    }
}

impl Made {
    /// Whether this kind is to be found yet.
    fn is_free(&self, number: u32) -> bool
        ensures { result ≡ making.is_free self.now number }
    {
        match self.there.get(number as usize) {
            None => false,
            Some(there) => !*there,
        }
    }

    /// A body. The first of a kind counts.
    pub(crate) fn add_kind(&mut self, number: u32, kind: Kind)
        ensures { self.new ≡ making.with_kind self.old number kind }
    {
        if self.is_free(number) {
            put_at(&mut self.there, number, true);
            put_at(&mut self.kinds, number, kind);
        }
    }

    /// A function, or `main`, where its head and its block have no fault.
    pub(crate) fn add_function(
        &mut self,
        is_main: bool,
        count: u32,
        head: Result<Signature, FaultAt>,
        block: Block,
    ) -> Result<(), Memory>
        ensures { OnOk result (self.new ≡ making.with_function self.old is_main count head block) }
    {
        match head {
            Ok(head) => self.add_block(is_main, count, head.result, block),
            Err(_) => Ok(()),
        }
    }

    /// A function, or `main`, that gives back this type, where its block has no fault.
    fn add_block(
        &mut self,
        is_main: bool,
        count: u32,
        of: DataType,
        block: Block,
    ) -> Result<(), Memory>
        ensures { OnOk result (self.new ≡ making.with_block self.old is_main count of block.variables block.body) }
    {
        let Block { variables, body } = block;
        let Answer::Good(body) = body else {
            return Ok(());
        };
        if is_main {
            let kind = Kind {
                parameters: count,
                variables,
                result: of,
                body,
            };
            self.add_kind(0, kind);
            return Ok(());
        }
        self.functions.push(Function {
            parameters: count,
            variables,
            result: of,
            body,
        })?;
        Ok(())
    }

    /// The body of a process type, where its kind is known and its block has no fault.
    pub(crate) fn add_body(&mut self, number: Option<u32>, count: u32, block: Block)
        ensures { self.new ≡ making.with_body self.old number count block }
    {
        if let Some(number) = number {
            self.add_kind_block(number, count, block);
        }
    }

    /// The body of the kind of this number, where its block has no fault.
    fn add_kind_block(&mut self, number: u32, count: u32, block: Block)
        ensures { self.new ≡ making.with_kind_block self.old number count block.variables block.body }
    {
        let Block { variables, body } = block;
        let Answer::Good(body) = body else {
            return;
        };
        let kind = Kind {
            parameters: count,
            variables,
            result: DataType::Void,
            body,
        };
        self.add_kind(number, kind);
    }

    /// A transaction of this kind, where its line has no fault.
    pub(crate) fn add_transaction(
        &mut self,
        kind: u32,
        is_async: bool,
        head: Result<Signature, FaultAt>,
    ) -> Result<(), Memory>
        ensures { OnOk result (self.new ≡ making.with_transaction self.old kind is_async head) }
    {
        let Ok(head) = head else {
            return Ok(());
        };
        self.transactions.push(Transaction {
            kind,
            is_async,
            parameters: head.parameters,
            value: head.result,
        })?;
        Ok(())
    }
}
