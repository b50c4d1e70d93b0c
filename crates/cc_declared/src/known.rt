//! What is known of a whole text.

ghost use Rattle.std.specs.Prelude.{◌≡◌, ◌+◌, ◌++◌, [], ◌∷◌, IfOk, OnOk, if◌then◌else◌, length, nat_eq};
ghost use Rattle.cc_declared.specs.Announcing.{and_item, kind_head, transaction_head};
ghost use Rattle.cc_faults.specs.Declarations as spec;
ghost use Rattle.cc_faults.specs.Judged.{after_each, outcome};
ghost use Rattle.cc_faults.specs.Scopes.{meaning_at};

use crate::announced::{at_start, one_more};
use crate::enumerations::ITEMS_SCOPE;
use crate::heads_so_far::Heads;
use crate::seen::short;
use crate::visible::Visible;
use cc_base::{Bytes, Memory};
use cc_faults::{
    FaultAt, Identifier, Item, KindHead, Named, Parameter, Plain, Signature, Transaction,
    TransactionHead, TypeName,
};
use sqlite_items::Items;
use std::alloc::Global;
use std::marker::Model;

/// What is known of a whole text at each point of it: the heads of its functions but `main`, or the first fault of each; `main` with nothing,
/// and the heads of its process types; and its formats.
#[derive(Drop)]
pub struct Known<'t> {
    pub(crate) functions: Items<Result<Signature, FaultAt>>,
    pub(crate) kinds: Items<KindHead>,
    pub(crate) formats: &'t [Bytes],
}

impl<'t> Model for Known<'t> {
    ghost use Rattle.cc_faults.specs.Scopes.{Text};

    ghost Value = { Text };

    ghost view = { λ k. record { functions = k.functions; kinds = k.kinds; formats = k.formats.now } };
}

/// A sum of counts, in 32 bits.
fn sum(before: u32, more: usize) -> Result<u32, Memory>
    ensures { IfOk result (λ n. n ≡ before + more) }
{
    match (before as usize).checked_add(more) {
        Some(sum) => short(sum),
        None => Err(Memory),
    }
}

impl Visible {
    /// Behind a function its name is declared, unless an item before it declares it.
    fn declare_function(&mut self, x: Identifier, named: Option<Named>)
        ensures { self.new ≡ spec.after_function self.old x named }
    {
        if let Some(named) = named {
            if named.scope != ITEMS_SCOPE {
                self.name(ITEMS_SCOPE, x, named.meaning);
            }
        }
    }

    /// Declares a function behind its item.
    pub fn after_function(&mut self, x: Identifier)
        ensures after { self.new ≡ spec.after_function self.old x (meaning_at self.old x) }
    {
        let named = self.meaning(x);
        self.declare_function(x, named);
    }

    /// A transaction of this number.
    fn transaction_head(
        &self,
        alloc: Global,
        number: u32,
        transaction: &Transaction,
    ) -> Result<TransactionHead, Memory>
        ensures { IfOk result (λ h. h ≡ transaction_head self.now number transaction.now) }
    {
        let signature = self.transaction_signature(alloc, &mut None, transaction)?;
        Ok(TransactionHead {
            name: transaction.name.name,
            number,
            is_async: transaction.result.is_none(),
            signature,
        })
    }

    /// Transactions from this number on.
    #[tactic(auto, using(crate::proofs::Announces::heads))]
    fn transaction_heads(
        &self,
        alloc: Global,
        first: u32,
        transactions: &[Transaction],
    ) -> Result<Items<TransactionHead>, Memory>
        ensures { IfOk result (λ hs. hs ≡ spec.transaction_heads self.now first transactions.now) }
    {
        let mut heads = Items::new(alloc);
        let mut number = first;
        for d in transactions {
            heads.push(self.transaction_head(alloc, number, d)?)?;
            number = one_more(number)?;
        }
        Ok(heads)
    }

    /// A process type, with transactions from this number on.
    fn kind_head(
        &self,
        alloc: Global,
        first: u32,
        x: Identifier,
        types: &[TypeName],
        transactions: &[Transaction],
    ) -> Result<KindHead, Memory>
        ensures { IfOk result (λ h. h ≡ kind_head self.now first x types.now transactions.now) }
    {
        let parameters = self.parameters(alloc, &mut None, x, types)?;
        let transactions = self.transaction_heads(alloc, first, transactions)?;
        Ok(KindHead {
            count: types.len(),
            parameters,
            transactions,
        })
    }
}

impl Heads {
    /// A function more: its head, unless it is `main`.
    fn head(
        &mut self,
        alloc: Global,
        x: Identifier,
        of: TypeName,
        parameters: &[Parameter],
    ) -> Result<(), Memory>
        ensures { OnOk result (self.new ≡ record self.old { functions = self.old.functions ++ (if nat_eq x.name 0 then [] else outcome (spec.signature self.old.visible x of parameters.now) ∷ []) }) }
    {
        if x.name != 0 {
            let head = self.visible.signature(alloc, &mut None, x, of, parameters)?;
            self.functions.push(head)?;
        }
        Ok(())
    }

    /// A function more.
    fn function(
        &mut self,
        alloc: Global,
        x: Identifier,
        of: TypeName,
        parameters: &[Parameter],
    ) -> Result<(), Memory>
        ensures { OnOk result (self.new ≡ record self.old { visible = spec.after_function self.old.visible x (meaning_at self.old.visible x); functions = self.old.functions ++ (if nat_eq x.name 0 then [] else outcome (spec.signature self.old.visible x of parameters.now) ∷ []) }) }
    {
        self.head(alloc, x, of, parameters)?;
        self.visible.after_function(x);
        Ok(())
    }

    /// A process type more.
    fn specification(
        &mut self,
        alloc: Global,
        x: Identifier,
        types: &[TypeName],
        transactions: &[Transaction],
    ) -> Result<(), Memory>
        ensures { OnOk result (self.new ≡ record self.old { transactions = self.old.transactions + length transactions.now; kinds = self.old.kinds ++ kind_head self.old.visible self.old.transactions x types.now transactions.now ∷ [] }) }
    {
        let head = self
            .visible
            .kind_head(alloc, self.transactions, x, types, transactions)?;
        self.kinds.push(head)?;
        self.transactions = sum(self.transactions, transactions.len())?;
        Ok(())
    }

    /// An item more.
    fn item(&mut self, alloc: Global, item: &Item) -> Result<(), Memory>
        ensures { OnOk result (self.new ≡ and_item self.old item.now) }
    {
        match item {
            Item::Structure { name, fields } => {
                self.visible
                    .structure(alloc, &mut None, *name, fields.as_slice())
            }
            Item::Enumeration { name, constants } => {
                self.visible
                    .enumeration(&mut None, *name, constants.as_slice());
                Ok(())
            }
            Item::Specification {
                name,
                parameters,
                transactions,
            } => self.specification(alloc, *name, parameters.as_slice(), transactions.as_slice()),
            Item::Body { .. } => Ok(()),
            Item::Function {
                result,
                name,
                parameters,
                ..
            } => self.function(alloc, *name, *result, parameters.as_slice()),
        }
    }

    /// The items of a text in their order.
    fn items(&mut self, alloc: Global, all: &[Item]) -> Result<(), Memory>
        ensures { OnOk result (self.new ≡ after_each and_item self.old all.now) }
    {
        for item in all {
            self.item(alloc, item)?;
        }
        Ok(())
    }
}

/// The heads of a text behind nothing; `main` is the first kind.
fn no_heads(alloc: Global, visible: Visible) -> Result<Heads, Memory>
    ensures { IfOk result (λ h. h ≡ record { visible = visible; transactions = 0; functions = []; kinds = spec.main_head ∷ [] }) }
{
    let mut kinds = Items::new(alloc);
    kinds.push(KindHead {
        count: 0,
        parameters: Ok(Items::new(alloc)),
        transactions: Items::new(alloc),
    })?;
    Ok(Heads {
        visible,
        transactions: 0,
        functions: Items::new(alloc),
        kinds,
    })
}

/// What is known of a whole text, from its heads. No fault is noted.
pub fn text_of(alloc: Global, text: &Plain) -> Result<Known<'_>, Memory>
    ensures text { IfOk result (λ k. k ≡ spec.text_of text.now) }
{
    let mut heads = no_heads(alloc, at_start(alloc, text)?)?;
    heads.items(alloc, text.items.as_slice())?;
    Ok(Known {
        functions: heads.functions,
        kinds: heads.kinds,
        formats: text.formats.as_slice(),
    })
}
