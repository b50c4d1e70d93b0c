use cc_base::Memory;
use cc_declared::{Visible, at_start};
use cc_faults::{Item, Least, Plain, Transaction};
use cc_grammar::Tree;
use cc_lex::lex;
use cc_names::plain;
use cc_parse::parse;
use sqlite_items::Items;
use std::alloc::Global;
use std::test::Fail;

/// The tree of a text that has one.
fn tree(alloc: Global, text: &[u8]) -> Result<Tree, Fail> {
    let Ok(tokens) = lex(alloc, text) else {
        return Err("the text is not cut into tokens".into());
    };
    match parse(alloc, &tokens) {
        Ok(tree) => Ok(tree),
        Err(_) => Err("the text has no tree".into()),
    }
}

/// Judges the heads of transactions.
fn transactions(
    alloc: Global,
    visible: &Visible,
    least: &mut Least,
    all: &[Transaction],
) -> Result<(), Memory> {
    for transaction in all {
        let _ = visible.transaction_signature(alloc, least, transaction)?;
    }
    Ok(())
}

/// Declares what an item declares at the outermost level.
fn declare(
    alloc: Global,
    visible: &mut Visible,
    least: &mut Least,
    item: &Item,
) -> Result<(), Memory> {
    match item {
        Item::Structure { name, fields } => {
            visible.structure(alloc, least, *name, fields.as_slice())
        }
        Item::Enumeration { name, constants } => {
            visible.enumeration(least, *name, constants.as_slice());
            Ok(())
        }
        Item::Specification {
            name,
            parameters,
            transactions: all,
        } => {
            let _ = visible.parameters(alloc, least, *name, parameters.as_slice())?;
            transactions(alloc, visible, least, all.as_slice())
        }
        Item::Function {
            result,
            name,
            parameters,
            ..
        } => {
            let _ = visible.function_head(alloc, least, *name, *result, parameters.as_slice())?;
            let mut hidden = Items::new(alloc);
            visible.enter_function(alloc, parameters.as_slice(), &mut hidden)?;
            visible.restore(hidden);
            Ok(())
        }
        Item::Body { .. } => Ok(()),
    }
}

/// What is visible behind the last item, and the first fault of the declarations.
fn declare_all(alloc: Global, text: &Plain) -> Result<(Visible, Least), Memory> {
    let mut visible = at_start(alloc, text)?;
    let mut least = None;
    for item in text.items.as_slice() {
        declare(alloc, &mut visible, &mut least, item)?;
    }
    Ok((visible, least))
}

/// What is visible behind the last item of a text, and the first fault of its declarations.
pub fn declared(alloc: Global, text: &[u8]) -> Result<(Visible, Least), Fail> {
    let tree = tree(alloc, text)?;
    let named = plain(alloc, &tree).or(Err("out of memory"))?;
    let all = declare_all(alloc, &named).or(Err("out of memory"))?;
    Ok(all)
}
