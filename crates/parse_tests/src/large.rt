//! Deep texts and long ones. Places and numbers of tokens were counted by hand.

use crate::texts::answer;
use cc_grammar::{Entry, Expression, Item, Statement, Tree};
use cc_lex::lex;
use cc_parse::parse;
use std::alloc::{AllocError, Global};
use std::rt::HostRuntime;
use std::test::*;

/// A text so many times behind another.
fn append(text: &mut String, count: usize, part: &str) -> Result<(), AllocError> {
    for _ in 0..count {
        text.push_str(part)?;
    }
    Ok(())
}

/// A front, so many times a part, and a back.
fn repeated(
    alloc: Global,
    front: &str,
    count: usize,
    part: &str,
    back: &str,
) -> Result<String, AllocError> {
    let mut text = String::from_str(alloc, front)?;
    append(&mut text, count, part)?;
    text.push_str(back)?;
    Ok(text)
}

/// A function with so many times an opening, a middle, and as often a closing.
fn nested(
    alloc: Global,
    count: usize,
    opening: &str,
    middle: &str,
    closing: &str,
) -> Result<String, AllocError> {
    let mut text = repeated(alloc, "f(){", count, opening, middle)?;
    append(&mut text, count, closing)?;
    text.push_str(";}")?;
    Ok(text)
}

/// What is answered to such a function.
fn nested_answer(
    alloc: Global,
    count: usize,
    opening: &str,
    middle: &str,
    closing: &str,
) -> Result<String, AllocError> {
    let text = nested(alloc, count, opening, middle, closing)?;
    answer(alloc, text.as_bytes())
}

/// How often, an opening, a middle, a closing, and the place of the first token that is too deep with one more. These have the
/// nesting 200, of each kind of phrase that adds to it: the statement counts, and its expression.
const DEEPEST: [(usize, &str, &str, &str, &str); 7] = [
    (200, "{", "", "}", "1:205 TooDeep"),
    (198, "(", "1", ")", "1:204 TooDeep"),
    (198, "!", "1", "", "1:204 TooDeep"),
    (198, "a?b:", "c", "", "1:799 TooDeep"),
    (198, "a=", "b", "", "1:403 TooDeep"),
    (198, "if(a)", "b", "", "1:1000 TooDeep"),
    (199, "if(a);else ", "", "", "1:2197 TooDeep"),
];

#[test]
fn as_deep_as_can_be(rt: HostRuntime) -> Result<(), Fail> {
    for (count, opening, middle, closing, _) in &DEEPEST {
        let found = nested_answer(rt.alloc(), *count, opening, middle, closing)?;
        assert_eq!(rt; found.as_str(), "a text", "of {opening}");
    }
    Ok(())
}

#[test]
fn one_too_deep(rt: HostRuntime) -> Result<(), Fail> {
    for (count, opening, middle, closing, want) in &DEEPEST {
        let found = nested_answer(rt.alloc(), *count + 1, opening, middle, closing)?;
        assert_eq!(rt; found.as_str(), *want, "of {opening}");
    }
    Ok(())
}

/// The earlier fault is told, and at one token that of syntax.
const BESIDE: [(usize, &str, &str, &str, &str); 5] = [
    (199, "(", "", ")", "1:204 Syntax at 203"),
    (199, "(", "1 1", ")", "1:204 TooDeep"),
    (199, "(", "1", ")) 1", "1:204 TooDeep"),
    (199, "1 1(", "1", ")", "1:7 Syntax at 5"),
    (65_000, "if(a);else ", "", "", "1:2197 TooDeep"),
];

#[test]
fn faults_beside_deep_phrases(rt: HostRuntime) -> Result<(), Fail> {
    for (count, opening, middle, closing, want) in &BESIDE {
        let found = nested_answer(rt.alloc(), *count, opening, middle, closing)?;
        assert_eq!(rt; found.as_str(), *want, "of {opening}");
    }
    Ok(())
}

/// How many operands stand behind the first one, or how many parts behind a primary expression.
fn behind_first(expression: &Expression) -> usize {
    match expression {
        Expression::Disjunction { more, .. } => more.len(),
        Expression::Sum { more, .. } => more.len(),
        Expression::Postfix { steps, .. } => steps.len(),
        _ => 0,
    }
}

fn of_entry(entry: &Entry) -> usize {
    match entry {
        Entry::Statement(Statement::Expression(value)) => behind_first(value),
        _ => 0,
    }
}

fn of_item(item: &Item) -> usize {
    match item {
        Item::Function { function, .. } => function.block.get(0).map_or(0, of_entry),
        _ => 0,
    }
}

/// The same of the first expression of a text, and how many items it has; nothing of what is no text.
fn sizes(alloc: Global, text: &[u8]) -> (usize, usize) {
    let Ok(tokens) = lex(alloc, text) else {
        return (0, 0);
    };
    match parse(alloc, &tokens) {
        Ok(tree) => (tree.items.len(), tree.items.get(0).map_or(0, of_item)),
        Err(_) => (0, 0),
    }
}

/// A front, how often a part stands behind it, and how many items and parts there are.
const LONG: [(&str, usize, &str, &str, usize, usize); 5] = [
    ("", 100_000, "f(){}", "", 100_000, 0),
    ("f(){1", 199_999, "+1", ";}", 1, 199_999),
    ("f(){a", 199_999, "||a", ";}", 1, 199_999),
    ("f(){a", 100_000, ".b", ";}", 1, 100_000),
    ("f(){a", 100_000, "[b]", ";}", 1, 100_000),
];

#[test]
fn long_texts(rt: HostRuntime) -> Result<(), Fail> {
    for (front, count, part, back, items, parts) in &LONG {
        let text = repeated(rt.alloc(), front, *count, part, back)?;
        let found = sizes(rt.alloc(), text.as_bytes());
        assert_eq!(rt; found, (*items, *parts), "of {part}");
    }
    Ok(())
}

#[test]
fn as_long_as_can_be(rt: HostRuntime) -> Result<(), Fail> {
    let text = repeated(rt.alloc(), "", 1_048_576, " ", "")?;
    let found = answer(rt.alloc(), text.as_bytes())?;
    assert_eq!(rt; found.as_str(), "a text");
    let text = repeated(rt.alloc(), "", 1_048_577, " ", "")?;
    let found = answer(rt.alloc(), text.as_bytes())?;
    assert_eq!(rt; found.as_str(), "1:1 TextTooLong");
    Ok(())
}
