ghost use Rattle.std.specs.Prelude.{◌≡◌, ℕ, ◌<◌, ◌↔◌, IsTrue, Some, length, slice_get, IfOk, IfErr, MatchOption};
ghost use Rattle.cc_base.specs.Limits.{most_instructions};
ghost use Rattle.cc_code.specs.Checked.{AreFacts};
ghost use Rattle.cc_code.specs.Judged.{IsEarlier, Judged, KeepsStart};
ghost use Rattle.cc_code.specs.Reach.{IsSmall};
ghost use Rattle.cc_code.specs.Rules.{HasMain, HasOwnHeight, OffersAgree, IsFirst, IsRefusal, IsVerified, Keeps, KeepsAt, KeepsHeights, KeepsWhole, number};
ghost use Rattle.cc_code.specs.declared.rule.Rule.{Rule};
ghost use Rattle.cc_code.specs.declared.rule.Rule.TheVariants as rule;

use crate::code::{Part, RawCode};
use crate::facts::{Facts, all_give, is_entry, is_marked};
use crate::instr::Instr;
use crate::offers::offers_agree;
use crate::operands::{gives, takes};
use crate::rule::{Rule, VerifyError};
use crate::rules::{
    gives_heights, has_targets, height_at, instr_at, is_final, is_placed, is_pure,
    names_what_is_there,
};
use cc_base::limits::{MOST_INSTRUCTIONS, MOST_PURE_DEPTH};
use std::alloc::{AllocError, Global};
use std::marker::Model;

/// Code with this many instructions or tables has no place in memory.
const MOST_PLACES: usize = 4_294_967_296;

/// Code that breaks no rule.
#[derive(Drop)]
pub struct Code {
    raw: RawCode,
}

impl Model for Code {
    ghost use Rattle.cc_code.specs.declared.code.RawCode.{RawCode};
    ghost use Rattle.cc_code.specs.Rules.{IsVerified};

    ghost Value = { RawCode };

    ghost view = { λ c. c.raw };

    ghost invariant = { λ c. IsVerified c.raw };
}

impl Code {
    /// The instructions.
    pub fn instrs(&self) -> &[Instr]
        ensures { result.now ≡ self.now.instrs }
    {
        self.raw.instrs.as_slice()
    }

    /// All of the code, which breaks no rule.
    pub fn raw(&self) -> &RawCode
        ensures value { result.now ≡ self.now }
        ensures verified { IsVerified result.now }
    {
        &self.raw
    }
}

/// The code, where it breaks no rule; else the first instruction that breaks one, and the first rule that it breaks.
pub fn verify(alloc: Global, raw: RawCode) -> Result<Code, VerifyError>
    ensures verified { IfOk result (λ c. (c ≡ raw) × IsVerified raw) }
    ensures refused { IfErr result (λ e. IsRefusal raw e) }
{
    if raw.instrs.len() >= MOST_PLACES || raw.tables.len() >= MOST_PLACES {
        return Err(VerifyError::Memory);
    }
    match first_broken(alloc, &raw) {
        Ok(Some((at, rule))) => Err(VerifyError::BadCode {
            at: at as u32,
            rule,
        }),
        Ok(None) => Ok(Code { raw }),
        Err(_) => Err(VerifyError::Memory),
    }
}

/// The first address at which a rule is broken, and the first such rule.
fn first_broken(alloc: Global, raw: &RawCode) -> Result<Option<(usize, Rule)>, AllocError>
    requires { IsSmall raw.now }
    ensures verdict { IfOk result (λ o. MatchOption o (IsVerified raw.now) (λ f. IsFirst raw.now f.0 f.1)) }
    ensures low { IfOk result (λ o. MatchOption o (Unit {0}) (λ f. f.0 < 4294967296)) }
{
    let facts = Facts::new(alloc, raw)?;
    match broken_at_start(alloc, raw, &facts)? {
        Some(rule) => return Ok(Some((0, rule))),
        None => {}
    }
    for at in 1..raw.instrs.len() {
        match broken_at(alloc, raw, &facts, at, instr_at(raw, at))? {
            Some(rule) => return Ok(Some((at, rule))),
            None => {}
        }
    }
    Ok(None)
}

/// The first rule that is broken at address 0, where what the code as a whole breaks counts too.
fn broken_at_start(alloc: Global, raw: &RawCode, facts: &Facts) -> Result<Option<Rule>, AllocError>
    requires small { IsSmall raw.now }
    requires facts { AreFacts raw.now facts.now }
    ensures { IfOk result (λ o. Judged (Keeps raw.now 0) o) }
{
    let first = broken_by_first(alloc, raw, facts)?;
    Ok(earlier(broken_whole(raw, facts), first))
}

/// The first rule that the instruction at address 0 breaks, if there is one.
fn broken_by_first(alloc: Global, raw: &RawCode, facts: &Facts) -> Result<Option<Rule>, AllocError>
    requires small { IsSmall raw.now }
    requires facts { AreFacts raw.now facts.now }
    ensures { IfOk result (λ o. Judged (KeepsStart raw.now) o) }
{
    if raw.instrs.is_empty() {
        return Ok(None);
    }
    let broken = broken_at(alloc, raw, facts, 0, instr_at(raw, 0))?;
    Ok(broken)
}

/// The number of a rule.
fn number(rule: Rule) -> u32
    ensures { result ≡ number rule }
{
    match rule {
        Rule::Size => 1,
        Rule::Target => 2,
        Rule::Table => 3,
        Rule::Height => 4,
        Rule::Fall => 5,
        Rule::Pure => 6,
        Rule::Reach => 7,
    }
}

/// The earlier of two rules, where there are two.
fn earlier(one: Option<Rule>, other: Option<Rule>) -> Option<Rule>
    ensures { IsEarlier one other result }
{
    match (one, other) {
        (Some(a), Some(b)) => {
            if number(a) <= number(b) {
                Some(a)
            } else {
                Some(b)
            }
        }
        (Some(a), None) => Some(a),
        (None, other) => other,
    }
}

/// The first rule that the code as a whole breaks.
fn broken_whole(raw: &RawCode, facts: &Facts) -> Option<Rule>
    requires { AreFacts raw.now facts.now }
    ensures { Judged (KeepsWhole raw.now) result }
{
    if raw.heights.len() != raw.instrs.len() {
        return Some(Rule::Size);
    }
    if !facts.unnamed_lead {
        return Some(Rule::Target);
    }
    if !has_main(raw.kinds.as_slice()) {
        return Some(Rule::Table);
    }
    None
}

/// Whether there is a first kind, without arguments.
fn has_main(kinds: &[Part]) -> bool
    ensures { IsTrue result ↔ HasMain kinds.now }
{
    match kinds.get(0) {
        Some(main) => main.args == 0,
        None => false,
    }
}

/// The first rule that an instruction breaks.
fn broken_at(
    alloc: Global,
    raw: &RawCode,
    facts: &Facts,
    at: usize,
    instr: Instr,
) -> Result<Option<Rule>, AllocError>
    requires small { IsSmall raw.now }
    requires there { slice_get raw.now.instrs at ≡ Some instr }
    requires facts { AreFacts raw.now facts.now }
    ensures { IfOk result (λ o. Judged (KeepsAt raw.now at instr) o) }
{
    let agree = offers_agree(alloc, raw, &facts.selects, at, instr)?;
    Ok(broken_rule(raw, facts, agree, at, instr))
}

/// The same, given whether the tables of its select agree with what it opens.
fn broken_rule(raw: &RawCode, facts: &Facts, agree: bool, at: usize, instr: Instr) -> Option<Rule>
    requires small { IsSmall raw.now }
    requires there { slice_get raw.now.instrs at ≡ Some instr }
    requires facts { AreFacts raw.now facts.now }
    requires agree { IsTrue agree ↔ OffersAgree raw.now at instr }
    ensures { Judged (KeepsAt raw.now at instr) result }
{
    if !keeps_size(at) {
        return Some(Rule::Size);
    }
    if !keeps_target(raw, facts, at, instr) {
        return Some(Rule::Target);
    }
    if !keeps_table(raw, agree, at, instr) {
        return Some(Rule::Table);
    }
    if !keeps_heights(raw, facts, at, instr) {
        return Some(Rule::Height);
    }
    if !keeps_fall(raw, at, instr) {
        return Some(Rule::Fall);
    }
    if !keeps_pure(raw, facts, at, instr) {
        return Some(Rule::Pure);
    }
    if !keeps_reach(raw, facts, at, instr) {
        return Some(Rule::Reach);
    }
    None
}

/// Whether an address is below the most instructions.
fn keeps_size(at: usize) -> bool
    ensures { IsTrue result ↔ (at < most_instructions) }
{
    at < MOST_INSTRUCTIONS as usize
}

/// Whether where the instruction jumps, and what it names leads, are instructions.
fn keeps_target(raw: &RawCode, facts: &Facts, at: usize, instr: Instr) -> bool
    requires { AreFacts raw.now facts.now }
    ensures { IsTrue result ↔ KeepsAt raw.now at instr rule.Target }
{
    let _ = at;
    has_targets(raw, &facts.leading, instr)
}

/// Whether what the instruction names is there, given whether the tables of its select agree with what it opens.
fn keeps_table(raw: &RawCode, agree: bool, at: usize, instr: Instr) -> bool
    requires { IsTrue agree ↔ OffersAgree raw.now at instr }
    ensures { IsTrue result ↔ KeepsAt raw.now at instr rule.Table }
{
    names_what_is_there(raw, instr) && agree
}

/// Whether the height is enough, and the successors' heights are what it leaves.
fn keeps_heights(raw: &RawCode, facts: &Facts, at: usize, instr: Instr) -> bool
    requires small { IsSmall raw.now }
    requires there { slice_get raw.now.instrs at ≡ Some instr }
    requires facts { AreFacts raw.now facts.now }
    ensures { IsTrue result ↔ KeepsHeights raw.now at instr }
{
    let height = height_at(raw, at);
    let taken = takes(raw, &facts.conversions, instr);
    if height < taken {
        return false;
    }
    if height != 0 && is_entry(raw, &facts.entries, at) {
        return false;
    }
    if !has_own_height(raw, facts, at, instr) {
        return false;
    }
    gives_heights(raw, &facts.level, at, instr, height - taken)
}

/// Whether a `Ret`, a `SelWait` or an `End` has the height that it must have.
fn has_own_height(raw: &RawCode, facts: &Facts, at: usize, instr: Instr) -> bool
    requires small { IsSmall raw.now }
    requires there { slice_get raw.now.instrs at ≡ Some instr }
    requires facts { AreFacts raw.now facts.now }
    ensures { IsTrue result ↔ HasOwnHeight raw.now at instr }
{
    let height = height_at(raw, at);
    match instr {
        Instr::Ret(cells) => {
            height == u64::from(cells) && all_give(raw, &facts.functions, at, cells)
        }
        Instr::SelWait(_) | Instr::End => height == 0,
        _ => true,
    }
}

/// Whether nothing falls through the instruction, where it is the last.
fn keeps_fall(raw: &RawCode, at: usize, instr: Instr) -> bool
    requires there { at < length raw.now.instrs }
    ensures { IsTrue result ↔ KeepsAt raw.now at instr rule.Fall }
{
    at != raw.instrs.len() - 1 || is_final(instr)
}

/// Whether the instruction may stand in the fragment that holds it, if one does, with few enough cells after it.
fn keeps_pure(raw: &RawCode, facts: &Facts, at: usize, instr: Instr) -> bool
    requires small { IsSmall raw.now }
    requires there { slice_get raw.now.instrs at ≡ Some instr }
    requires facts { AreFacts raw.now facts.now }
    ensures { IsTrue result ↔ KeepsAt raw.now at instr rule.Pure }
{
    if !is_marked(raw, &facts.fragments, at) {
        return true;
    }
    let taken = takes(raw, &facts.conversions, instr);
    let rest = height_at(raw, at).saturating_sub(taken);
    is_pure(at, instr) && rest + gives(raw, instr) <= u64::from(MOST_PURE_DEPTH)
}

/// Whether the instruction stands in no part where it may not.
fn keeps_reach(raw: &RawCode, facts: &Facts, at: usize, instr: Instr) -> bool
    requires small { IsSmall raw.now }
    requires there { slice_get raw.now.instrs at ≡ Some instr }
    requires facts { AreFacts raw.now facts.now }
    ensures { IsTrue result ↔ KeepsAt raw.now at instr rule.Reach }
{
    let in_function = is_marked(raw, &facts.functions.labels, at);
    let in_kind = is_marked(raw, &facts.kinds, at);
    is_placed(raw, in_function, in_kind, at, instr)
}
