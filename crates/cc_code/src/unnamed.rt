//! Whether the functions, kinds and sites that no instruction names begin at instructions.

ghost use Rattle.std.specs.Prelude.{◌≡◌, ◌≢◌, ℕ, ◌<◌, ◌↔◌, IsTrue, Some, true, length, slice_get, IfOk};
ghost use Rattle.cc_code.specs.Checked.{AreNamed, IsSet, Names, Noted, PartsLead, SitesLead};
ghost use Rattle.cc_code.specs.Control.{optional};
ghost use Rattle.cc_code.specs.Rules.{HasEntries, IsAddress, UnnamedEntries};

use crate::code::{Part, RawCode, Site};
use crate::instr::Instr;
use crate::parts::note;
use crate::rules::{has_entries, is_address};
use std::alloc::{AllocError, Global};

/// What an instruction may name that begins somewhere.
#[derive(Clone, Copy, Debug, Drop)]
pub(crate) enum Thing {
    Function,
    Kind,
    Site,
}

/// The number of the thing that an instruction names, if it names one.
fn named_by(thing: Thing, instr: Instr) -> Option<u32>
    ensures { (n : ℕ) → Names thing n instr ↔ (result ≡ Some n) }
{
    match thing {
        Thing::Function => match instr {
            Instr::Call(function) => Some(function),
            _ => None,
        },
        Thing::Kind => match instr {
            Instr::Create(kind) => Some(kind),
            _ => None,
        },
        Thing::Site => match instr {
            Instr::OfferAccept { site, .. } => Some(site),
            _ => None,
        },
    }
}

/// Sets the bit of a number, if there is one.
fn note_optional(bits: &mut Vec<bool>, number: Option<u32>)
    ensures { Noted (optional number) bits.old.items bits.new.items }
{
    if let Some(number) = number {
        note(bits, number as usize);
    }
}

/// For each of so many things whether an instruction names it.
fn named(
    alloc: Global,
    instrs: &[Instr],
    thing: Thing,
    count: usize,
) -> Result<Vec<bool>, AllocError>
    ensures long { IfOk result (λ bits. length bits.items ≡ count) }
    ensures exact { IfOk result (λ bits. (n : ℕ) → n < count → IsSet bits.items n ↔ AreNamed instrs.now thing n) }
{
    let mut bits = vec![in alloc; false; count]?;
    for instr in instrs {
        note_optional(&mut bits, named_by(thing, *instr));
    }
    Ok(bits)
}

/// Whether a part begins at an instruction, if none names it.
fn part_leads(raw: &RawCode, part: Part, named: bool) -> bool
    ensures { IsTrue result ↔ (((named ≡ true) → ⊥) → IsAddress raw.now part.entry) }
{
    named || is_address(raw, part.entry)
}

fn part_at(parts: &[Part], at: usize) -> Part
    requires { at < length parts.now }
    ensures { slice_get parts.now at ≡ Some result }
{
    parts[at]
}

/// Whether the fragments of a site begin at instructions, if none names it.
fn site_leads(raw: &RawCode, site: &Site, named: bool) -> bool
    ensures { IsTrue result ↔ (((named ≡ true) → ⊥) → HasEntries raw.now site.now) }
{
    named || has_entries(raw, site)
}

fn site_at<'s>(sites: &'s [Site], at: usize) -> &'s Site
    requires { at < length sites.now }
    ensures { slice_get sites.now at ≡ Some result.now }
{
    &sites[at]
}

/// Whether the parts that are not named begin at instructions.
fn parts_lead(raw: &RawCode, parts: &[Part], named: &Vec<bool>) -> bool
    requires { length named.now.items ≡ length parts.now }
    ensures { IsTrue result ↔ PartsLead raw.now parts.now named.now.items }
{
    for at in 0..parts.len() {
        if !part_leads(raw, part_at(parts, at), named[at]) {
            return false;
        }
    }
    true
}

/// Whether the fragments of the sites that are not named begin at instructions.
fn sites_lead(raw: &RawCode, sites: &[Site], named: &Vec<bool>) -> bool
    requires { length named.now.items ≡ length sites.now }
    ensures { IsTrue result ↔ SitesLead raw.now sites.now named.now.items }
{
    for at in 0..sites.len() {
        if !site_leads(raw, site_at(sites, at), named[at]) {
            return false;
        }
    }
    true
}

fn all_three(functions: bool, kinds: bool, sites: bool) -> bool
    ensures { IsTrue result ↔ (IsTrue functions × IsTrue kinds × IsTrue sites) }
{
    functions && kinds && sites
}

/// Whether the entries that no instruction names are instructions.
pub(crate) fn unnamed_lead(alloc: Global, raw: &RawCode) -> Result<bool, AllocError>
    ensures { IfOk result (λ lead. IsTrue lead ↔ UnnamedEntries raw.now) }
{
    let instrs = raw.instrs.as_slice();
    let functions = named(alloc, instrs, Thing::Function, raw.functions.len())?;
    let kinds = named(alloc, instrs, Thing::Kind, raw.kinds.len())?;
    let sites = named(alloc, instrs, Thing::Site, raw.sites.len())?;
    Ok(all_three(
        parts_lead(raw, raw.functions.as_slice(), &functions),
        parts_lead(raw, raw.kinds.as_slice(), &kinds),
        sites_lead(raw, raw.sites.as_slice(), &sites),
    ))
}
