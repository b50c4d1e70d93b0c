//! What verification looks up, computed once from the code.

ghost use Rattle.std.specs.Prelude.{◌≡◌, ◌<◌, ◌↔◌, IsTrue, length, get_or, IfOk};
ghost use Rattle.cc_code.specs.Checked.{AllGive, AreConversions, AreEntries, AreFacts, AreValues};
ghost use Rattle.cc_code.specs.Reach.{IsMarked, IsSmall, place_of};
ghost use Rattle.cc_code.specs.Rules.{all_entries};
ghost use Rattle.std.specs.List.{Contains};

use crate::code::RawCode;
use crate::formats::conversions;
use crate::parts::{Starts, Values, entries, in_fragments, in_kinds};
use crate::reach::{label_at, place_of};
use crate::tables::{leading, level};
use crate::unnamed::unnamed_lead;
use crate::waits::Selects;
use std::alloc::{AllocError, Global};

/// What verification looks up.
#[derive(Drop)]
pub(crate) struct Facts {
    /// For each format how many numbers it takes.
    pub conversions: Vec<u64>,
    /// For each table whether it leads to instructions alone.
    pub leading: Vec<bool>,
    /// For each table whether it leads to heights of 0 alone.
    pub level: Vec<bool>,
    /// For each place whether a part or a fragment begins there.
    pub entries: Vec<bool>,
    pub functions: Values,
    /// What kinds hold, by places.
    pub kinds: Vec<Option<u32>>,
    /// What fragments hold, by places.
    pub fragments: Vec<Option<u32>>,
    pub selects: Selects,
    /// Whether the entries that no instruction names are instructions.
    pub unnamed_lead: bool,
}

impl Facts {
    /// The facts of code with fewer than 4,294,967,296 instructions and tables.
    pub(crate) fn new(alloc: Global, raw: &RawCode) -> Result<Facts, AllocError>
        requires { IsSmall raw.now }
        ensures { IfOk result (λ f. AreFacts raw.now f) }
    {
        let starts = Starts::new(alloc, raw)?;
        Ok(Facts {
            conversions: format_conversions(alloc, raw)?,
            leading: leading(alloc, raw)?,
            level: level(alloc, raw)?,
            entries: entries(alloc, raw, &starts)?,
            functions: Values::new(alloc, raw, &starts)?,
            kinds: in_kinds(alloc, raw, &starts)?,
            fragments: in_fragments(alloc, raw, &starts)?,
            selects: Selects::new(alloc, raw)?,
            unnamed_lead: unnamed_lead(alloc, raw)?,
        })
    }
}

/// The label of an address, if it has one.
fn label_of(raw: &RawCode, labels: &Vec<Option<u32>>, at: usize) -> Option<u32>
    requires small { IsSmall raw.now }
    requires address { at < length raw.now.instrs }
    ensures { result ≡ get_or labels.now.items (place_of raw.now at) None }
{
    label_at(labels, place_of(raw, at))
}

/// Whether an address is marked.
pub(crate) fn is_marked(raw: &RawCode, labels: &Vec<Option<u32>>, at: usize) -> bool
    requires small { IsSmall raw.now }
    requires address { at < length raw.now.instrs }
    ensures { IsTrue result ↔ IsMarked labels.now.items (place_of raw.now at) }
{
    match label_of(raw, labels, at) {
        Some(_) => true,
        None => false,
    }
}

/// Whether a part or a fragment begins at an address.
pub(crate) fn is_entry(raw: &RawCode, entries: &Vec<bool>, at: usize) -> bool
    requires small { IsSmall raw.now }
    requires address { at < length raw.now.instrs }
    requires entries { AreEntries raw.now entries.now.items }
    ensures { IsTrue result ↔ Contains (all_entries raw.now) at }
{
    match entries.get(place_of(raw, at)) {
        Some(entry) => *entry,
        None => false,
    }
}

/// Whether each function that holds the `Ret` at an address has so many cells for its value.
pub(crate) fn all_give(raw: &RawCode, functions: &Values, at: usize, cells: u32) -> bool
    requires small { IsSmall raw.now }
    requires address { at < length raw.now.instrs }
    requires functions { AreValues raw.now functions.now }
    ensures { IsTrue result ↔ AllGive raw.now at cells }
{
    if is_marked(raw, &functions.meetings, at) {
        return false;
    }
    match label_of(raw, &functions.labels, at) {
        Some(value) => value == cells,
        None => true,
    }
}

/// For each format how many numbers it takes.
fn format_conversions(alloc: Global, raw: &RawCode) -> Result<Vec<u64>, AllocError>
    ensures { IfOk result (λ counts. AreConversions raw.now counts.items) }
{
    let mut counts = Vec::new(alloc);
    for format in raw.formats.as_slice() {
        counts.push(conversions(format.as_slice()))?;
    }
    Ok(counts)
}
