//! Where parts and fragments begin, and what they hold.

ghost use Rattle.std.specs.Prelude.{◌≡◌, ◌<◌, ◌++◌, ◌∷◌, [], map, length, get_or, IfOk, OnOk};
ghost use Rattle.cc_code.specs.Checked.{AreEntries, AreMarks, AreStarts, AreValues, Noted, Seeded, address_starts, part_starts, steps, steps_of};
ghost use Rattle.cc_code.specs.Control.{InFragment, InKind, fragments, optional};
ghost use Rattle.cc_code.specs.Reach.{IsSmall, Marking, labelled, table_ways, ways};
ghost use Rattle.cc_code.specs.declared.reach.Extent.TheVariants as extent;
ghost use Rattle.cc_code.specs.declared.reach.Start.{Start};

use crate::code::{Part, RawCode, TableEntry};
use crate::reach::{Extent, Start, Ways, label_at, leads_to, place_of, reach};
use std::alloc::{AllocError, Global};

/// The starts at the entries of parts and fragments.
#[derive(Drop)]
pub(crate) struct Starts {
    /// With the values of the functions.
    pub functions: Vec<Start>,
    pub kinds: Vec<Start>,
    pub fragments: Vec<Start>,
}

/// The starts at the entries of parts, each with the value of its part.
fn part_starts(alloc: Global, raw: &RawCode, parts: &[Part]) -> Result<Vec<Start>, AllocError>
    requires { IsSmall raw.now }
    ensures { IfOk result (λ starts. starts.items ≡ part_starts raw.now parts.now) }
{
    let mut starts = Vec::new(alloc);
    for part in parts {
        let place = place_of(raw, part.entry as usize);
        starts.push(Start {
            place,
            label: part.value,
        })?;
    }
    Ok(starts)
}

/// Puts a start at an entry that may be missing.
fn put_start(starts: &mut Vec<Start>, raw: &RawCode, entry: Option<u16>) -> Result<(), AllocError>
    requires { IsSmall raw.now }
    ensures { OnOk result (starts.new.items ≡ starts.old.items ++ address_starts raw.now (optional entry)) }
{
    if let Some(entry) = entry {
        let place = place_of(raw, entry as usize);
        starts.push(Start { place, label: 0 })?;
    }
    Ok(())
}

/// The starts at the entries of all fragments.
fn fragment_starts(alloc: Global, raw: &RawCode) -> Result<Vec<Start>, AllocError>
    requires { IsSmall raw.now }
    ensures { IfOk result (λ starts. starts.items ≡ address_starts raw.now (fragments raw.now.sites)) }
{
    let mut starts = Vec::new(alloc);
    for site in raw.sites.as_slice() {
        put_start(&mut starts, raw, site.such)?;
        put_start(&mut starts, raw, site.by)?;
    }
    Ok(starts)
}

impl Starts {
    pub(crate) fn new(alloc: Global, raw: &RawCode) -> Result<Starts, AllocError>
        requires { IsSmall raw.now }
        ensures { IfOk result (λ s. AreStarts raw.now s) }
    {
        let functions = part_starts(alloc, raw, raw.functions.as_slice())?;
        let kinds = part_starts(alloc, raw, raw.kinds.as_slice())?;
        let fragments = fragment_starts(alloc, raw)?;
        Ok(Starts {
            functions,
            kinds,
            fragments,
        })
    }
}

/// What the bodies of kinds hold.
pub(crate) fn in_kinds(
    alloc: Global,
    raw: &RawCode,
    starts: &Starts,
) -> Result<Vec<Option<u32>>, AllocError>
    requires small { IsSmall raw.now }
    requires starts { AreStarts raw.now starts.now }
    ensures { IfOk result (λ m. AreMarks raw.now (InKind raw.now) m.items) }
{
    let labels = reach(alloc, raw, Extent::All, starts.kinds.as_slice())?;
    Ok(labels)
}

/// What fragments hold.
pub(crate) fn in_fragments(
    alloc: Global,
    raw: &RawCode,
    starts: &Starts,
) -> Result<Vec<Option<u32>>, AllocError>
    requires small { IsSmall raw.now }
    requires starts { AreStarts raw.now starts.now }
    ensures { IfOk result (λ m. AreMarks raw.now (InFragment raw.now) m.items) }
{
    let labels = reach(alloc, raw, Extent::All, starts.fragments.as_slice())?;
    Ok(labels)
}

/// Sets a bit, if there is one of this number.
pub(crate) fn note(bits: &mut Vec<bool>, at: usize)
    ensures { Noted (at ∷ []) bits.old.items bits.new.items }
{
    if at < bits.len() {
        bits[at] = true;
    }
}

/// Sets the bits of the starts' places.
fn note_starts(bits: &mut Vec<bool>, starts: &[Start])
    ensures { Noted (map (λ (s : Start). s.place) starts.now) bits.old.items bits.new.items }
{
    for start in starts {
        note(bits, start.place);
    }
}

/// For each place whether a part or a fragment begins there.
pub(crate) fn entries(
    alloc: Global,
    raw: &RawCode,
    starts: &Starts,
) -> Result<Vec<bool>, AllocError>
    requires small { IsSmall raw.now }
    requires starts { AreStarts raw.now starts.now }
    ensures { IfOk result (λ bits. AreEntries raw.now bits.items) }
{
    let places = place_of(raw, raw.instrs.len());
    let mut bits = vec![in alloc; false; places]?;
    note_starts(&mut bits, starts.functions.as_slice());
    note_starts(&mut bits, starts.kinds.as_slice());
    note_starts(&mut bits, starts.fragments.as_slice());
    Ok(bits)
}

/// What functions reach.
#[derive(Drop)]
pub(crate) struct Values {
    /// For each place that a function reaches the value of one that does.
    pub labels: Vec<Option<u32>>,
    /// Which places functions of two values reach.
    pub meetings: Vec<Option<u32>>,
}

impl Values {
    pub(crate) fn new(alloc: Global, raw: &RawCode, starts: &Starts) -> Result<Values, AllocError>
        requires small { IsSmall raw.now }
        requires starts { AreStarts raw.now starts.now }
        ensures { IfOk result (λ v. AreValues raw.now v) }
    {
        let labels = reach(alloc, raw, Extent::All, starts.functions.as_slice())?;
        let mut seeds = Vec::new(alloc);
        seed_starts(&mut seeds, &labels, starts.functions.as_slice())?;
        seed_steps(&mut seeds, raw, &labels)?;
        let meetings = reach(alloc, raw, Extent::All, seeds.as_slice())?;
        Ok(Values { labels, meetings })
    }
}

/// Puts a start whose place has another label.
fn put_seed(
    seeds: &mut Vec<Start>,
    labels: &Vec<Option<u32>>,
    start: Start,
) -> Result<(), AllocError>
    ensures { OnOk result (Seeded labels.now.items (start ∷ []) seeds.old.items seeds.new.items) }
{
    if let Some(Some(label)) = labels.get(start.place) {
        if *label != start.label {
            seeds.push(start)?;
        }
    }
    Ok(())
}

/// Puts those of the starts whose places have other labels.
fn seed_starts(
    seeds: &mut Vec<Start>,
    labels: &Vec<Option<u32>>,
    starts: &[Start],
) -> Result<(), AllocError>
    ensures { OnOk result (Seeded labels.now.items starts.now seeds.old.items seeds.new.items) }
{
    for start in starts {
        put_seed(seeds, labels, *start)?;
    }
    Ok(())
}

/// Puts those of the places to which a table leads that have another label.
fn seed_table(
    seeds: &mut Vec<Start>,
    raw: &RawCode,
    labels: &Vec<Option<u32>>,
    table: &[TableEntry],
    label: u32,
) -> Result<(), AllocError>
    requires { IsSmall raw.now }
    ensures { OnOk result (Seeded labels.now.items (labelled label (table_ways raw.now table.now)) seeds.old.items seeds.new.items) }
{
    for entry in table {
        let place = place_of(raw, entry.address as usize);
        put_seed(seeds, labels, Start { place, label })?;
    }
    Ok(())
}

/// Puts those of two places that have another label.
fn seed_two(
    seeds: &mut Vec<Start>,
    labels: &Vec<Option<u32>>,
    first: usize,
    second: usize,
    label: u32,
) -> Result<(), AllocError>
    ensures { OnOk result (Seeded labels.now.items (labelled label (first ∷ second ∷ [])) seeds.old.items seeds.new.items) }
{
    let one = Start {
        place: first,
        label,
    };
    put_seed(seeds, labels, one)?;
    let other = Start {
        place: second,
        label,
    };
    put_seed(seeds, labels, other)?;
    Ok(())
}

/// Puts those of the places to which a place leads that have another label than it.
fn seed_place(
    seeds: &mut Vec<Start>,
    raw: &RawCode,
    labels: &Vec<Option<u32>>,
    place: usize,
    label: u32,
) -> Result<(), AllocError>
    requires { IsSmall raw.now }
    ensures { OnOk result (Seeded labels.now.items (labelled label (ways raw.now extent.All place)) seeds.old.items seeds.new.items) }
{
    match leads_to(raw, Extent::All, place) {
        Ways::None => Ok(()),
        Ways::One(to) => put_seed(seeds, labels, Start { place: to, label }),
        Ways::Two(first, second) => seed_two(seeds, labels, first, second, label),
        Ways::Table(table) => seed_table(seeds, raw, labels, table, label),
    }
}

/// Puts those of the places to which a place leads that have another label than it, if it has one.
fn seed_if(
    seeds: &mut Vec<Start>,
    raw: &RawCode,
    labels: &Vec<Option<u32>>,
    place: usize,
    label: Option<u32>,
) -> Result<(), AllocError>
    requires { IsSmall raw.now }
    ensures { OnOk result (Seeded labels.now.items (steps_of raw.now place label) seeds.old.items seeds.new.items) }
{
    match label {
        Some(label) => seed_place(seeds, raw, labels, place, label),
        None => Ok(()),
    }
}

/// Puts the places at which a label meets another.
fn seed_steps(
    seeds: &mut Vec<Start>,
    raw: &RawCode,
    labels: &Vec<Option<u32>>,
) -> Result<(), AllocError>
    requires { IsSmall raw.now }
    ensures { OnOk result (Seeded labels.now.items (steps raw.now labels.now.items (length labels.now.items)) seeds.old.items seeds.new.items) }
{
    for place in 0..labels.len() {
        seed_if(seeds, raw, labels, place, label_at(labels, place))?;
    }
    Ok(())
}
