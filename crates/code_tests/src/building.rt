use cc_base::Shape;
use cc_code::{Instr, Part, RawCode, Rule, Site, TableEntry, VerifyError, verify};
use sqlite_items::Items;
use std::alloc::{AllocError, Global};

/// A part that begins at an address, with so many cells for its arguments and its value.
pub fn part(entry: u16, args: u32, value: u32) -> Part {
    Part {
        entry,
        args,
        cells: u64::from(args),
        value,
    }
}

/// Code of these instructions and heights, with `main` at address 0 and nothing else.
pub fn code(alloc: Global, instrs: &[Instr], heights: &[u32]) -> Result<RawCode, AllocError> {
    Ok(RawCode {
        instrs: Items::from_slice(alloc, instrs)?,
        heights: Items::from_slice(alloc, heights)?,
        functions: Items::new(alloc),
        kinds: Items::from_slice(alloc, &[part(0, 0, 0)])?,
        transactions: Items::new(alloc),
        sites: Items::new(alloc),
        tables: Items::new(alloc),
        formats: Items::new(alloc),
    })
}

/// The same with one function.
pub fn with_function(raw: RawCode, function: Part) -> Result<RawCode, AllocError> {
    let mut raw = raw;
    raw.functions.push(function)?;
    Ok(raw)
}

/// The same with one more kind.
pub fn with_kind(raw: RawCode, kind: Part) -> Result<RawCode, AllocError> {
    let mut raw = raw;
    raw.kinds.push(kind)?;
    Ok(raw)
}

/// The same with one transaction without arguments.
pub fn with_transaction(raw: RawCode, is_async: bool) -> Result<RawCode, AllocError> {
    let mut raw = raw;
    raw.transactions.push(Shape {
        is_async,
        args: 0,
        value: 0,
    })?;
    Ok(raw)
}

/// The same with one site of transaction 0, whose `suchthat` begins at an address.
pub fn with_site(alloc: Global, raw: RawCode, such: Option<u16>) -> Result<RawCode, AllocError> {
    let mut raw = raw;
    raw.sites.push(Site {
        trans: 0,
        into: 0,
        env: Items::new(alloc),
        such,
        by: None,
    })?;
    Ok(raw)
}

/// The same with one table.
pub fn with_table(
    alloc: Global,
    raw: RawCode,
    entries: &[TableEntry],
) -> Result<RawCode, AllocError> {
    let mut raw = raw;
    raw.tables.push(Items::from_slice(alloc, entries)?)?;
    Ok(raw)
}

/// An entry of a table.
pub fn entry(alt: u32, site: Option<u32>, address: u16) -> TableEntry {
    TableEntry { alt, site, address }
}

/// What verification answers: the broken rule and its address, or none; out of memory counts as a rule that no test expects.
pub fn answer(
    alloc: Global,
    raw: Result<RawCode, AllocError>,
) -> Result<Option<(u32, Rule)>, AllocError> {
    match verify(alloc, raw?) {
        Ok(_) => Ok(None),
        Err(VerifyError::BadCode { at, rule }) => Ok(Some((at, rule))),
        Err(VerifyError::Memory) => Ok(Some((4_294_967_295, Rule::Size))),
    }
}
