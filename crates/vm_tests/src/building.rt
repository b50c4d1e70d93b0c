//! Code, put together by hand.
use cc_base::{Bytes, Cells, Memory, Shape};
use cc_code::{EnvironmentPart, Instr, Part, RawCode, Site, TableEntry};
use sqlite_items::Items;
use std::alloc::{AllocError, Global};

/// These instructions, and then those.
pub fn instrs(alloc: Global, front: &[Instr], back: &[Instr]) -> Result<Items<Instr>, AllocError> {
    let mut all = Items::from_slice(alloc, front)?;
    for instr in back {
        all.push(*instr)?;
    }
    Ok(all)
}

/// These heights, and then those.
pub fn heights(alloc: Global, front: &[u32], back: &[u32]) -> Result<Items<u32>, AllocError> {
    let mut all = Items::from_slice(alloc, front)?;
    for height in back {
        all.push(*height)?;
    }
    Ok(all)
}

/// Code of these instructions and heights, with a `main` at address 0 that has so many variable cells, and nothing else.
pub fn code(
    alloc: Global,
    cells: u64,
    instrs: Items<Instr>,
    heights: Items<u32>,
) -> Result<RawCode, AllocError> {
    let main = Part {
        entry: 0,
        args: 0,
        cells,
        value: 0,
    };
    Ok(RawCode {
        instrs,
        heights,
        functions: Items::new(alloc),
        kinds: Items::from_slice(alloc, &[main])?,
        transactions: Items::new(alloc),
        sites: Items::new(alloc),
        tables: Items::new(alloc),
        formats: Items::new(alloc),
    })
}

/// The same with one function.
pub fn with_function(raw: RawCode, function: Part) -> Result<RawCode, AllocError> {
    let mut raw = raw;
    raw.functions.push(function)?;
    Ok(raw)
}

/// The same with one more format.
pub fn with_format(raw: RawCode, format: Bytes) -> Result<RawCode, AllocError> {
    let mut raw = raw;
    raw.formats.push(format)?;
    Ok(raw)
}

/// The same with one more kind.
pub fn with_kind(raw: RawCode, kind: Part) -> Result<RawCode, AllocError> {
    let mut raw = raw;
    raw.kinds.push(kind)?;
    Ok(raw)
}

/// Code of these instructions with the heights before them, with a `main` at address 0 that has so many variable cells.
pub fn rows(alloc: Global, cells: u64, all: &[(Instr, u32)]) -> Result<RawCode, AllocError> {
    let instrs = instrs_of(alloc, all)?;
    let heights = heights_of(alloc, all)?;
    code(alloc, cells, instrs, heights)
}

fn instrs_of(alloc: Global, all: &[(Instr, u32)]) -> Result<Items<Instr>, AllocError> {
    let mut instrs = Items::new(alloc);
    for row in all {
        instrs.push(row.0)?;
    }
    Ok(instrs)
}

fn heights_of(alloc: Global, all: &[(Instr, u32)]) -> Result<Items<u32>, AllocError> {
    let mut heights = Items::new(alloc);
    for row in all {
        heights.push(row.1)?;
    }
    Ok(heights)
}

/// The same with one more transaction, whose callers wait for a value of so many cells.
pub fn with_call(raw: RawCode, args: u32, value: u32) -> Result<RawCode, AllocError> {
    let mut raw = raw;
    raw.transactions.push(Shape {
        is_async: false,
        args,
        value,
    })?;
    Ok(raw)
}

/// The same with one more table.
pub fn with_table(raw: RawCode, table: Items<TableEntry>) -> Result<RawCode, AllocError> {
    let mut raw = raw;
    raw.tables.push(table)?;
    Ok(raw)
}

/// The same with one more transaction, which has so many cells for its arguments.
pub fn with_transaction(raw: RawCode, args: u32) -> Result<RawCode, AllocError> {
    let mut raw = raw;
    raw.transactions.push(Shape {
        is_async: true,
        args,
        value: 0,
    })?;
    Ok(raw)
}

/// The same with one more site.
pub fn with_site(raw: RawCode, site: Site) -> Result<RawCode, AllocError> {
    let mut raw = raw;
    raw.sites.push(site)?;
    Ok(raw)
}

/// A site of this transaction without clauses, at which the arguments of a call are stored from this offset on.
pub fn plain_site(alloc: Global, trans: u32, into: u64) -> Site {
    Site {
        trans,
        into,
        env: Items::new(alloc),
        such: None,
        by: None,
    }
}

/// A site of transaction 0, whose environment has one part of so many cells.
pub fn site(
    alloc: Global,
    cells: u32,
    such: Option<u16>,
    by: Option<u16>,
) -> Result<Site, AllocError> {
    let env = EnvironmentPart { offset: 0, cells };
    Ok(Site {
        trans: 0,
        into: 0,
        env: Items::from_slice(alloc, &[env])?,
        such,
        by,
    })
}

/// These cells.
pub fn cells(alloc: Global, numbers: &[i64]) -> Result<Cells, Memory> {
    let mut cells = Cells::new(alloc);
    for number in numbers {
        cells.push(*number)?;
    }
    Ok(cells)
}
