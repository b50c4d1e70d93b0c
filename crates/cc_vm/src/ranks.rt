//! Which calls an accept site takes, and with which rank.

ghost use Rattle.std.specs.Prelude.{◌≡◌, ◌↔◌, IsTrue, slice_get};
ghost use Rattle.std.specs.List.{Contains};
ghost use Rattle.cc_code.specs.Meaning.{environment_cells, fit, rank_of_call};
ghost use Rattle.cc_code.specs.Rules.{IsVerified};

use crate::clauses::rank;
use cc_base::Cells;
use cc_code::{Code, EnvironmentPart, RawCode, Site};

/// Whether an environment has so many cells.
fn has_cells(parts: &[EnvironmentPart], cells: usize) -> bool
    ensures { IsTrue result ↔ (cells ≡ environment_cells parts.now) }
{
    let mut left = cells as u64;
    for part in parts {
        if left < u64::from(part.cells) {
            return false;
        }
        left -= u64::from(part.cells);
    }
    left == 0
}

/// The rank of a call at a site.
fn rank_at(raw: &RawCode, site: &Site, env: &Cells, args: &Cells) -> Option<i64>
    requires verified { IsVerified raw.now }
    requires site { Contains raw.now.sites site.now }
    ensures { result ≡ rank_of_call raw.now site.now (slice_get raw.now.transactions site.now.trans) env.now args.now }
{
    let shape = raw.transactions.get(site.trans as usize)?;
    if args.len() as u64 != u64::from(shape.args) || !has_cells(site.env.as_slice(), env.len()) {
        return None;
    }
    rank(raw, site, args, env)
}

/// The rank of a call with these arguments at the accept site of this number, in this environment. None where the site is not
/// there, where the numbers of cells are not those of its transaction and its environment, where `suchthat` is 0 and where a clause
/// faults. It takes no memory.
#[tactic(auto, unfolding(cc_code::specs::Meaning::fit))]
pub fn fit(code: &Code, site: u32, env: &Cells, args: &Cells) -> Option<i64>
    ensures { result ≡ fit code.now site env.now args.now }
{
    let raw = code.raw();
    match raw.sites.get(site as usize) {
        Some(site) => rank_at(raw, site, env, args),
        None => None,
    }
}
