//! The clauses of an accept site: what `suchthat` and `by` say of a call.

ghost use Rattle.std.specs.Prelude.{◌≡◌, ◌++◌, MatchOption};
ghost use Rattle.std.specs.List.{Contains};
ghost use Rattle.cc_code.specs.Control.{fragments};
ghost use Rattle.cc_code.specs.Meaning.{clause, rank};
ghost use Rattle.cc_code.specs.Rules.{IsVerified};

use crate::fragment::value;
use cc_base::Cells;
use cc_code::{RawCode, Site};

/// The value of a clause, or what stands for one that is missing; none where it faults.
fn clause(raw: &RawCode, entry: Option<u16>, missing: i64, args: &Cells, env: &Cells) -> Option<i64>
    requires verified { IsVerified raw.now }
    requires fragment { MatchOption entry (Unit {0}) (Contains (fragments raw.now.sites)) }
    ensures { result ≡ clause raw.now entry missing (args.now ++ env.now) }
{
    match entry {
        None => Some(missing),
        Some(entry) => value(raw, entry, args, env),
    }
}

/// The rank of a call with these arguments in this environment; none where `suchthat` is 0 or a clause faults.
pub(crate) fn rank(raw: &RawCode, site: &Site, args: &Cells, env: &Cells) -> Option<i64>
    requires verified { IsVerified raw.now }
    requires site { Contains raw.now.sites site.now }
    ensures { result ≡ rank raw.now site.now (args.now ++ env.now) }
{
    let such = clause(raw, site.such, 1, args, env)?;
    if such == 0 {
        return None;
    }
    clause(raw, site.by, 0, args, env)
}
