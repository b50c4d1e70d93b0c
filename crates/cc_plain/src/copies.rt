//! Copies, in memory of their own.
ghost use Rattle.std.specs.Prelude.{◌≡◌, IfOk};

use cc_base::{Alt, Alts, Grant, Memory};
use cc_rules::{ProcessStanding, TransactionCall};
use std::alloc::Global;

pub(crate) fn copy_grant(grant: &Grant) -> Result<Grant, Memory>
    ensures { IfOk result (λ g. g ≡ grant.now) }
{
    Ok(match grant {
        Grant::Go => Grant::Go,
        Grant::Made(pid) => Grant::Made(*pid),
        Grant::Value(value) => Grant::Value(value.copy()?),
        Grant::Late => Grant::Late,
        Grant::Gone => Grant::Gone,
        Grant::Took { alt, args } => Grant::Took {
            alt: *alt,
            args: args.copy()?,
        },
        Grant::Chose { alt } => Grant::Chose { alt: *alt },
        Grant::Byte(byte) => Grant::Byte(*byte),
    })
}

pub(crate) fn copy_grants(alloc: Global, grants: &[Grant]) -> Result<Vec<Grant>, Memory>
    ensures { IfOk result (λ gs. gs.items ≡ grants.now) }
{
    let mut copies = Vec::new(alloc);
    for grant in grants {
        copies.push(copy_grant(grant)?)?;
    }
    Ok(copies)
}

pub(crate) fn copy_call(call: &TransactionCall) -> Result<TransactionCall, Memory>
    ensures { IfOk result (λ c. c ≡ call.now) }
{
    Ok(TransactionCall {
        number: call.number,
        target: call.target,
        trans: call.trans,
        args: call.args.copy()?,
        waiting: call.waiting,
    })
}

pub(crate) fn copy_calls(
    alloc: Global,
    calls: &[TransactionCall],
) -> Result<Vec<TransactionCall>, Memory>
    ensures { IfOk result (λ cs. cs.items ≡ calls.now) }
{
    let mut copies = Vec::new(alloc);
    for call in calls {
        copies.push(copy_call(call)?)?;
    }
    Ok(copies)
}

fn copy_alternative(alt: &Alt) -> Result<Alt, Memory>
    ensures { IfOk result (λ a. a ≡ alt.now) }
{
    Ok(match alt {
        Alt::Accept { trans, site, env } => Alt::Accept {
            trans: *trans,
            site: *site,
            env: env.copy()?,
        },
        Alt::After { wait } => Alt::After { wait: *wait },
        Alt::Now => Alt::Now,
        Alt::Terminate => Alt::Terminate,
    })
}

fn copy_alternatives(alloc: Global, alts: &Alts) -> Result<Alts, Memory>
    ensures { IfOk result (λ a. a ≡ alts.now) }
{
    let mut copies = Alts::new(alloc);
    for at in 0..alts.len() {
        let Some(item) = alts.get(at) else {
            return Ok(copies);
        };
        copies.push((item.0, copy_alternative(&item.1)?))?;
    }
    Ok(copies)
}

pub(crate) fn copy_standing(
    alloc: Global,
    standing: &ProcessStanding,
) -> Result<ProcessStanding, Memory>
    ensures { IfOk result (λ s. s ≡ standing.now) }
{
    Ok(match standing {
        ProcessStanding::Running => ProcessStanding::Running,
        ProcessStanding::AtSelect { alts, asked } => ProcessStanding::AtSelect {
            alts: copy_alternatives(alloc, alts)?,
            asked: *asked,
        },
        ProcessStanding::AtDelay { deadline } => ProcessStanding::AtDelay {
            deadline: *deadline,
        },
        ProcessStanding::AtCall { call } => ProcessStanding::AtCall { call: *call },
        ProcessStanding::Ended => ProcessStanding::Ended,
        ProcessStanding::Faulted { kind } => ProcessStanding::Faulted { kind: *kind },
    })
}
