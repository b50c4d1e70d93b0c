//! Where a phrase stands, from where the phrase round it stands.

ghost use Rattle.std.specs.Prelude.{◌≡◌, IfOk, suc};
ghost use Rattle.cc_faults.specs.Scopes as scopes;

use cc_faults::{Around, Leaves, Reply, Role};
use std::alloc::AllocError;

/// The scope within this one.
fn next_scope(scope: u32) -> Result<u32, AllocError>
    ensures { IfOk result (λ n. n ≡ suc scope) }
{
    match scope.checked_add(1) {
        Some(next) => Ok(next),
        None => Err(AllocError),
    }
}

/// In a scope within.
pub fn deeper(around: Around) -> Result<Around, AllocError>
    ensures deeper { IfOk result (λ w. w ≡ scopes.deeper around) }
{
    let scope = next_scope(around.scope)?;
    Ok(Around {
        scope,
        role: around.role,
        reply: around.reply,
        breaks: around.breaks,
        continues: around.continues,
        pure: around.pure,
    })
}

/// In the body of a loop.
pub fn inside_loop(around: Around) -> Around
    ensures inside { result ≡ scopes.inside_loop around }
{
    Around {
        scope: around.scope,
        role: around.role,
        reply: around.reply,
        breaks: Leaves::Inside,
        continues: Leaves::Inside,
        pure: around.pure,
    }
}

/// What a `break` or a `continue` in an accept's block leaves or goes on with, from what it does round the accept.
fn from_accept(leaves: Leaves) -> Leaves
    ensures { result ≡ scopes.from_accept leaves }
{
    match leaves {
        Leaves::Nothing => Leaves::Nothing,
        Leaves::Inside => Leaves::Outside,
        Leaves::Outside => Leaves::Outside,
    }
}

/// In a clause of an accept, which is in the scope of the accept's names.
pub fn in_clause(around: Around) -> Result<Around, AllocError>
    ensures clause { IfOk result (λ w. w ≡ scopes.in_clause around) }
{
    let within = deeper(around)?;
    Ok(Around {
        scope: within.scope,
        role: within.role,
        reply: within.reply,
        breaks: within.breaks,
        continues: within.continues,
        pure: true,
    })
}

/// In the block of an accept that replies with this, which is a scope within that of the accept's names.
pub fn in_accept(reply: Reply, around: Around) -> Result<Around, AllocError>
    ensures accept { IfOk result (λ w. w ≡ scopes.in_accept reply around) }
{
    let names = deeper(around)?;
    let block = deeper(names)?;
    Ok(Around {
        scope: block.scope,
        role: around.role,
        reply,
        breaks: from_accept(around.breaks),
        continues: from_accept(around.continues),
        pure: around.pure,
    })
}

/// In the outermost block of a function, of `main` or of a process body.
pub fn outermost(role: Role) -> Around
    ensures outermost { result ≡ scopes.outermost role }
{
    Around {
        scope: 2,
        role,
        reply: Reply::Nowhere,
        breaks: Leaves::Nothing,
        continues: Leaves::Nothing,
        pure: false,
    }
}
