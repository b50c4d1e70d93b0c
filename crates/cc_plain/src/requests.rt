//! What a process asks.
ghost use Rattle.std.specs.Prelude.{◌≡◌, IfOk, length};
ghost use Rattle.cc_base.specs.Grants.{HasKind, IsProper};

use crate::copies::copy_grant;
use crate::process::PlainProcess;
use cc_base::{Behave, Memory, Request};
use std::alloc::Global;
use std::sync::Arc;

/// What the process asks after the grants that it has: it is started anew, and given all of them.
pub(crate) fn request_of<B: Behave>(
    code: &Arc<B>,
    alloc: Global,
    process: &PlainProcess,
) -> Result<Request, Memory>
    requires kind { HasKind (B.means code.now.value) process.now.kind (length process.now.args) }
    requires proper { IsProper (B.means code.now.value) process.now.kind process.now.args process.now.grants }
    ensures { IfOk result (λ r. r ≡ (B.means code.now.value).act process.now.kind process.now.args process.now.grants) }
{
    let mut started = B::start(code, alloc, process.kind(), process.args().copy()?)?;
    let mut request = Request::Done;
    for grant in process.grants() {
        request = B::go(&mut started, alloc, copy_grant(grant)?)?;
    }
    Ok(request)
}
