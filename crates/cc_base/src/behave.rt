ghost use Rattle.std.specs.Prelude.{◌≡◌, ℕ, ◌<◌, ℤ, List, [], ◌∷◌, ◌++◌, length, slice_get, IfOk, Some};
ghost use Rattle.cc_base.specs.Grants.{HasKind, IsNext};
ghost use Rattle.cc_base.specs.Meaning.{Meaning};
ghost use Rattle.cc_base.specs.Requests.{HasSites, WellFormed};
ghost use Rattle.cc_base.specs.declared.request.Grant.{Grant};

use crate::cells::Cells;
use crate::memory::Memory;
use crate::names::Shape;
use crate::request::{Grant, Request};
use std::alloc::Global;
use std::sync::Arc;

/// What a program is to the rendezvous machine.
pub trait Behave: Drop {
    /// A process at work.
    type Proc: Drop;

    // What the program means.
    ghost means: { Self → Meaning };

    // How many accept sites it has.
    ghost sites: { Self → ℕ };

    // The process was started from this program with this kind and these arguments, and is where the program leaves
    // it after these grants.
    ghost at: { Self → Self.Proc → ℕ → List ℤ → List Grant → Type 0 };

    /// A new process of this kind, which was granted nothing so far.
    fn start(this: &Arc<Self>, alloc: Global, kind: u32, args: Cells) -> Result<Self::Proc, Memory>
        requires { HasKind (means this.now.value) kind (length args) }
        ensures { IfOk result (λ process. at this.now.value process kind args []) };

    /// What the process asks after one more grant. After an error the process is of no more use.
    fn go(this: &mut Self::Proc, alloc: Global, grant: Grant) -> Result<Request, Memory>
        requires { (code : Self) × (kind : ℕ) × (args : List ℤ) × (grants : List Grant) × at code this.old kind args grants × IsNext (means code) kind args grants grant }
        ensures { IfOk result (λ r. (code : Self) (kind : ℕ) (args : List ℤ) (grants : List Grant) → at code this.old kind args grants → IsNext (means code) kind args grants grant → (r ≡ (means code).act kind args (grants ++ grant ∷ [])) × at code this.new kind args (grants ++ grant ∷ [])) };

    /// The rank of a call with these arguments at this accept site, in this environment; none where it does not fit.
    fn fit(&self, site: u32, env: &Cells, args: &Cells) -> Option<i64>
        ensures { result ≡ (means self.now).fit site env.now args.now };

    /// What the transaction takes and gives.
    fn shape(&self, trans: u32) -> Shape
        requires { trans < length (means self.now).shapes }
        ensures { slice_get (means self.now).shapes trans ≡ Some result };

    // What follows are laws: each implementation proves them.

    // The machine can serve each request, and `main` is there, without arguments.
    ghost well_formed: { (code : Self) → WellFormed (means code) };

    // Each accept site that a request names exists, and no call fits a site that does not.
    ghost has_sites: { (code : Self) → HasSites (means code) (sites code) };
}
