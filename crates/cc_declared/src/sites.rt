//! What is asked of what is visible, and added to it, while statements are judged.

ghost use Rattle.std.specs.Prelude.{◌≡◌, ◌++◌, [], ◌∷◌, OnOk};
ghost use Rattle.cc_faults.specs.Scopes.{is_here, meaning_at};

use crate::names::is_here;
use crate::visible::Visible;
use cc_base::Memory;
use cc_faults::Identifier;
use cc_typed::Site;

impl Visible {
    /// Whether a name is taken: it is declared in this very scope.
    pub fn is_taken(&self, scope: u32, x: Identifier) -> bool
        ensures taken { result ≡ is_here scope (meaning_at self.now x) }
    {
        is_here(scope, self.meaning(x))
    }

    /// The accepts of the text so far.
    pub fn sites(&self) -> &[Site]
        ensures sites { result.now ≡ self.now.sites }
    {
        self.sites.as_slice()
    }

    /// One accept more. Fails where memory is out.
    pub fn add_site(&mut self, site: Site) -> Result<(), Memory>
        ensures after { OnOk result (self.new ≡ record self.old { sites = self.old.sites ++ site ∷ [] }) }
    {
        self.sites.push(site)?;
        Ok(())
    }
}
