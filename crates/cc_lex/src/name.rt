ghost use Rattle.std.specs.Prelude.{◌≡◌, IfOk};

use cc_base::{Bytes, Memory};
use std::alloc::Global;
use std::marker::Model;

/// How many bytes of a name are kept in place.
const SHORT: usize = 22;

/// The bytes of a name. Those of a short name, as most are, need no memory beside the token.
#[derive(Debug, Drop)]
pub struct Name {
    kept: Kept,
}

#[derive(Debug, Drop)]
enum Kept {
    Short { len: u8, bytes: [u8; SHORT] },
    Long(Box<Bytes>),
}

impl Model for Name {
    ghost use Rattle.std.specs.Prelude.{ℕ, List};

    ghost Value = { List ℕ };

    ghost use Rattle.cc_lex.specs.Name.{bytes_of, IsSound};

    ghost view = { λ n. bytes_of n.kept };

    ghost invariant = { λ n. IsSound n.kept };
}

impl Name {
    /// The name of these bytes.
    pub fn from_slice(alloc: Global, name: &[u8]) -> Result<Name, Memory>
        ensures bytes { IfOk result (λ n. n ≡ name.now) }
    {
        if name.len() <= SHORT {
            let mut bytes = [0; SHORT];
            bytes[..name.len()].copy_from_slice(name);
            let len = name.len() as u8;
            return Ok(Name {
                kept: Kept::Short { len, bytes },
            });
        }
        let bytes = Bytes::from_slice(alloc, name)?;
        let boxed = Box::new(alloc, bytes)?;
        Ok(Name {
            kept: Kept::Long(boxed),
        })
    }

    /// The bytes of the name.
    pub fn as_slice(&self) -> &[u8]
        ensures bytes { result.now ≡ self.now }
    {
        match &self.kept {
            Kept::Short { len, bytes } => &bytes[..*len as usize],
            Kept::Long(bytes) => bytes.as_slice(),
        }
    }

    /// The same name, in memory of its own.
    pub fn copy(&self, alloc: Global) -> Result<Name, Memory>
        ensures bytes { IfOk result (λ n. n ≡ self.now) }
    {
        Name::from_slice(alloc, self.as_slice())
    }
}
