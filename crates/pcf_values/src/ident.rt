//! Names of variables and of files.

ghost use Rattle.std.specs.Prelude.{◌≡◌, List, ℕ, IfOk, string_bytes};

use std::alloc::{AllocError, Global};
use std::marker::Model;

/// A name, seen by contracts as the list of its bytes.
#[derive(Drop)]
pub struct Ident {
    text: String,
}

impl Model for Ident {
    ghost Value = { List ℕ };

    ghost view = { λ a. string_bytes a.text };
}

impl Ident {
    /// The name with the bytes of this text.
    ///
    /// # Errors
    ///
    /// It runs out of memory.
    pub fn from_text(alloc: Global, text: &str) -> Result<Ident, AllocError>
        ensures { IfOk result (λ a. a ≡ text.now) }
    {
        Ok(Ident {
            text: String::from_str(alloc, text)?,
        })
    }

    /// The name's text.
    pub fn as_str(&self) -> &str
        ensures { result.now ≡ self.now }
    {
        self.text.as_str()
    }

    /// An equal name.
    ///
    /// # Errors
    ///
    /// It runs out of memory.
    pub fn copy(&self, alloc: Global) -> Result<Ident, AllocError>
        ensures { IfOk result (λ a. a ≡ self.now) }
    {
        Ident::from_text(alloc, self.text.as_str())
    }
}
