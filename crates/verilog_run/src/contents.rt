//! What the vectors and the memories of a module hold.

ghost use Rattle.std.specs.Prelude.{◌≡◌, IfOk, OnOk};
ghost use Rattle.verilog_tree.specs.Meaning.{set_vec};
ghost use Rattle.verilog_tree.specs.Names.{text_of};
ghost use Rattle.verilog_run.specs.Entries.{Name};
ghost use Rattle.verilog_run.specs.Held.{held, nothing, with_word};

use crate::copies::copy;
use crate::table::{Table, number, number_at, put_at};
use std::alloc::{AllocError, Global};
use wide_numbers::Number;

/// What the vectors and the memories of a module hold. What isn't written yet, and what is read past an end, is 0.
#[derive(Drop)]
pub struct Contents {
    vectors: Table,
    words: Table,
}

impl Contents {
    /// Nothing is written yet. Takes no memory.
    pub fn new(alloc: Global) -> Contents
        ensures { held result ≡ nothing }
    {
        Contents {
            vectors: Table::new(alloc),
            words: Table::new(alloc),
        }
    }

    /// What the vectors hold, in memory of its own, and no memory's words.
    ///
    /// # Errors
    ///
    /// Only where memory runs out.
    pub fn vectors(&self, alloc: Global) -> Result<Contents, AllocError>
        ensures { IfOk result (λ s. (x : Name) → (held s).vec x ≡ (held self.now).vec x) }
    {
        Ok(Contents {
            vectors: copy(alloc, &self.vectors)?,
            words: Table::new(alloc),
        })
    }

    /// The number of a vector.
    ///
    /// # Errors
    ///
    /// Only where memory runs out.
    pub fn vector(&self, alloc: Global, name: &[u8]) -> Result<Number, AllocError>
        ensures { IfOk result (λ n. n ≡ (held self.now).vec (text_of name.now)) }
    {
        number(alloc, &self.vectors, name)
    }

    /// A word of a memory.
    pub(crate) fn word(&self, alloc: Global, name: &[u8], at: &Number) -> Result<Number, AllocError>
        ensures { IfOk result (λ n. n ≡ (held self.now).mem (text_of name.now) at.now) }
    {
        number_at(alloc, &self.words, name, at)
    }

    /// Puts a number into a vector.
    ///
    /// # Errors
    ///
    /// Only where memory runs out.
    pub fn set_vector(
        &mut self,
        alloc: Global,
        name: &[u8],
        number: Number,
    ) -> Result<(), AllocError>
        ensures { OnOk result (held self.new ≡ set_vec (text_of name.now) number (held self.old)) }
    {
        put_at(alloc, &mut self.vectors, name, 0, number)?;
        Ok(())
    }

    /// Puts a number into a word of a memory. No memory holds 2^62 words.
    pub(crate) fn set_word(
        &mut self,
        alloc: Global,
        name: &[u8],
        at: &Number,
        number: Number,
    ) -> Result<(), AllocError>
        ensures { OnOk result (held self.new ≡ with_word (text_of name.now) at.now number (held self.old)) }
    {
        match at.within(1 << 62) {
            Some(i) => {
                put_at(alloc, &mut self.words, name, i, number)?;
                Ok(())
            }
            None => Err(AllocError),
        }
    }
}
