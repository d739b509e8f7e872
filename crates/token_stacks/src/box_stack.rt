//! The box stack of a token, as words, and its order. Its words end at a border. What stands behind the border isn't its own: within
//! `Stacks` that is the work stack, and in a copy nothing.

ghost use Rattle.std.specs.Prelude.{◌≡◌, IfOk};
ghost use Rattle.token_stacks.specs.Words.{box_words};

use std::alloc::AllocError;
use std::cmp::Ordering;
use std::marker::Model;

/// A list of signatures, one for each box that is open around a token, the innermost first.
///
/// Two are equal, or tie, exactly when they are the same list, by `law_boxes_in_order`.
#[derive(Drop)]
pub struct BoxStack {
    words: Vec<u64>,
    border: usize,
}

impl Model for BoxStack {
    ghost use Rattle.std.specs.Prelude.{take};
    ghost use Rattle.token_stacks.specs.Signatures.{Boxes};
    ghost use Rattle.token_stacks.specs.Codes.{boxes_code};
    ghost use Rattle.token_stacks.specs.Reading.{boxes_of};
    ghost use Rattle.token_stacks.specs.Tops.{AreBoxes};

    ghost Value = { Boxes };

    ghost coded = { boxes_code };

    ghost view = { λ a. boxes_of (take a.border a.words.items) };

    ghost invariant = { λ a. AreBoxes a.words.items a.border };
}

impl PartialEq for BoxStack {
    ghost use Rattle.std.proofs.Common.{rules};
    ghost use Rattle.std.specs.Cmp.Rules.{comparing};
    ghost use Rattle.token_stacks.specs.Order.{box_eq};

    ghost eq = { box_eq };

    ghost laws = { Prim.search (comparing, rules) };

    fn eq(&self, other: &BoxStack) -> bool {
        self.words() == other.words()
    }
}

impl Eq for BoxStack {
    ghost use Rattle.std.proofs.Common.{rules};
    ghost use Rattle.std.specs.Cmp.Rules.{comparing};

    ghost laws = { Prim.search (comparing, rules) };
}

impl PartialOrd for BoxStack {
    ghost use Rattle.std.proofs.Common.{rules};
    ghost use Rattle.std.specs.Cmp.{partial_order_from_own_ties};
    ghost use Rattle.std.specs.Cmp.Rules.{comparing};
    ghost use Rattle.std.specs.Ordering.{as_partial_cmp};
    ghost use Rattle.token_stacks.specs.Order.{box_cmp};

    ghost partial_cmp = { as_partial_cmp box_cmp };

    ghost laws = { partial_order_from_own_ties (Prim.search (comparing, rules)) (Prim.search (comparing, rules)) };

    fn partial_cmp(&self, other: &BoxStack) -> Option<Ordering> {
        Some(self.cmp(other))
    }
}

/// Two box stacks compare as their words from the bottom.
impl Ord for BoxStack {
    ghost use Rattle.std.proofs.Common.{rules};
    ghost use Rattle.std.specs.Cmp.Rules.{comparing};
    ghost use Rattle.token_stacks.specs.Order.{box_cmp};

    ghost cmp = { box_cmp };

    ghost total = { Prim.search (comparing, rules) };

    ghost matches_partial_cmp = { Prim.search (comparing, rules) };

    ghost matches_eq = { Prim.search (comparing, rules) };

    fn cmp(&self, other: &BoxStack) -> Ordering {
        self.words().cmp(other.words())
    }
}

impl BoxStack {
    /// An equal box stack, in memory of its own.
    ///
    /// # Errors
    ///
    /// Only where memory runs out.
    pub fn copy(&self) -> Result<BoxStack, AllocError>
        ensures { IfOk result (λ t. t ≡ self.now) }
    {
        let mut words = self.words.clone()?;
        words.truncate(self.border);
        Ok(BoxStack {
            words,
            border: self.border,
        })
    }

    /// The words, from the bottom.
    pub(crate) fn words(&self) -> &[u64]
        ensures { result.now ≡ box_words self.now }
    {
        &self.words[..self.border]
    }
}
