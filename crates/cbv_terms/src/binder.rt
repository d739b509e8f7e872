//! The binders around a term that is translated.

use pcf_values::Ty;

/// A binder of the term: its type, and how many binders of the translated term stand around its own.
#[derive(Clone, Copy, Drop)]
pub(crate) struct Binder<'p> {
    pub(crate) ty: &'p Ty,
    pub(crate) level: u32,
}
