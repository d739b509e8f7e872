//! The tokens of a text.

use pcf_values::{Operator, Side};

/// A word before an atom.
#[derive(Clone, Copy)]
pub enum Word {
    /// `succ`
    Succ,
    /// `pred`
    Pred,
    /// `fst` or `snd`, the part of a pair on a side.
    Part(Side),
}

/// A word that binds a name.
#[derive(Clone, Copy)]
pub enum Binder {
    /// `fun`
    Fun,
    /// `fix`
    Fix,
}

/// A token. A name's text stands beside it in the reader.
#[derive(Clone, Copy)]
pub enum Token {
    /// `(`
    Open,
    /// `)`
    Close,
    /// `:`
    Colon,
    /// `.`
    Dot,
    /// `,`
    Comma,
    /// The sign of an operator. That of the product stands between types, too.
    Sign(Operator),
    /// `->`
    Arrow,
    /// `ifz`
    Ifz,
    /// `then`
    Then,
    /// `else`
    Else,
    /// `nat`
    Nat,
    /// A word that binds a name.
    Bind(Binder),
    /// A word before an atom.
    Before(Word),
    /// A number.
    Number(u64),
    /// A name.
    Name,
    /// The end of the text.
    End,
}
