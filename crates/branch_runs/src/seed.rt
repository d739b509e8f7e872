//! Tokens that branches grow from.

ghost use Rattle.std.specs.Prelude.{◌≡◌};
ghost use Rattle.move_rules.specs.Views.{token_of};
ghost use Rattle.branch_laws.specs.Laws.{Occurs};

use crate::OnNet;
use move_rules::Token;
use std::marker::{Model, PhantomData};

/// A token that is live in some state which a log leads to on the net that `N` names. Contracts see the token as the definitions have it.
#[derive(Drop)]
pub struct Seed<N: OnNet> {
    token: Token,
    name: PhantomData<N>,
}

impl<N: OnNet> Model for Seed<N> {
    ghost use Rattle.move_rules.specs.Places.{TokenTree};
    ghost use Rattle.move_rules.specs.Codes.{token_code};
    ghost use Rattle.move_rules.specs.Views.{token_of};
    ghost use Rattle.branch_laws.specs.Laws.{Occurs};

    ghost Value = { TokenTree };

    ghost coded = { token_code };

    ghost view = { λ s. token_of s.token };

    ghost invariant = { λ s. Occurs N.net (token_of s.token) };
}

impl<N: OnNet> Seed<N> {
    /// The token, of which that is known. Takes no memory.
    pub fn new(token: Token) -> Seed<N>
        requires { Occurs N.net (token_of token) }
        ensures { result ≡ token_of token }
    {
        Seed {
            token,
            name: PhantomData,
        }
    }

    /// Hands the token out. Takes no memory.
    pub fn into_token(self) -> Token
        ensures token { token_of result ≡ self }
        ensures occurs { Occurs N.net (token_of result) }
    {
        let Seed { token, .. } = self;
        token
    }
}
