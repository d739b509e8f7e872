//! The parts of a state, side by side.

ghost use Rattle.std.specs.Prelude.{◌≡◌, [], None, IfOk};
ghost use Rattle.std.specs.FinMap.{insert, empty};
ghost use Rattle.move_rules.specs.Places.{up};
ghost use Rattle.interleave_laws.specs.Start.{start_of};
ghost use Rattle.interleave_laws.specs.Runs.{Runs};
ghost use Rattle.interleave_laws.specs.Maps.{start_map};
ghost use Rattle.interleave_core.specs.Parts.{state_of, state};
ghost use Rattle.move_rules.specs.Views.{token_of};

use crate::live::LiveTokens;
use crate::root::{only_root, root};
use fork_join::JoinTable;
use move_rules::{Kind, Token};
use net_build::Net;
use pcf_values::Val;
use std::alloc::{AllocError, Global};
use token_stacks::Stacks;

/// The live tokens, the open entries, the next ticket, and the answer.
#[derive(Drop)]
pub(crate) struct Parts {
    pub(crate) live: LiveTokens,
    pub(crate) joins: JoinTable,
    pub(crate) next: u32,
    pub(crate) answer: Option<Val>,
}

/// The parts with which a run of a net that runs begins: ticket 0 asks for the program's value.
pub(crate) fn begin(alloc: Global, net: &Net) -> Result<Parts, AllocError>
    requires { Runs net.now }
    ensures { IfOk result (λ p. state_of p ≡ start_map (start_of net.now)) }
{
    begin_on(alloc, only_root(net))
}

/// The same on any net, all of whose nodes may have to be looked at.
pub(crate) fn begin_any(alloc: Global, net: &Net) -> Result<Parts, AllocError>
    ensures { IfOk result (λ p. state_of p ≡ start_map (start_of net.now)) }
{
    begin_on(alloc, root(net))
}

/// The parts in which ticket 0 asks for the value of this wire.
fn begin_on(alloc: Global, wire: u32) -> Result<Parts, AllocError>
    ensures { IfOk result (λ p. state_of p ≡ start_map (up wire [] [])) }
{
    Ok(begin_at(
        alloc,
        Token {
            wire,
            up: true,
            kind: Kind::Ask,
            stacks: Stacks::empty(alloc),
        },
    )?)
}

/// The parts with which a token's run by itself begins: it is ticket 0.
pub(crate) fn begin_at(alloc: Global, token: Token) -> Result<Parts, AllocError>
    ensures { IfOk result (λ p. state_of p ≡ state (insert empty 0 (token_of token)) empty 1 None) }
{
    let mut live = LiveTokens::new(alloc);
    live.put(0, token)?;
    Ok(Parts {
        live,
        joins: JoinTable::new(alloc),
        next: 1,
        answer: None,
    })
}
