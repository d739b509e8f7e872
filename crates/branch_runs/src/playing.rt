//! A branch of a run.

ghost use Rattle.std.specs.Prelude.{◌≡◌, ◌≤◌, IfOk, length};
ghost use Rattle.pcf_values.specs.Most.{most_budget};
ghost use Rattle.move_rules.specs.Views.{token_of};
ghost use Rattle.branch_runs.specs.Branching.{IsBranch, Played};

use crate::growing::play;
use crate::{NamedNet, OnNet, Seed};
use interleave_core::{Core, Tickets};
use move_rules::Token;
use std::alloc::{AllocError, Global};
use std::marker::{Model, PhantomData};

/// One token's run by itself on the net that `N` names: the token, the moves by tickets of its own, the state that they lead to, which has
/// no answer, and whether it was played plainly. Contracts see these four, and every one is a branch.
#[derive(Drop)]
pub struct Branch<N: OnNet> {
    before: Token,
    log: Tickets,
    core: Core,
    plain: bool,
    name: PhantomData<N>,
}

impl<N: OnNet> Model for Branch<N> {
    ghost use Rattle.move_rules.specs.Views.{token_of};
    ghost use Rattle.branch_runs.specs.Branching.{Grown, IsBranch};
    ghost use Rattle.branch_runs.specs.Codes.{grown, grown_code};

    ghost Value = { Grown };

    ghost coded = { grown_code };

    ghost view = { λ b. grown (token_of b.before) b.log b.core b.plain };

    ghost invariant = { λ b. IsBranch N.net (grown (token_of b.before) b.log b.core b.plain) };
}

impl<N: OnNet> Branch<N> {
    /// The token that it began with. Takes no memory.
    pub fn before(&self) -> &Token
        ensures before { token_of result.now ≡ self.now.before }
        ensures branch { IsBranch N.net self.now }
    {
        &self.before
    }

    /// How many moves it has. Takes no memory.
    pub fn len(&self) -> u32
        ensures { result ≡ length self.now.log }
    {
        self.log.len()
    }

    /// Whether it was played plainly. Takes no memory.
    pub fn is_plain(&self) -> bool
        ensures { result ≡ self.now.plain }
    {
        self.plain
    }

    /// The state that came of it. Takes no memory.
    pub fn after(&self) -> &Core
        ensures { result.now ≡ self.now.after }
    {
        &self.core
    }

    /// Its moves and the state that came of it. Takes no memory.
    pub fn into_parts(self) -> (Tickets, Core)
        ensures log { result.0 ≡ self.log }
        ensures after { result.1 ≡ self.after }
        ensures branch { IsBranch N.net self }
    {
        let Branch { log, core, .. } = self;
        (log, core)
    }
}

/// Plays the branch of a token by itself on this net: at each move the newest of its live tickets moves, until `most` moves are made, or
/// until that ticket is before the root or before a join whose entry isn't the branch's own. A plain one makes the token's own solo moves
/// alone. Besides what the moves take, it takes memory for a copy of the token, for the small machine's maps, and a list of its runs.
///
/// # Errors
///
/// It runs out of memory; nothing is kept then.
pub fn branch_of<N: OnNet>(
    alloc: Global,
    net: &NamedNet<'_, N>,
    seed: Seed<N>,
    most: u32,
    plain: bool,
) -> Result<Branch<N>, AllocError>
    requires { most ≤ most_budget }
    ensures before { IfOk result (λ b. b.before ≡ seed) }
    ensures plain { IfOk result (λ b. b.plain ≡ plain) }
    ensures played { IfOk result (λ b. Played N.net most b) }
{
    let token = seed.into_token();
    let before = token.copy()?;
    let mut core = Core::alone(alloc, token)?;
    let mut log = Tickets::new(alloc);
    play(&mut core, &mut log, net.net(), most, plain)?;
    Ok(Branch {
        before,
        log,
        core,
        plain,
        name: PhantomData,
    })
}
