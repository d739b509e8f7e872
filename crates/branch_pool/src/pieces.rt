//! What a worker is handed that plays branches.

ghost use Rattle.std.specs.Prelude.{◌≡◌, ◌≤◌};
ghost use Rattle.pcf_values.specs.Most.{most_budget};
ghost use Rattle.branch_pool.specs.Benches.{branch_piece};

use branch_runs::{OnNet, Seed};
use std::marker::Model;

/// A token on the net that `N` names, how many moves a branch of it may have, and whether it is to be plain. Contracts see these three;
/// no run may have fewer moves than that.
#[derive(Drop)]
pub struct BranchPiece<N: OnNet> {
    seed: Seed<N>,
    allowance: u32,
    plain: bool,
}

impl<N: OnNet> Model for BranchPiece<N> {
    ghost use Rattle.std.specs.Prelude.{◌≤◌};
    ghost use Rattle.pcf_values.specs.Most.{most_budget};
    ghost use Rattle.branch_pool.specs.Benches.{BranchPieceTree, branch_piece, branch_piece_code};

    ghost Value = { BranchPieceTree };

    ghost coded = { branch_piece_code };

    ghost view = { λ k. branch_piece k.seed k.allowance k.plain };

    ghost invariant = { λ k. k.allowance ≤ most_budget };
}

impl<N: OnNet> BranchPiece<N> {
    /// A piece of these three. Takes no memory.
    pub fn new(seed: Seed<N>, allowance: u32, plain: bool) -> BranchPiece<N>
        requires { allowance ≤ most_budget }
        ensures { result ≡ branch_piece seed allowance plain }
    {
        BranchPiece {
            seed,
            allowance,
            plain,
        }
    }

    /// How many moves a branch of it may have. Takes no memory.
    pub fn allowance(&self) -> u32
        ensures value { result ≡ self.now.allowance }
        ensures few { result ≤ most_budget }
    {
        self.allowance
    }

    /// Whether a branch of it is to be plain. Takes no memory.
    pub fn is_plain(&self) -> bool
        ensures { result ≡ self.now.plain }
    {
        self.plain
    }

    /// Hands the token out. Takes no memory.
    pub fn into_seed(self) -> Seed<N>
        ensures { result ≡ self.token }
    {
        let BranchPiece { seed, .. } = self;
        seed
    }
}
