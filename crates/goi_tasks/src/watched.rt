//! Workers of whose runs is read how far they are.

ghost use Rattle.std.specs.Prelude.{◌≡◌, ◌≤◌, ℕ, List, IfOk, length};
ghost use Rattle.pcf_values.specs.Most.{most_budget};
ghost use Rattle.interleave_laws.specs.Runs.{Runs};
ghost use Rattle.metered_pool.specs.Progress.{IsProgress};
ghost use Rattle.net_runs.specs.IsRun.{IsRun, IsFirstWorkers};

use net_build::Net;
use program_runs::Crew;
use std::alloc::{AllocError, Global};
use token_pool::Ended;

/// So many workers, who run a net by this call: `metered_pool::watch_net` with a runtime and a gate. Its progress is read while they run.
#[derive(Drop)]
pub struct Watched<F> {
    /// How many they are; from 1 to `pcf_values::limits::WORKERS`.
    pub workers: u32,
    /// How they run a net within a budget, and what is read then.
    pub run: F,
}

impl<F: Fn(&Net, u32) -> Result<(Ended, Vec<u64>), AllocError>> Crew for Watched<F> {
    ghost count = { λ crew. crew.workers };

    ghost fit = { λ crew.
        ((net : _) (budget : ℕ) → Runs net.now → (1 ≤ budget) × (budget ≤ most_budget) → F.pre crew.run net budget) ×
        ((net : _) (budget : ℕ) (r : _) → F.post crew.run net budget r →
        IfOk r (λ x. IsRun net.now crew.workers budget x.0.answer x.0.log.entries) ×
        IfOk r (λ x. crew.workers ≡ 1 → IsFirstWorkers net.now budget x.0.log.entries) ×
        IfOk r (λ x. IsProgress (length x.0.log.entries) x.1.items)) };

    ghost reads = { λ _ moves numbers. IsProgress moves numbers };

    fn workers(&self) -> u32 {
        self.workers
    }

    fn run(&self, _alloc: Global, net: &Net, budget: u32) -> Result<(Ended, Vec<u64>), AllocError> {
        (self.run)(net, budget)
    }
}
