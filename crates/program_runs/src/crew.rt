//! Who runs a net: one worker alone, or several.
//!
//! A method of a trait can't start threads that pass a gate of any type: the check has no proof for it. So `Several` keeps the call that
//! does, as a closure of whoever has the runtime and the gate, and what is known of that closure is asked of the caller, as `fit`.

ghost use Rattle.std.specs.Prelude.{◌≡◌, ◌≤◌, [], ℕ, List, IfOk, length};
ghost use Rattle.pcf_values.specs.Most.{most_budget};
ghost use Rattle.interleave_laws.specs.Runs.{Runs};
ghost use Rattle.net_runs.specs.IsRun.{IsRun, IsFirstWorkers};

use net_build::Net;
use net_runs::run_alone;
use std::alloc::{AllocError, Global};
use token_pool::Ended;

/// Who runs a net.
pub trait Crew {
    /// How many workers they are.
    ghost count: { Self → ℕ };

    /// What has to be known of them: that they run any net that runs.
    ghost fit: { Self → Type 0 };

    /// What may be read, while it goes on, of a run of so many moves.
    ghost reads: { Self → ℕ → List ℕ → Type 0 };

    /// How many workers they are.
    fn workers(&self) -> u32
        ensures { result ≡ count self.now };

    /// The run of a net by them within a budget of moves: its answer, if it came to one, and its log. And what was read of it while it
    /// went on.
    ///
    /// # Errors
    ///
    /// It runs out of memory; nothing is kept then.
    fn run(&self, alloc: Global, net: &Net, budget: u32) -> Result<(Ended, Vec<u64>), AllocError>
        requires fit { fit self.now }
        requires runs { Runs net.now }
        requires budget { (1 ≤ budget) × (budget ≤ most_budget) }
        ensures run { IfOk result (λ r. IsRun net.now (count self.now) budget r.0.answer r.0.log.entries) }
        ensures alone { IfOk result (λ r. count self.now ≡ 1 → IsFirstWorkers net.now budget r.0.log.entries) }
        ensures reads { IfOk result (λ r. reads self.now (length r.0.log.entries) r.1.items) };
}

/// One worker alone, in the caller's own thread: no other is started, no lock is taken and no gate passed. Nothing is read of its runs.
#[derive(Clone, Copy)]
pub struct Alone;

impl Crew for Alone {
    ghost count = { λ _. 1 };

    ghost fit = { λ _. Unit {0} };

    ghost reads = { λ _ moves numbers. numbers ≡ [] };

    fn workers(&self) -> u32 {
        1
    }

    fn run(&self, alloc: Global, net: &Net, budget: u32) -> Result<(Ended, Vec<u64>), AllocError> {
        Ok((run_alone(alloc, net, budget)?, Vec::new(alloc)))
    }
}

/// So many workers, who run a net by this call: `net_runs::run_net` with a runtime and a gate. Nothing is read of their runs.
#[derive(Drop)]
pub struct Several<F> {
    /// How many they are; from 1 to `pcf_values::limits::WORKERS`.
    pub workers: u32,
    /// How they run a net within a budget.
    pub run: F,
}

impl<F: Fn(&Net, u32) -> Result<Ended, AllocError>> Crew for Several<F> {
    ghost count = { λ crew. crew.workers };

    ghost fit = { λ crew.
        ((net : _) (budget : ℕ) → Runs net.now → (1 ≤ budget) × (budget ≤ most_budget) → F.pre crew.run net budget) ×
        ((net : _) (budget : ℕ) (r : _) → F.post crew.run net budget r →
        IfOk r (λ e. IsRun net.now crew.workers budget e.answer e.log.entries) ×
        IfOk r (λ e. crew.workers ≡ 1 → IsFirstWorkers net.now budget e.log.entries)) };

    ghost reads = { λ _ moves numbers. numbers ≡ [] };

    fn workers(&self) -> u32 {
        self.workers
    }

    fn run(&self, alloc: Global, net: &Net, budget: u32) -> Result<(Ended, Vec<u64>), AllocError> {
        Ok(((self.run)(net, budget)?, Vec::new(alloc)))
    }
}
