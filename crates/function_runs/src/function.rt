//! A function of numbers, compiled.

ghost use Rattle.std.specs.Prelude.{◌≡◌, ◌≤◌, ◌<◌, ◌^◌, ◌+◌, ◌*◌, [], length, replicate, IfOk};
ghost use Rattle.pcf_values.specs.Most.{most_budget};
ghost use Rattle.pcf_values.specs.Terms.{nat};
ghost use Rattle.pcf_values.specs.Typing.{HasType};
ghost use Rattle.cbn_meaning.specs.Meaning.{Means};
ghost use Rattle.net_build.specs.NetOf.{net_of};
ghost use Rattle.open_net_laws.specs.Applied.{applied, numeric};
ghost use Rattle.open_net_laws.specs.Arguments.{closed_part};
ghost use Rattle.program_runs.specs.Runs.{IsProgramRun};

use crate::exchanging::{clear, exchange};
use adequacy_laws::law_never_stuck;
use net_build::Net;
use net_runs::run_alone;
use open_net_laws::{law_applied, law_numbers};
use pcf_values::Typed;
use program_runs::law_tells;
use std::alloc::{AllocError, Global};
use std::marker::Model;
use std::snapshot::Snapshot;
use token_pool::Ended;

/// A function of numbers: a closed term of type `nat -> .. -> nat`. Contracts see the pair of the term and of how many numbers it takes.
/// The type keeps the term's net at some numbers, and where they are in it. Of the term itself it keeps only what contracts see.
#[derive(Drop)]
pub struct Function {
    program: Snapshot<Typed>,
    net: Net,
    first: u32,
    arguments: u32,
}

impl Model for Function {
    ghost use Rattle.std.specs.Prelude.{ℕ};
    ghost use Rattle.pcf_values.specs.Terms.{TermTree};

    ghost Value = { TermTree × ℕ };

    ghost use Rattle.function_runs.specs.Codes.{function_code};

    ghost coded = { function_code };

    ghost use Rattle.function_runs.specs.Ready.{IsReady};

    ghost view = { λ f. (f.program.value.0, f.arguments) };

    ghost invariant = { λ f. IsReady f.program.value f.net f.first f.arguments };
}

impl Function {
    /// The function of this program, whose net at zeros this is.
    pub(crate) fn of(program: Snapshot<Typed>, net: Net, arguments: u32) -> Function
        requires typed { HasType [] program.value.0 program.value.1 }
        requires takes { program.value.1 ≡ numeric arguments }
        requires net { net ≡ net_of (applied program.value.0 (replicate arguments 0)) }
        requires few { length net.nodes < 2 ^ 32 }
        ensures { result ≡ (program.value.0, arguments) }
    {
        law_numbers();
        let first = net.node_count() - 1 - 3 * arguments;
        Function {
            program,
            net,
            first,
            arguments,
        }
    }

    /// How many numbers it takes.
    pub fn arguments(&self) -> u32
        ensures { result ≡ self.now.1 }
    {
        self.arguments
    }

    /// The place of its first argument's number in the list of nodes of its net, where each third node is the next one's.
    pub fn first(&self) -> u32
        ensures first { result ≡ length (closed_part self.now.0).nodes }
        ensures few { result + 3 * self.now.1 < 2 ^ 32 }
    {
        self.first
    }

    /// The net of the term at these numbers, on which it runs, for whoever makes the moves himself.
    pub fn into_net(self, values: &[u64]) -> Net
        requires many { length values.now ≡ self.1 }
        ensures net { result ≡ net_of (applied self.0 values.now) }
        ensures typed { HasType [] (applied self.0 values.now) nat }
    {
        law_applied();
        law_numbers();
        let Function { mut net, first, .. } = self;
        exchange(&mut net, first, values);
        net
    }

    /// The net of the term at zeros. Takes no memory.
    pub fn into_net_at_zeros(self) -> Net
        ensures net { result ≡ net_of (applied self.0 (replicate self.1 0)) }
        ensures typed { HasType [] self.0 (numeric self.1) }
    {
        law_numbers();
        let Function {
            mut net,
            first,
            arguments,
            ..
        } = self;
        clear(&mut net, first, arguments);
        net
    }

    /// The run of the function at these numbers by one worker within a budget of moves: its value, or none within the budget, and its log.
    /// It is the run of the term that is applied to them. The numbers are put into their places in time of how many they are; the net
    /// isn't copied. No thread is started, no lock taken.
    ///
    /// # Errors
    ///
    /// It runs out of memory.
    pub fn call(&mut self, alloc: Global, values: &[u64], budget: u32) -> Result<Ended, AllocError>
        requires many { length values.now ≡ self.old.1 }
        requires budget { (1 ≤ budget) × (budget ≤ most_budget) }
        ensures run { IfOk result (λ r.
            IsProgramRun (Means (applied self.old.0 values.now)) (net_of (applied self.old.0 values.now)) 1 budget r.answer r.log.entries) }
        ensures kept { self.new ≡ self.old }
    {
        law_never_stuck();
        law_tells();
        law_applied();
        law_numbers();
        exchange(&mut self.net, self.first, values);
        Ok(run_alone(alloc, &self.net, budget)?)
    }
}
