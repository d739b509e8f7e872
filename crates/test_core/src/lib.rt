//! Tests of what stands below the program: of texts and nets, of moves and their orders, of pools and of gates.
//!
//! What is read back: programs from what is printed of their trees, terms from their nets, and logs from their texts. Nets of the highest
//! and of the widest terms are built and read back, and calls are made on nets that no program has.
//!
//! The running machine: `token_stacks` and `move_rules` over their public calls, `interleave_core` and `branch_runs` on nets of programs,
//! and the table of `fork_join` in which forks meet. A row of the table of moves is a line of a test's table. A program is read from its
//! text; its steps, the walks that a state takes over, the run of one worker, and branches that are played by themselves and put into a
//! machine are compared with tables. Of the table of forks it is tried which keys are one, and which answers meet.
//!
//! The pools that workers share: for one program, for the programs of a list, and watched. What a list is read as is proved, and so are
//! each call of a batch, what a watched run comes to, and what an end of a meter reads and publishes. Pools and batches are played by hand
//! here, call by call in several orders, and driven by threads; what is finished is compared with tables. In the lists of these tests the
//! name of a job is its program's text.
//!
//! No clause says that workers run side by side, that the gate is called without the lock, that a sleeper is woken, that a reader runs
//! beside the workers, or that calls on a meter return and waiting ends: tests do.
//!
//! What asks that a net runs is tested here, above the crate that proves it of the nets of programs. `net_for` of `program_runs` is the
//! program's way from a text to its net. Tests here have their nets from `net_of`, so that they stand below the program, and are proved
//! while the program is. A text that is no program of type `nat`, or a ticket that isn't live, is a mistake of the test, and fails it as
//! want of memory does.
//!
//! Faults and limits, which texts are refused, and lists of every kind are tried from outside, by `.ci/calls`. Tests stand in crates of
//! their own, so that the crates they are of are not proved a second time with them.
#![tactic(auto)]

#[cfg(test)]
mod adopting;
#[cfg(test)]
mod benches;
#[cfg(test)]
mod branch_pools;
#[cfg(test)]
mod branch_tables;
#[cfg(test)]
mod branches;
#[cfg(test)]
mod driven;
#[cfg(test)]
mod games;
#[cfg(test)]
mod job_games;
#[cfg(test)]
mod job_runs;
#[cfg(test)]
mod jobs;
#[cfg(test)]
mod keys;
#[cfg(test)]
mod logs;
#[cfg(test)]
mod meters;
#[cfg(test)]
mod moves;
#[cfg(test)]
mod nets;
#[cfg(test)]
mod outline;
#[cfg(test)]
mod pool_games;
#[cfg(test)]
mod pools;
#[cfg(test)]
mod positions;
#[cfg(test)]
mod printing;
#[cfg(test)]
mod programs;
#[cfg(test)]
mod read_beside;
#[cfg(test)]
mod rows;
#[cfg(test)]
mod running;
#[cfg(test)]
mod stacks;
#[cfg(test)]
mod stepping;
#[cfg(test)]
mod texts;
#[cfg(test)]
mod tickets;
#[cfg(test)]
mod watched;
#[cfg(test)]
mod wide;
#[cfg(test)]
mod workers;
