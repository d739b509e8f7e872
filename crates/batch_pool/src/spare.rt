//! For how many pieces it is worth to wake a worker.

ghost use Rattle.std.specs.Prelude.{◌≡◌, ◌<◌, ◌≤◌, ◌+◌, ◌-◌, ◌^◌, length};
ghost use Rattle.batch_lists.specs.Limits.{most_jobs};
ghost use Rattle.batch_pool.specs.Keeping.{Spared, SpareAt};

use token_pool::PoolState;

/// The spare pieces of a job.
pub(crate) fn spare_at(pools: &[PoolState<'_>], job: usize) -> u32
    requires { job < length pools.now }
    ensures { SpareAt pools.now job result }
{
    pools[job].spare_pieces()
}

/// The spare pieces of all jobs together where so many of one job became so many.
pub(crate) fn spare_after(spare: u64, before: u32, now: u32) -> u64
    requires part { before ≤ spare }
    requires small { spare - before + now < 2 ^ 64 }
    ensures { result ≡ spare - before + now }
{
    spare - before as u64 + now as u64
}

/// The spare pieces of all jobs together, counted one by one.
pub(crate) fn spare_of(pools: &[PoolState<'_>]) -> u64
    requires { length pools.now ≤ most_jobs }
    ensures { Spared pools.now result }
{
    match pools {
        [] => 0,
        [first, rest @ ..] => first.spare_pieces() as u64 + spare_of(rest),
    }
}
