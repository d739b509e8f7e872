//! What a ticket of a branch is called in the state that takes the branch.

ghost use Rattle.std.specs.Prelude.{◌≡◌, ◌+◌, ◌-◌, ◌<◌, ◌^◌};
ghost use Rattle.branch_laws.specs.Branches.{name};

/// What a ticket of a branch of `ticket` is called in a state whose next ticket is `next`: the first is that ticket, and the others are
/// those that come next, in turn. Takes no memory.
pub fn name_of(ticket: u32, next: u32, own: u32) -> u32
    requires { next + (own - 1) < 2 ^ 32 }
    ensures { result ≡ name ticket next own }
{
    if own == 0 { ticket } else { next + (own - 1) }
}
