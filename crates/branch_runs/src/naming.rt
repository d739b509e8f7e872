//! A net that types name.

ghost use Rattle.std.specs.Prelude.{◌≡◌};
ghost use Rattle.interleave_laws.specs.Runs.{Runs};

use net_build::Net;
use std::marker::{Brand, Model, PhantomData};

/// Names one net. A call that passes `Brand` picks it.
pub trait OnNet {
    ghost use Rattle.net_build.specs.Nets.{NetTree};

    ghost net: { NetTree };
}

impl OnNet for Brand {
    ghost use Rattle.branch_runs.specs.Branching.{no_net};

    ghost net = { no_net };
}

/// The net that `N` names, borrowed, which runs: no order of moves leaves it without a move before its answer.
#[derive(Drop)]
pub struct NamedNet<'n, N: OnNet> {
    net: &'n Net,
    name: PhantomData<N>,
}

impl<'n, N: OnNet> Model for NamedNet<'n, N> {
    ghost use Rattle.std.specs.Prelude.{◌≡◌};
    ghost use Rattle.net_build.specs.Nets.{NetTree};
    ghost use Rattle.net_build.specs.Codes.{net_code};
    ghost use Rattle.interleave_laws.specs.Runs.{Runs};

    ghost Value = { NetTree };

    ghost coded = { net_code };

    ghost view = { λ n. n.net.now };

    ghost invariant = { λ n. (n.net.now ≡ N.net) × Runs N.net };
}

impl<'n, N: OnNet> NamedNet<'n, N> {
    /// The net under the name that the type has. Takes no memory.
    pub fn new(net: &'n Net) -> NamedNet<'n, N>
        requires named { net.now ≡ N.net }
        requires runs { Runs N.net }
        ensures { result ≡ net.now }
    {
        NamedNet {
            net,
            name: PhantomData,
        }
    }

    /// The net itself. Takes no memory.
    pub fn net(&self) -> &Net
        ensures net { result.now ≡ N.net }
        ensures runs { Runs N.net }
    {
        self.net
    }
}
