//! Other numbers at the nodes of a function's arguments.

ghost use Rattle.std.specs.Prelude.{◌≡◌, ◌<◌, ◌^◌, ◌+◌, ◌*◌, length, replicate};
ghost use Rattle.open_net_laws.specs.Arguments.{AreNumbers};
ghost use Rattle.open_net_laws.specs.Numbers.{places_from, with_numbers};

use net_build::Net;

/// Puts these numbers into every third node from `first` on.
pub(crate) fn exchange(net: &mut Net, first: u32, values: &[u64])
    requires { first + 3 * length values.now < 2 ^ 32 }
    ensures net { net.new ≡ with_numbers net.old (places_from first (length values.now)) values.now }
    ensures numbers { AreNumbers values.now }
{
    if let [value, rest @ ..] = values {
        net.set_number(first, *value);
        exchange(net, first + 3, rest);
    }
}

/// Puts 0 into every third node from `first` on, so many times.
pub(crate) fn clear(net: &mut Net, first: u32, count: u32)
    requires { first + 3 * count < 2 ^ 32 }
    ensures { net.new ≡ with_numbers net.old (places_from first count) (replicate count 0) }
{
    if count > 0 {
        net.set_number(first, 0);
        clear(net, first + 3, count - 1);
    }
}
