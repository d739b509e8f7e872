//! The numbers of a net, and those that its ports stand for.

ghost use Rattle.std.specs.Prelude.{◌≡◌, ◌+◌, ◌<◌, ◌^◌, length};
ghost use Rattle.pcf_values.specs.declared.val.Val.TheVariants.{Number};
ghost use Rattle.joined_rows.specs.Open.{known};
ghost use Rattle.joined_table.specs.Views.{amount_view};
ghost use Rattle.joined_check.specs.Parts.{number_or, port_given, port_place};

use joined_table::Amount;

/// The place of a node among the ports, counted from a number on.
fn place(ports: &[u32], node: u32, from: u32) -> Option<u32>
    requires { length ports.now + from < 2 ^ 32 }
    ensures { result ≡ port_place ports.now node from }
{
    match ports {
        [] => None,
        [port, rest @ ..] => {
            if *port == node {
                Some(from)
            } else {
                place(rest, node, from + 1)
            }
        }
    }
}

/// The number of a node, or of the port that it is.
pub(crate) fn constant(ports: &[u32], node: u32, value: u64) -> Amount
    requires { length ports.now < 2 ^ 32 }
    ensures { amount_view result ≡ known (Number (number_or (port_given ports.now node) value)) }
{
    match place(ports, node, 0) {
        Some(port) => Amount::Port(port),
        None => Amount::Number(value),
    }
}
