//! The parts of the second module's text that are the same for all circuits.

ghost use Rattle.std.specs.Prelude.{◌≡◌};
ghost use Rattle.circuit_calls.specs.CallText.{call_head, call_begin, call_more, call_notes, call_reset, call_last};

/// What stands in front of the second module's name.
pub(crate) fn head() -> &'static [u8]
    ensures { result.now ≡ call_head }
{
    b"// goi call 1: a module that calls a circuit as often as it is asked to, one call at a time.
// verilator lint_save
// verilator lint_off DECLFILENAME
`default_nettype none
module "
}

/// The end of its name, and the first ports.
pub(crate) fn begin() -> &'static [u8]
    ensures { result.now ≡ call_begin }
{
    b"_call (
  input wire clk,
  input wire rst,
  input wire start,
  output wire ready"
}

/// The other ports.
pub(crate) fn more() -> &'static [u8]
    ensures { result.now ≡ call_more }
{
    b",
  output wire valid,
  input wire taken,
  output wire [64:0] result,
  output wire full,
  output wire [63:0] moves
);
"
}

/// What is said of the ports, the register, and what is told by it.
pub(crate) fn notes() -> &'static [u8]
    ensures { result.now ≡ call_notes }
{
    b"  // clk: every register changes at its rising edges. rst: high at a rising edge, where a call that runs is dropped.
  // start, ready: where both are high at a rising edge with rst low, a call begins.
  // valid: the call has ended. It stays high, and result, full and moves stay as they are, until they are taken.
  // taken: where it is high at a rising edge with valid high, they are taken, and from then on the next call can begin.
  // result: the value, where full is low; bit 64 says overflow. full: the call has ended without a value, since the cells or
  // the forks were too few. moves: the moves of the call so far.

  // Whether a call has begun that isn't taken yet. While there is none the circuit is reset at each edge: so a call begins with
  // the arguments as they are at its first edge, and nothing is left of the call before.
  reg busy;
  wire done;
  assign ready = !busy;
  assign valid = busy && (done || full);

  "
}

/// The instance of the circuit, behind the circuit's name.
pub(crate) fn reset() -> &'static [u8]
    ensures { result.now ≡ call_reset }
{
    b" circuit (
    .clk(clk),
    .rst(rst || (!busy))"
}

/// Its end, the block of the clock, and the end of the module.
pub(crate) fn last() -> &'static [u8]
    ensures { result.now ≡ call_last }
{
    b",
    .done(done),
    .result(result),
    .full(full),
    .moves(moves)
  );

  always @(posedge clk) begin
    if (rst || (valid && taken)) begin
      busy <= 0;
    end else begin
      if (!busy) begin
        busy <= start;
      end
    end
  end
endmodule
`default_nettype wire
// verilator lint_restore
"
}
