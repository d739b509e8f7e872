//! The parts of a bench's text that are the same for all circuits.

ghost use Rattle.std.specs.Prelude.{◌≡◌};
ghost use Rattle.circuit_calls.specs.BenchText.{bench_head, bench_begin, bench_between, bench_wires, bench_circuit};
ghost use Rattle.circuit_calls.specs.BenchText.{bench_loop, bench_told, bench_last};

/// What stands in front of the bench's name.
pub(crate) fn head() -> &'static [u8]
    ensures { result.now ≡ bench_head }
{
    b"// goi bench 1: a bench that runs a circuit once, and says whether it answers what the machine does.
// verilator lint_save
// verilator lint_off DECLFILENAME
`default_nettype none
module "
}

/// The end of its name, up to the value.
pub(crate) fn begin() -> &'static [u8]
    ensures { result.now ≡ bench_begin }
{
    b"_bench;
  // The value of the program, where bit 64 says overflow, and the moves of its run.
  localparam [64:0] RESULT = 65'd"
}

/// What is between the value and the moves.
pub(crate) fn between() -> &'static [u8]
    ensures { result.now ≡ bench_between }
{
    b";
  localparam [63:0] MOVES = 64'd"
}

/// What the circuit has, up to its name.
pub(crate) fn wires() -> &'static [u8]
    ensures { result.now ≡ bench_wires }
{
    b";

  reg clk;
  reg rst;
  wire done;
  wire [64:0] result;
  wire full;
  wire [63:0] moves;
  reg [63:0] cycles;

  "
}

/// The instance of the circuit, behind its name.
pub(crate) fn circuit() -> &'static [u8]
    ensures { result.now ≡ bench_circuit }
{
    b" circuit (
    .clk(clk),
    .rst(rst),
    .done(done),
    .result(result),
    .full(full),
    .moves(moves)
  );

"
}

/// The run.
pub(crate) fn run() -> &'static [u8]
    ensures { result.now ≡ bench_loop }
{
    b"  // One edge with rst high, and then edges with rst low until the circuit has ended, or there were 133 for each move and for
  // one more. The outputs are looked at between the edges. Where the bench has failed, $fatal tells whoever runs it.
  initial begin
    clk = 0;
    rst = 1;
    cycles = 0;
    #5 clk = 1;
    #5 clk = 0;
    rst = 0;
    while (done === 0 && full === 0 && cycles < 133 * (MOVES + 1)) begin
      #5 clk = 1;
      #5 clk = 0;
      cycles = cycles + 1;
    end
"
}

/// What is compared and told.
pub(crate) fn told() -> &'static [u8]
    ensures { result.now ≡ bench_told }
{
    b"    if (done === 1 && full === 0 && result === RESULT && moves === MOVES) begin
      $display(\"passed\");
      $finish;
    end else begin
      $display(\"failed: done %b, full %b, result %0d, moves %0d after %0d cycles; wanted 1, 0, %0d, %0d\",
"
}

/// The rest.
pub(crate) fn last() -> &'static [u8]
    ensures { result.now ≡ bench_last }
{
    b"        done, full, result, moves, cycles, RESULT, MOVES);
      $fatal(0);
    end
  end
endmodule
`default_nettype wire
// verilator lint_restore
"
}
