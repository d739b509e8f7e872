//! What is printed of a circuit.

/// What is printed of the circuit of a text's program: one of these. A function has the first alone.
#[derive(Clone, Copy)]
pub enum Verilog {
    /// The circuit itself, as a module.
    Circuit {
        /// How many cells it has; from 1 to `MOST_CELLS`.
        cells: u32,
        /// How many forks can be open at once; from 1 to `MOST_FORKS`.
        forks: u32,
        /// Whether a second module follows, by which it is called more than once.
        handshake: bool,
    },
    /// What a run of the module answers, by what its Verilog means.
    Run {
        /// How many cells it has; from 1 to `MOST_CELLS`.
        cells: u32,
        /// How many forks can be open at once; from 1 to `MOST_FORKS`.
        forks: u32,
        /// The most cycles; from 1 to `pcf_values::limits::BUDGET`.
        budget: u32,
    },
    /// What its registers hold in that run, cycle by cycle.
    Waves {
        /// How many cells it has; from 1 to `MOST_CELLS`.
        cells: u32,
        /// How many forks can be open at once; from 1 to `MOST_FORKS`.
        forks: u32,
        /// The most cycles; from 1 to `pcf_values::limits::BUDGET`.
        budget: u32,
    },
    /// A bench that holds the circuit against the program's value and its moves.
    Bench {
        /// The most moves; from 1 to `pcf_values::limits::BUDGET`.
        budget: u32,
    },
    /// What a run of the program comes to, and how many cells, forks and cycles the circuit needs for it.
    Needs {
        /// The most moves; from 1 to `pcf_values::limits::BUDGET`.
        budget: u32,
    },
    /// The schedule of a run in which the newest question moves first, as in the circuit.
    Schedule {
        /// The most moves; from 1 to `pcf_values::limits::BUDGET`.
        budget: u32,
    },
}
