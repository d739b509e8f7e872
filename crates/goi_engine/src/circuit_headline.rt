//! The headline of a circuit.

ghost use Rattle.goi_engine.specs.CircuitHeadline.{CircuitHeadline};

/// What `goi circuit FILE` comes to, as one sentence that follows from the promise of `goi`: status 0 with lines of comment and the text of
/// a module, which is full or shows what the text's function means, at all arguments, whatever it held before the reset, whatever is at its
/// ports later, and after every number of edges; 1 where the text is no function of numbers; nothing else but want of memory where nothing
/// fails.
pub fn law_circuit_headline()
    ensures { CircuitHeadline }
{}
