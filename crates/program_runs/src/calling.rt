//! By name or by value.

ghost use Rattle.std.specs.Prelude.{◌≡◌};
ghost use Rattle.program_runs.specs.Programs.{calling_of};

/// How a program hands over arguments.
#[derive(Clone, Copy)]
pub enum Calling {
    /// As they stand.
    ByName,
    /// As their values.
    ByValue,
}

/// By value where that is asked for, and else by name.
pub fn calling_of(by_value: bool) -> Calling
    ensures { result ≡ calling_of by_value }
{
    if by_value {
        Calling::ByValue
    } else {
        Calling::ByName
    }
}
