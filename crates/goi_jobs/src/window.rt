//! The part of a trace that is printed.

/// Which part of a trace is printed, or of the steps of a reduction.
#[derive(Clone, Copy)]
pub struct Window {
    /// The entry of the schedule, or the step, with which it begins, counted from 0; at most `pcf_values::limits::SCHEDULE_MOVES`.
    pub from: u32,
    /// The most moves or steps that it has; from 1 to `TRACED_MOVES`, and of a reduction to `TOLD_STEPS`.
    pub most: u32,
}
