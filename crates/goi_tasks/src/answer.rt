//! What a run came to, as numbers.

ghost use Rattle.goi_tasks.specs.Numbers.{AnswerIs};

use pcf_values::Val;

/// What a run came to.
#[repr(C)]
#[derive(Drop)]
pub struct Answer {
    /// The value, where it is a number, and else 0.
    pub value: u64,
    /// The moves that were made.
    pub moves: u32,
    /// 0 where there is no value, 1 where it is a number, and 2 where it is an overflow.
    pub kind: u32,
}

/// No answer: all its numbers are 0.
pub fn no_answer() -> Answer
    ensures { AnswerIs None 0 result }
{
    Answer {
        value: 0,
        moves: 0,
        kind: 0,
    }
}

/// The answer in numbers.
pub fn answer_of(value: Option<Val>, moves: u32) -> Answer
    ensures { AnswerIs value moves result }
{
    match value {
        None => Answer {
            value: 0,
            moves,
            kind: 0,
        },
        Some(Val::Number(n)) => Answer {
            value: n,
            moves,
            kind: 1,
        },
        Some(Val::Overflow) => Answer {
            value: 0,
            moves,
            kind: 2,
        },
    }
}
