//! Values of programs and their arithmetic.

ghost use Rattle.std.specs.Prelude.{◌≡◌};
ghost use Rattle.pcf_values.specs.Values.{val_succ, val_pred, val_op};
ghost use Rattle.pcf_values.specs.declared.operator.Operator.TheVariants.{Plus, Minus, Times};
ghost use Rattle.pcf_values.specs.declared.val.Val.TheVariants.{Number};

use crate::Operator;

/// A number below 2^64, or what lies past all of them. An operation with an operand that overflowed overflows.
#[derive(Clone, Copy, Debug, PartialEq, Eq)]
pub enum Val {
    /// A number from 0 to 18446744073709551615.
    Number(u64),
    /// A result that no number of 64 bits can hold.
    Overflow,
}

impl Val {
    /// The next number, or `Overflow` past the last one.
    pub fn succ(self) -> Val
        ensures { result ≡ val_succ self }
    {
        match self {
            Val::Number(n) if n < u64::MAX => Val::Number(n + 1),
            _ => Val::Overflow,
        }
    }

    /// The number before, and 0 at 0.
    pub fn pred(self) -> Val
        ensures { result ≡ val_pred self }
    {
        match self {
            Val::Number(n) => Val::Number(n.saturating_sub(1)),
            Val::Overflow => Val::Overflow,
        }
    }

    /// What the operator comes to, this value being the left operand. A sum or a product past the last number is `Overflow`, a
    /// difference below 0 is 0, and with an operand that overflowed all three are `Overflow`.
    pub fn by(self, operator: Operator, other: Val) -> Val
        ensures { result ≡ val_op operator self other }
    {
        match (self, other) {
            (Val::Number(a), Val::Number(b)) => on_numbers(operator, a, b),
            _ => Val::Overflow,
        }
    }

    /// The sum, or `Overflow` past the last number.
    pub fn plus(self, other: Val) -> Val
        ensures { result ≡ val_op Plus self other }
    {
        self.by(Operator::Plus, other)
    }

    /// The difference, and 0 where `other` is the greater number.
    pub fn minus(self, other: Val) -> Val
        ensures { result ≡ val_op Minus self other }
    {
        self.by(Operator::Minus, other)
    }

    /// The product, or `Overflow` past the last number; `Overflow` also for 0 times `Overflow`.
    pub fn times(self, other: Val) -> Val
        ensures { result ≡ val_op Times self other }
    {
        self.by(Operator::Times, other)
    }
}

/// What the operator comes to on two numbers.
fn on_numbers(operator: Operator, a: u64, b: u64) -> Val
    ensures { result ≡ val_op operator (Number a) (Number b) }
{
    match operator {
        Operator::Plus => match a.checked_add(b) {
            Some(sum) => Val::Number(sum),
            None => Val::Overflow,
        },
        Operator::Minus => Val::Number(a.saturating_sub(b)),
        Operator::Times => match a.checked_mul(b) {
            Some(product) => Val::Number(product),
            None => Val::Overflow,
        },
    }
}
