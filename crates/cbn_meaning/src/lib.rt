//! The call-by-name meaning of terms: what a program computes, said without any machine.
//!
//! Its main definitions are `eval` and `Means` of `specs/Meaning.antt`, a recursion by substitution with a bound on its depth. No
//! program runs them: they are what a machine's answer is compared with. Each function here carries one law of theirs as its
//! contract. The statements stand in `specs/Laws.antt`. That a machine computes this meaning is left to the crate that joins both.
#![tactic(auto)]

ghost use Rattle.cbn_meaning.specs.Laws.{MoreDepth, OneValue, HeadStep, DerivedEvaluates, EvaluatesDerived, OneDerivation, HeadStepDerived};
ghost use Rattle.cbn_meaning.specs.Laws.{ResultKeepsType, HeadStepKeepsType, SubstKeepsType};

/// More depth keeps a result.
pub fn law_more_depth()
    ensures { MoreDepth }
{}

/// A term has one value at most.
pub fn law_one_value()
    ensures { OneValue }
{}

/// A term means what it means after a step at its head: of a `fun` that is applied, of a `fix`, or of a part that is taken of a pair.
pub fn law_head_step()
    ensures { HeadStep }
{}

/// Derivations and evaluation give the same results, and a term has one derivation at most.
pub fn law_derivations()
    ensures evaluates { DerivedEvaluates }
    ensures derived { EvaluatesDerived }
    ensures one { OneDerivation }
    // A step at the head makes the derivation smaller and keeps its result.
    ensures smaller { HeadStepDerived }
{}

/// What a closed term comes to has the term's type (Wright and Felleisen's subject reduction, for evaluation and for head steps).
pub fn law_keeps_type()
    ensures results { ResultKeepsType }
    ensures head_steps { HeadStepKeepsType }
    ensures substitution { SubstKeepsType }
{}
