//! A low term with more nodes than a listing can hold, read back from its net.

ghost use Rattle.std.specs.Prelude.{◌≡◌, ◌≤◌, ◌+◌, ◌*◌, [], IfOk};
ghost use Rattle.pcf_values.specs.Terms.{nat, size, height};
ghost use Rattle.pcf_values.specs.Typing.{HasType};
ghost use Rattle.pcf_values.specs.Views.{term_of};

use crate::nets::is_read_back;
use net_build::{Net, build, law_net_size};
use pcf_values::{Operator, Term, Ty, Typed};
use std::alloc::{AllocError, Global};
use std::test::Fail;

/// The sum of a term and itself.
fn doubled(alloc: Global, term: Term) -> Result<Term, AllocError>
    requires { HasType [] (term_of term) nat }
    ensures typed { IfOk result (λ t. HasType [] (term_of t) nat) }
    ensures small { IfOk result (λ t. size (term_of t) ≤ 2 * size (term_of term) + 1) }
    ensures low { IfOk result (λ t. height (term_of t) ≤ height (term_of term) + 1) }
{
    let left = Box::new(alloc, term)?;
    let right = Box::new(alloc, left.copy(alloc)?)?;
    Ok(Term::Binary(Operator::Plus, left, right))
}

/// The same four times.
fn sixteenfold(alloc: Global, term: Term) -> Result<Term, AllocError>
    requires { HasType [] (term_of term) nat }
    ensures typed { IfOk result (λ t. HasType [] (term_of t) nat) }
    ensures small { IfOk result (λ t. size (term_of t) ≤ 16 * size (term_of term) + 15) }
    ensures low { IfOk result (λ t. height (term_of t) ≤ height (term_of term) + 4) }
{
    let term = doubled(alloc, term)?;
    let term = doubled(alloc, term)?;
    let term = doubled(alloc, term)?;
    doubled(alloc, term)
}

/// A sum of 2^19 zeros, with a height of 20.
fn wide(alloc: Global) -> Result<Term, AllocError>
    ensures typed { IfOk result (λ t. HasType [] (term_of t) nat) }
    ensures small { IfOk result (λ t. size (term_of t) ≤ 1048575) }
    ensures low { IfOk result (λ t. height (term_of t) ≤ 20) }
{
    let term = sixteenfold(alloc, Term::Number(0))?;
    let term = sixteenfold(alloc, term)?;
    let term = sixteenfold(alloc, term)?;
    let term = sixteenfold(alloc, term)?;
    let term = doubled(alloc, term)?;
    let term = doubled(alloc, term)?;
    doubled(alloc, term)
}

/// Its net.
fn wide_net(alloc: Global) -> Result<Net, AllocError> {
    law_net_size();
    let term = wide(alloc)?;
    let program = Typed::of(term, Ty::Nat);
    build(alloc, &program)
}

#[test]
fn a_large_low_term_is_read_back(rt: HostRuntime) -> Result<(), Fail> {
    let net = wide_net(rt.alloc())?;
    assert!(rt; net.node_count() == 1_048_576);
    assert!(rt; is_read_back(rt.alloc(), &net));
    Ok(())
}
