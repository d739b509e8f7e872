//! Nets of the highest terms, which are built and read back, and calls on nets that no program has.

ghost use Rattle.std.specs.Prelude.{◌≡◌, ◌≤◌, ◌+◌, ◌*◌, [], IfOk};
ghost use Rattle.pcf_values.specs.Terms.{nat, var, lam, app, size, height};
ghost use Rattle.pcf_values.specs.Typing.{HasType};
ghost use Rattle.pcf_values.specs.Views.{term_of};

use crate::texts::{net, net_over};
use net_build::{Net, Wire, WireKind, build, law_net_size};
use net_text::{NetTextFault, term_of};
use pcf_values::{Term, Ty, Typed};
use std::alloc::{AllocError, Global};
use std::test::Fail;

/// How many times the identity is applied, so that the term is higher than that of any program.
const HIGH: u32 = 2600;

/// How many times, so that the term is of the greatest height that is read back.
const TIMES: u32 = 2598;

/// The identity applied to a term.
fn applied(alloc: Global, argument: Term) -> Result<Term, AllocError>
    ensures { IfOk result (λ t. term_of t ≡ app (lam nat (var 0)) (term_of argument)) }
{
    let argument = Box::new(alloc, argument)?;
    let body = Box::new(alloc, Term::Var(0))?;
    Ok(Term::App(Box::new(alloc, Term::Fun(Ty::Nat, body))?, argument))
}

/// The identity applied so many times to 0.
fn tower(alloc: Global, times: u32) -> Result<Term, AllocError>
    ensures typed { IfOk result (λ t. HasType [] (term_of t) nat) }
    ensures small { IfOk result (λ t. size (term_of t) ≤ 4 * times + 1) }
    ensures low { IfOk result (λ t. height (term_of t) ≤ times + 2) }
{
    let mut term = Term::Number(0);
    for _n in 0..times {
        term = applied(alloc, term)?;
    }
    Ok(term)
}

/// The net of a tower.
fn high_net(alloc: Global, times: u32) -> Result<Net, AllocError>
    requires { times ≤ 2600 }
{
    law_net_size();
    let term = tower(alloc, times)?;
    let program = Typed::of(term, Ty::Nat);
    build(alloc, &program)
}

#[test]
fn a_high_term_is_built(rt: HostRuntime) -> Result<(), Fail> {
    let net = high_net(rt.alloc(), HIGH)?;
    assert!(rt; net.node_count() == 4 * HIGH + 2);
    assert!(rt; net.wire_count() == 5 * HIGH + 1);
    let copy = net.copy(rt.alloc())?;
    assert!(rt; net.same(&copy));
    Ok(())
}

/// Whether a net is read back as a term.
pub(crate) fn is_read_back(alloc: Global, net: &Net) -> bool {
    term_of(alloc, net).is_ok()
}

#[test]
fn a_high_term_is_read_back(rt: HostRuntime) -> Result<(), Fail> {
    let net = high_net(rt.alloc(), TIMES)?;
    assert!(rt; is_read_back(rt.alloc(), &net));
    Ok(())
}

/// Whether a net is refused as none of a term.
fn is_no_term(alloc: Global, net: &Net) -> bool {
    matches!(&term_of(alloc, net), Err(NetTextFault::NotOfTerm))
}

#[test]
fn a_higher_term_is_not(rt: HostRuntime) -> Result<(), Fail> {
    let net = high_net(rt.alloc(), TIMES + 1)?;
    assert!(rt; is_no_term(rt.alloc(), &net));
    Ok(())
}

#[test]
fn nodes_out_of_order_are_no_term(rt: HostRuntime) -> Result<(), Fail> {
    // the root stands before the constant
    let net = net(rt.alloc(), 1, "Root 0;Const 5 0")?;
    assert!(rt; is_no_term(rt.alloc(), &net));
    Ok(())
}

/// A net of one wire, as deep as can be, whose nodes name wires that it lacks.
fn lacking(alloc: Global) -> Result<Net, AllocError> {
    let wire = Wire {
        kind: WireKind::Value,
        depth: u32::MAX,
        ty: Ty::Nat,
    };
    let wires = Vec::from_array(alloc, [wire])?;
    net_over(alloc, wires, "Root 9;Const 5 0;Plus 0 0 9;Const 6 0;Root 0")
}

/// Whether the first nodes at each wire of that net are found, and nothing where it has nothing.
fn is_searched(net: &Net) -> bool {
    net.above(0) == Some(1)
        && net.below(0) == Some(2)
        && net.above(9).is_none()
        && net.below(9).is_none()
        && net.wire(1).is_none()
        && net.node(5).is_none()
}

#[test]
fn nodes_may_name_wires_that_lack(rt: HostRuntime) -> Result<(), Fail> {
    let net = lacking(rt.alloc())?;
    assert!(rt; is_searched(&net));
    Ok(())
}
