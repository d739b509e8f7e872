//! Live tokens.

ghost use Rattle.std.specs.Prelude.{[], ◌≡◌, ◌<◌, ℕ, false, Some, None, OnOk, OnErr, IfOk, IsSome};
ghost use Rattle.std.specs.Option.{option_map, option_copied, MatchOption};
ghost use Rattle.std.specs.Ordering.{nat_cmp};
ghost use Rattle.std.specs.BTreeMap as tree;
ghost use Rattle.std.specs.FinMap.{empty, get, insert, remove, len};
ghost use Rattle.token_stacks.specs.Signatures.{Boxes};
ghost use Rattle.token_stacks.specs.Loads.{load};
ghost use Rattle.move_rules.specs.Moves.{move};
ghost use Rattle.move_rules.specs.AtNode.{NotSolo, Unaided};
ghost use Rattle.move_rules.specs.Views.{place_at, of_kind, token_of};
ghost use Rattle.move_rules.specs.Walks.{SoloStep};
ghost use Rattle.interleave_core.specs.Forking.{HasBoxes};
ghost use Rattle.interleave_core.specs.Moving.{ChangesIn, Changes, SoloAt, UnaidedIn, UnaidedAt, Sent, MakesSome, GoesOn};

use move_rules::{Kind, Token, solo_step};
use net_build::Net;
use std::alloc::{AllocError, Global};
use std::collections::BTreeMap;
use std::marker::Model;
use std::ops::Bound;

/// The code's map of live tokens.
type Tokens = BTreeMap<u32, Token>;

/// The live tokens of a state, seen as a finite map from tickets to tokens.
#[derive(Drop)]
pub(crate) struct LiveTokens {
    tokens: Tokens,
}

impl Model for LiveTokens {
    ghost use Rattle.std.specs.Ordering.{nat_cmp};
    ghost use Rattle.std.specs.Coded.{coded_ℕ};
    ghost use Rattle.std.specs.FinMap.{FinMap, code};
    ghost use Rattle.move_rules.specs.Places.{TokenTree};
    ghost use Rattle.move_rules.specs.Codes.{token_code};
    ghost use Rattle.interleave_core.specs.LiveMap.{live_of};

    ghost Value = { FinMap nat_cmp TokenTree };

    ghost coded = { code coded_ℕ token_code };

    ghost view = { λ a. live_of a.tokens };
}

/// Gives the ticket this token.
fn put_in(tokens: &mut Tokens, ticket: u32, token: Token) -> Result<(), AllocError>
    ensures ok { OnOk result (tree.Updates nat_cmp tokens.old tokens.new ticket (Some token)) }
    ensures err { OnErr result (tree.IsUnchanged tokens.old tokens.new) }
{
    tokens.insert(ticket, token)?;
    Ok(())
}

/// Takes the ticket's token out, if it has one.
fn take_from(tokens: &mut Tokens, ticket: u32) -> Option<Token>
    ensures took { result ≡ tree.get nat_cmp tokens.old ticket }
    ensures rest { tree.Updates nat_cmp tokens.old tokens.new ticket None }
{
    tokens.remove(&ticket)
}

/// The ticket's token, if it has one.
fn look_in(tokens: &Tokens, ticket: u32) -> Option<&Token>
    ensures { option_copied result ≡ tree.get nat_cmp tokens.now ticket }
{
    tokens.get(&ticket)
}

/// Puts a token in the place of the one that is there.
fn replace_in(tokens: &mut Tokens, ticket: u32, token: Token)
    requires { IsSome (tree.get nat_cmp tokens.old ticket) }
    ensures { tree.Updates nat_cmp tokens.old tokens.new ticket (Some token) }
{
    match tokens.get_mut(&ticket) {
        Some(place) => *place = token,
        None => unreachable!(),
    }
}

/// The least ticket that has a token.
fn least_in(tokens: &Tokens) -> Option<u32>
    ensures { MatchOption result ((q : ℕ) → tree.get nat_cmp tokens.now q ≡ None) (λ i. IsSome (tree.get nat_cmp tokens.now i) ×
        ((q : ℕ) → q < i → tree.get nat_cmp tokens.now q ≡ None)) }
{
    match tokens.first_key_value() {
        Some((ticket, _)) => Some(*ticket),
        None => None,
    }
}

/// The greatest ticket that has a token.
fn newest_in(tokens: &Tokens) -> Option<u32>
    ensures { MatchOption result ((q : ℕ) → tree.get nat_cmp tokens.now q ≡ None) (λ i. IsSome (tree.get nat_cmp tokens.now i) ×
        ((q : ℕ) → i < q → tree.get nat_cmp tokens.now q ≡ None)) }
{
    match tokens.last_key_value() {
        Some((ticket, _)) => Some(*ticket),
        None => None,
    }
}

/// The least ticket above this one that has a token.
fn next_in(tokens: &Tokens, after: u32) -> Option<u32>
    ensures { MatchOption result ((q : ℕ) → after < q → tree.get nat_cmp tokens.now q ≡ None) (λ i. (after < i) ×
        IsSome (tree.get nat_cmp tokens.now i) × ((q : ℕ) → after < q → q < i → tree.get nat_cmp tokens.now q ≡ None)) }
{
    match tokens
        .range((Bound::Excluded(after), Bound::Unbounded))
        .next()
    {
        Some((ticket, _)) => Some(*ticket),
        None => None,
    }
}

/// The next move of a ticket's token in its place, if it is a solo move.
fn solo_in(net: &Net, tokens: &mut Tokens, ticket: u32) -> Result<bool, AllocError>
    requires { IsSome (tree.get nat_cmp tokens.old ticket) }
    ensures ok { IfOk result (λ made. ChangesIn (SoloStep net.now made) tokens.old ticket tokens.new) }
    ensures err { OnErr result ((q : ℕ) → tree.get nat_cmp tokens.new q ≡ tree.get nat_cmp tokens.old q) }
    ensures unaided { OnErr result (UnaidedIn net.now tokens.old ticket) }
{
    match tokens.get_mut(&ticket) {
        Some(token) => solo_step(net, token),
        None => unreachable!(),
    }
}

/// A token's solo moves in its place, at most so many, until the next move is no solo move; how many they are. After want of memory some of
/// them are made.
fn moves_of(net: &Net, token: &mut Token, most: u32) -> Result<u32, AllocError>
    ensures ok { IfOk result (λ n. GoesOn net.now most n token.old token.new) }
    ensures err { OnErr result (MakesSome net.now token.old token.new) }
{
    let mut made = 0;
    while made < most {
        if !solo_step(net, token)? {
            break;
        }
        made += 1;
    }
    Ok(made)
}

/// The solo moves of a ticket's token in its place, as many as `moves_of` makes.
fn go_in(net: &Net, tokens: &mut Tokens, ticket: u32, most: u32) -> Result<u32, AllocError>
    requires { IsSome (tree.get nat_cmp tokens.old ticket) }
    ensures ok { IfOk result (λ n. ChangesIn (GoesOn net.now most n) tokens.old ticket tokens.new) }
    ensures err { OnErr result (ChangesIn (MakesSome net.now) tokens.old ticket tokens.new) }
{
    match tokens.get_mut(&ticket) {
        Some(token) => moves_of(net, token, most),
        None => unreachable!(),
    }
}

/// The token of a ticket goes to a wire, up or down, as a question or an answer.
fn send_in(tokens: &mut Tokens, ticket: u32, wire: u32, up: bool, kind: Kind)
    requires { IsSome (tree.get nat_cmp tokens.old ticket) }
    ensures { ChangesIn (Sent wire up kind) tokens.old ticket tokens.new }
{
    match tokens.get_mut(&ticket) {
        Some(token) => {
            token.wire = wire;
            token.up = up;
            token.kind = kind;
        }
        None => unreachable!(),
    }
}

impl LiveTokens {
    /// No tokens. Takes no memory.
    pub(crate) fn new(alloc: Global) -> LiveTokens
        ensures { result ≡ empty }
    {
        LiveTokens {
            tokens: BTreeMap::new(alloc),
        }
    }

    /// The token of a ticket. Takes no memory.
    pub(crate) fn get(&self, ticket: u32) -> Option<&Token>
        ensures { option_map token_of (option_copied result) ≡ get self.now ticket }
    {
        look_in(&self.tokens, ticket)
    }

    /// How many tickets have a token. Takes no memory.
    pub(crate) fn count(&self) -> usize
        ensures { result ≡ len self.now }
    {
        self.tokens.len()
    }

    /// Gives a ticket its token. After want of memory all is as before.
    pub(crate) fn put(&mut self, ticket: u32, token: Token) -> Result<(), AllocError>
        ensures ok { OnOk result (self.new ≡ insert self.old ticket (token_of token)) }
        ensures err { OnErr result (self.new ≡ self.old) }
    {
        put_in(&mut self.tokens, ticket, token)
    }

    /// Ends a ticket, and hands its token out. Takes no memory.
    pub(crate) fn take(&mut self, ticket: u32) -> Option<Token>
        ensures took { option_map token_of result ≡ get self.old ticket }
        ensures rest { self.new ≡ remove self.old ticket }
    {
        take_from(&mut self.tokens, ticket)
    }

    /// Puts a token in the place of the one that the ticket has. Takes no memory.
    pub(crate) fn replace(&mut self, ticket: u32, token: Token)
        requires { IsSome (get self.old ticket) }
        ensures { self.new ≡ insert self.old ticket (token_of token) }
    {
        replace_in(&mut self.tokens, ticket, token)
    }

    /// The least ticket that has a token, and `None` exactly where there is none. Takes no memory.
    pub(crate) fn least(&self) -> Option<u32>
        ensures { MatchOption result ((q : ℕ) → get self.now q ≡ None) (λ i. IsSome (get self.now i) ×
            ((q : ℕ) → q < i → get self.now q ≡ None)) }
    {
        least_in(&self.tokens)
    }

    /// The greatest ticket that has a token, and `None` exactly where there is none. Takes no memory.
    pub(crate) fn newest(&self) -> Option<u32>
        ensures { MatchOption result ((q : ℕ) → get self.now q ≡ None) (λ i. IsSome (get self.now i) ×
            ((q : ℕ) → i < q → get self.now q ≡ None)) }
    {
        newest_in(&self.tokens)
    }

    /// The least ticket above this one that has a token, and `None` exactly where there is none. Takes no memory.
    pub(crate) fn next(&self, after: u32) -> Option<u32>
        ensures { MatchOption result ((q : ℕ) → after < q → get self.now q ≡ None) (λ i. (after < i) × IsSome (get self.now i) ×
            ((q : ℕ) → after < q → q < i → get self.now q ≡ None)) }
    {
        next_in(&self.tokens, after)
    }

    /// Makes the ticket's next move on this net in place, if it is a solo move. After want of memory all is as before; a fork, a join and
    /// the answer take none.
    pub(crate) fn solo(&mut self, net: &Net, ticket: u32) -> Result<bool, AllocError>
        requires { IsSome (get self.old ticket) }
        ensures ok { IfOk result (λ made. SoloAt net.now self.old ticket made self.new) }
        ensures err { OnErr result (self.new ≡ self.old) }
        ensures unaided { OnErr result (UnaidedAt net.now self.old ticket) }
    {
        solo_in(net, &mut self.tokens, ticket)
    }

    /// Makes the ticket's solo moves on this net in place, at most so many, until the next is no solo move; how many they are. Where
    /// memory runs out some of them are made.
    pub(crate) fn go(&mut self, net: &Net, ticket: u32, most: u32) -> Result<u32, AllocError>
        requires { IsSome (get self.old ticket) }
        ensures ok { IfOk result (λ n. Changes (GoesOn net.now most n) self.old ticket self.new) }
        ensures err { OnErr result (Changes (MakesSome net.now) self.old ticket self.new) }
    {
        go_in(net, &mut self.tokens, ticket, most)
    }

    /// The token of a ticket, whose work stack is empty, goes to a wire, up or down, as a question or an answer; its box stack stays.
    /// Takes no memory.
    pub(crate) fn send(&mut self, ticket: u32, wire: u32, up: bool, kind: Kind)
        requires { IsSome (get self.old ticket) }
        ensures { (t : Boxes) → HasBoxes self.old ticket t →
            self.new ≡ insert self.old ticket (of_kind kind (place_at wire up (load [] t))) }
    {
        send_in(&mut self.tokens, ticket, wire, up, kind)
    }
}
