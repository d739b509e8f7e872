//! A reader over the tokens of a text. It looks one token ahead, and copies nothing but names.

ghost use Rattle.std.specs.Prelude.{◌≡◌, ℕ, ◌+◌, ◌<◌, ◌≤◌, [], ◌∷◌, length, List, IfOk, OnOk, IfErr, Ok};
ghost use Rattle.std.specs.Prelude.{IsFalse, ◌==◌};
ghost use Rattle.std.specs.Char.{len_utf8};
ghost use Rattle.std.specs.Str.{chars};
ghost use Rattle.pcf_reader.specs.Machine.{State, step, go};
ghost use Rattle.pcf_reader.specs.Scan.{scan};
ghost use Rattle.pcf_reader.specs.Spelling.{sign_of, is_blank as is_blank_code};
ghost use Rattle.pcf_reader.specs.Lexing.{lex, idle, after_dash, in_number, in_word, on_sign};
ghost use Rattle.pcf_reader.specs.Rest.{taken, resume, behind, Gives};
ghost use Rattle.pcf_reader.specs.Seen.{token_of};
ghost use Rattle.pcf_reader.specs.Tokens.{End as end_token, Name as name_token};
ghost use Rattle.pcf_values.specs.Most.{most_nodes, most_open, most_program_bytes};

use crate::fault::ReadFault;
use crate::lexer::{
    behind_comment, is_blank, is_digit, keyword, sign, split_char, split_number, split_word,
    starts_name,
};
use crate::token::Token;
use pcf_values::limits::{OPEN_PHRASES, PROGRAM_NODES};
use pcf_values::{Ident, Operator};
use std::alloc::Global;
use std::marker::Model;

/// What is left of a text: its next token with its place and its spelling, and the text behind it.
#[derive(Drop)]
pub struct Reader<'a> {
    token: Token,
    at: u32,
    word: &'a str,
    rest: &'a str,
    end: u32,
    nodes: u32,
}

impl<'a> Model for Reader<'a> {
    ghost use Rattle.std.specs.Prelude.{◌+◌, ◌≤◌, length};
    ghost use Rattle.std.specs.Str.{chars};
    ghost use Rattle.pcf_values.specs.Most.{most_nodes, most_program_bytes};
    ghost use Rattle.pcf_reader.specs.Rest.{Rest, behind};
    ghost use Rattle.pcf_reader.specs.Seen.{token_of};
    ghost use Rattle.pcf_reader.specs.Lexing.{lex, idle};

    ghost Value = { Rest };

    ghost view = { λ r. record {
      at = r.at;
      here = token_of r.token r.word.now;
      after = behind (token_of r.token r.word.now) (lex (chars r.rest.now) r.end idle);
      nodes = r.nodes;
    } };

    ghost invariant = { λ r. (r.end + length r.rest.now ≤ most_program_bytes) × (r.nodes ≤ most_nodes) };
}

impl<'a> Reader<'a> {
    /// The next token.
    pub fn token(&self) -> Token
        ensures { (name : List ℕ) × (self.now.here ≡ token_of result name) }
    {
        self.token
    }

    /// Its place.
    pub fn at(&self) -> u32
        ensures { result ≡ self.now.at }
    {
        self.at
    }

    /// Counts nodes and goes on to the next token.
    ///
    /// # Errors
    ///
    /// `TooLarge` where the nodes are too many, and the fault of the next token where it is none.
    pub fn take(&mut self, count: u32) -> Result<(), ReadFault>
        requires end { self.old.here ≡ end_token → ⊥ }
        requires count { count ≤ 2 }
        ensures goes { (d : ℕ) (s : State) → d < most_open →
            Gives (λ _. resume (step s) self.new) (taken self.old (go d count s)) result }
        ensures shorter { OnOk result (length self.new.after < length self.old.after) }
    {
        let nodes = self.nodes + count;
        if nodes > PROGRAM_NODES {
            return Err(ReadFault::TooLarge(self.at));
        }
        *self = reader_at(self.rest, self.end, nodes)?;
        Ok(())
    }

    /// The same, for a name, which is answered.
    ///
    /// # Errors
    ///
    /// Those of `take`, and `NoMemory` where there is no memory for the name.
    pub fn take_name(&mut self, alloc: Global, count: u32) -> Result<Ident, ReadFault>
        requires name { (name : List ℕ) × (self.old.here ≡ name_token name) }
        requires count { count ≤ 2 }
        ensures name { IfOk result (λ x. self.old.here ≡ name_token x) }
        ensures goes { (d : ℕ) (s : State) → d < most_open →
            Gives (λ _. resume (step s) self.new) (taken self.old (go d count s)) result }
        ensures shorter { OnOk result (length self.new.after < length self.old.after) }
    {
        let name = Ident::from_text(alloc, self.word)?;
        self.take(count)?;
        Ok(name)
    }

    /// The same, for a token that stands at a depth: so many phrases are open there, or so high is what stands left of it.
    ///
    /// # Errors
    ///
    /// Those of `may_open` and of `take`, in this order.
    pub fn take_at(&mut self, depth: u32, count: u32) -> Result<(), ReadFault>
        requires end { self.old.here ≡ end_token → ⊥ }
        requires count { count ≤ 2 }
        ensures goes { (s : State) → Gives (λ _. resume (step s) self.new) (taken self.old (go depth count s)) result }
        ensures shorter { OnOk result (length self.new.after < length self.old.after) }
        ensures low { OnOk result (depth < most_open) }
    {
        may_open(self.at, depth)?;
        self.take(count)?;
        Ok(())
    }
}

/// That a token may stand at a place with this depth.
///
/// # Errors
///
/// `TooDeep` where the depth is the limit or above.
pub fn may_open(at: u32, depth: u32) -> Result<(), ReadFault>
    ensures ok { OnOk result (depth < most_open) }
    ensures deep { IfErr result (λ f. (f ≡ ReadFault.TooDeep at) × (most_open ≤ depth)) }
{
    if depth < OPEN_PHRASES {
        Ok(())
    } else {
        Err(ReadFault::TooDeep(at))
    }
}

/// A reader at this token.
fn reader_of<'a>(
    token: Token,
    at: u32,
    word: &'a str,
    rest: &'a str,
    end: u32,
    nodes: u32,
) -> Reader<'a>
    requires short { end + length rest.now ≤ most_program_bytes }
    requires few { nodes ≤ most_nodes }
    ensures { result ≡ record {
      at = at;
      here = token_of token word.now;
      after =
          behind (token_of token word.now) (lex (chars rest.now) end idle);
      nodes = nodes;
    } }
{
    Reader {
        token,
        at,
        word,
        rest,
        end,
        nodes,
    }
}

#[tactic(auto, using(crate::proofs::LexSteps::blank_more, crate::proofs::LexSteps::comment_first))]
/// A reader at the first token of a text that stands at a place, after so many nodes.
///
/// # Errors
///
/// The fault of that token, where it is none or too wide.
pub fn reader_at(text: &str, at: u32, nodes: u32) -> Result<Reader<'_>, ReadFault>
    requires short { at + length text.now ≤ most_program_bytes }
    requires few { nodes ≤ most_nodes }
    ensures goes { (s : State) → Gives (λ r. resume (step s) r) (scan (lex (chars text.now) at idle) s nodes) result }
    ensures shorter { IfOk result (λ r. length r.after < length (lex (chars text.now) at idle)) }
{
    let mut rest = text;
    let mut place = at;
    while let Some((first, more)) = split_char(rest) {
        if first == '#' {
            (rest, place) = behind_comment(more, place + 1);
        } else if is_blank(first) {
            place += first.len_utf8() as u32;
            rest = more;
        } else {
            return at_token(rest, first, more, place, nodes);
        }
    }
    Ok(reader_of(Token::End, place, rest, rest, place, nodes))
}

/// A reader at the token that begins with the first character.
fn at_token<'a>(
    text: &'a str,
    first: char,
    more: &'a str,
    at: u32,
    nodes: u32,
) -> Result<Reader<'a>, ReadFault>
    requires chars { chars text.now ≡ first ∷ chars more.now }
    requires length { length text.now ≡ len_utf8 first + length more.now }
    requires begins { IsFalse (is_blank_code first) × IsFalse (first == 35) }
    requires short { at + length text.now ≤ most_program_bytes }
    requires few { nodes ≤ most_nodes }
    ensures goes { (s : State) → Gives (λ r. resume (step s) r) (scan (lex (chars text.now) at idle) s nodes) result }
    ensures shorter { IfOk result (λ r. length r.after < length (lex (chars text.now) at idle)) }
{
    if first == '-' {
        Ok(at_dash(more, at, nodes))
    } else if is_digit(first) {
        at_number(text, at, nodes)
    } else if starts_name(first) {
        Ok(at_word(text, at, nodes))
    } else {
        at_sign(first, more, at, nodes)
    }
}

/// A reader at the sign that begins with a dash, where this text stands behind the dash.
fn at_dash(text: &str, at: u32, nodes: u32) -> Reader<'_>
    requires short { at + 1 + length text.now ≤ most_program_bytes }
    requires few { nodes ≤ most_nodes }
    ensures goes { (s : State) → scan (lex (chars text.now) (at + 1) (after_dash at)) s nodes ≡ resume (step s) result }
    ensures shorter { length result.after < length (lex (chars text.now) (at + 1) (after_dash at)) }
{
    match split_char(text) {
        Some((first, more)) => {
            if first == '>' {
                reader_of(Token::Arrow, at, text, more, at + 2, nodes)
            } else {
                reader_of(Token::Sign(Operator::Minus), at, text, text, at + 1, nodes)
            }
        }
        None => reader_of(Token::Sign(Operator::Minus), at, text, text, at + 1, nodes),
    }
}

/// A reader at the number that the text begins with.
fn at_number(text: &str, at: u32, nodes: u32) -> Result<Reader<'_>, ReadFault>
    requires short { at + length text.now ≤ most_program_bytes }
    requires few { nodes ≤ most_nodes }
    ensures goes { (s : State) → Gives (λ r. resume (step s) r) (scan (lex (chars text.now) at (in_number at 0)) s nodes) result }
    ensures shorter { IfOk result (λ r. length r.after < length (lex (chars text.now) at (in_number at 0))) }
{
    let (value, rest) = split_number(text);
    match u64::try_from(value) {
        Ok(number) => {
            let end = at + (text.len() - rest.len()) as u32;
            Ok(reader_of(Token::Number(number), at, text, rest, end, nodes))
        }
        Err(_) => Err(ReadFault::NumberTooWide(at)),
    }
}

/// A reader at the word that the text begins with.
fn at_word(text: &str, at: u32, nodes: u32) -> Reader<'_>
    requires short { at + length text.now ≤ most_program_bytes }
    requires few { nodes ≤ most_nodes }
    ensures goes { (s : State) → scan (lex (chars text.now) at (in_word at [])) s nodes ≡ resume (step s) result }
    ensures shorter { length result.after < length (lex (chars text.now) at (in_word at [])) }
{
    let (word, rest) = split_word(text);
    reader_of(keyword(word), at, word, rest, at + word.len() as u32, nodes)
}

/// A reader at the sign that the character is, before this text.
fn at_sign(first: char, more: &str, at: u32, nodes: u32) -> Result<Reader<'_>, ReadFault>
    requires dash { IsFalse (first == 45) }
    requires short { at + len_utf8 first + length more.now ≤ most_program_bytes }
    requires few { nodes ≤ most_nodes }
    ensures goes { (s : State) → Gives (λ r. resume (step s) r)
        (scan (on_sign (sign_of first) at (λ m. lex (chars more.now) (at + len_utf8 first) m)) s nodes) result }
    ensures shorter { IfOk result (λ r. length r.after < length
        (on_sign (sign_of first) at (λ m. lex (chars more.now) (at + len_utf8 first) m))) }
{
    match sign(first) {
        Some(token) => {
            let end = at + first.len_utf8() as u32;
            Ok(reader_of(token, at, more, more, end, nodes))
        }
        None => Err(ReadFault::BadToken(at)),
    }
}
