//! The pieces of a text: characters, words, numbers, blanks and comments.

ghost use Rattle.std.specs.Prelude.{◌≡◌, ℕ, ◌+◌, ◌-◌, ◌*◌, ◌^◌, ◌<◌, ◌≤◌, ◌++◌, [], ◌∷◌};
ghost use Rattle.std.specs.Prelude.{length, ◌==◌, List, MatchOption, Some, None, encode_utf8, IsTrue, IsFalse, IfSome};
ghost use Rattle.std.specs.Str.{chars, IsUtf8};
ghost use Rattle.std.specs.Char.{len_utf8};
ghost use Rattle.pcf_reader.specs.Seen.{token_of};
ghost use Rattle.pcf_reader.specs.Tokens.{is_sum};
ghost use Rattle.pcf_reader.specs.Machine.{is_star};
ghost use Rattle.pcf_reader.specs.Spelling.{word_of, sign_of, is_blank, is_digit, starts_name};
ghost use Rattle.pcf_reader.specs.Lexing.{lex, idle, in_comment, in_word, in_number, closed, capped};
ghost use Rattle.unicode_ident.specs.Ident.{is_xid_continue};

use crate::token::{Binder, Token, Word};
use pcf_values::{Operator, Side};

/// The first character of a text, and the rest.
pub fn split_char(text: &str) -> Option<(char, &str)>
    ensures chars { MatchOption result (chars text.now ≡ []) (λ p. chars text.now ≡ p.0 ∷ chars p.1.now) }
    ensures text { MatchOption result (text.now ≡ []) (λ p. text.now ≡ encode_utf8 p.0 ++ p.1.now) }
    ensures length { MatchOption result (length text.now ≡ 0) (λ p. length text.now ≡ len_utf8 p.0 + length p.1.now) }
    ensures utf8 { IfSome result (λ p. IsUtf8 p.1.now) }
{
    let mut chars = text.chars();
    match chars.next() {
        Some(first) => Some((first, chars.as_str())),
        None => None,
    }
}

#[tactic(auto, using(crate::proofs::LexSteps::comment_more, crate::proofs::LexSteps::comment_line, crate::proofs::LexSteps::comment_end))]
/// The text from the end of a comment's line on, and its place.
pub fn behind_comment(text: &str, at: u32) -> (&str, u32)
    requires { at + length text.now < 2 ^ 32 }
    ensures lexed { lex (chars text.now) at in_comment ≡ lex (chars result.0.now) result.1 idle }
    ensures end { result.1 + length result.0.now ≡ at + length text.now }
    ensures shorter { length result.0.now ≤ length text.now }
{
    let mut rest = text;
    let mut place = at;
    while let Some((first, more)) = split_char(rest) {
        if first == '\n' {
            return (rest, place);
        }
        rest = more;
        place += first.len_utf8() as u32;
    }
    (rest, place)
}

/// A word, and the text behind it.
pub fn split_word(text: &str) -> (&str, &str)
    ensures lexed { (at start : ℕ) → lex (chars text.now) at (in_word start []) ≡ closed (in_word start result.0.now)
        (lex (chars result.1.now) (at + length result.0.now) idle) }
    ensures split { text.now ≡ result.0.now ++ result.1.now }
{
    let mut rest = text;
    while let Some((first, more)) = split_char(rest) {
        if !unicode_ident::is_xid_continue(first) {
            return text.split_at(text.len() - rest.len());
        }
        rest = more;
    }
    (text, rest)
}

/// The number that the digits before any other character are, or 2^64 where it is larger, and the text behind it.
pub fn split_number(text: &str) -> (u128, &str)
    ensures lexed { (n : ℕ) × (result.0 ≡ capped n) ×
        ((at start : ℕ) → lex (chars text.now) at (in_number start 0) ≡ closed (in_number start n)
        (lex (chars result.1.now) (at + (length text.now - length result.1.now)) idle)) }
    ensures shorter { length result.1.now ≤ length text.now }
{
    let mut rest = text;
    let mut value = 0;
    while let Some((first, more)) = split_char(rest) {
        if !is_digit(first) {
            return (value, rest);
        }
        value = with_digit(value, first);
        rest = more;
    }
    (value, rest)
}

/// A number with one more digit, or 2^64 where it is larger.
fn with_digit(value: u128, digit: char) -> u128
    requires { (value ≤ 2 ^ 64) × IsTrue (is_digit digit) }
    ensures { result ≡ capped (10 * value + (digit - 48)) }
{
    let longer = 10 * value + (digit as u128 - 48);
    if longer < 1 << 64 { longer } else { 1 << 64 }
}

#[tactic(auto, unfolding(crate::specs::Spelling::word_of))]
/// The keyword that a word is, or a name.
pub fn keyword(word: &str) -> Token
    ensures { token_of result word.now ≡ word_of word.now }
{
    match word {
        "fun" => Token::Bind(Binder::Fun),
        "fix" => Token::Bind(Binder::Fix),
        "ifz" => Token::Ifz,
        "then" => Token::Then,
        "else" => Token::Else,
        "succ" => Token::Before(Word::Succ),
        "pred" => Token::Before(Word::Pred),
        "fst" => Token::Before(Word::Part(Side::Left)),
        "snd" => Token::Before(Word::Part(Side::Right)),
        "nat" => Token::Nat,
        _ => Token::Name,
    }
}

/// Whether a character only separates tokens.
pub fn is_blank(c: char) -> bool
    ensures { result ≡ is_blank c }
{
    (c == ' ') | (c == '\t') | (c == '\r') | (c == '\n')
}

/// Whether a character is a decimal digit.
pub fn is_digit(c: char) -> bool
    ensures { result ≡ is_digit c }
{
    ('0' <= c) & (c <= '9')
}

/// Whether a name may begin with the character.
pub fn starts_name(c: char) -> bool
    ensures value { result ≡ starts_name c }
    ensures continues { IsTrue result → IsTrue (is_xid_continue c) }
{
    unicode_ident::is_xid_start(c) | (c == '_')
}

/// The sign that a character is. A `-` is none here, since it may begin an arrow.
pub fn sign(c: char) -> Option<Token>
    requires { IsFalse (c == 45) }
    ensures { MatchOption result (sign_of c ≡ None) (λ t. (word : List ℕ) → sign_of c ≡ Some (token_of t word)) }
{
    match c {
        '(' => Some(Token::Open),
        ')' => Some(Token::Close),
        ':' => Some(Token::Colon),
        '.' => Some(Token::Dot),
        ',' => Some(Token::Comma),
        '+' => Some(Token::Sign(Operator::Plus)),
        '*' => Some(Token::Sign(Operator::Times)),
        _ => None,
    }
}

/// Whether an operator's sign stands in sums. The others stand in products.
pub fn is_sum(operator: Operator) -> bool
    ensures { result ≡ is_sum operator }
{
    match operator {
        Operator::Plus | Operator::Minus => true,
        Operator::Times => false,
    }
}

/// Whether the token stands between the types of a pair's parts.
pub fn is_star(token: Token) -> bool
    ensures { (name : List ℕ) → result ≡ is_star (token_of token name) }
{
    matches!(token, Token::Sign(Operator::Times))
}
