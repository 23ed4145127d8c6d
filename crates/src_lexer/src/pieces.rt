//! One piece of a text: white space, a comment or a token.

ghost use Rattle.std.specs.Prelude.{◌≡◌, ◌≤◌, ◌<◌, ◌+◌, ◌^◌, ◌-◌, length, slice_index, slice_range};
ghost use Rattle.std.specs.Prelude.{MatchOption, MatchResult, ℕ, pos, true, false};
ghost use Rattle.std.specs.Char.{is_ascii_digit};
ghost use Rattle.src_lexer.specs.declared.token.Symbol.{Symbol};
ghost use Rattle.bm_base.specs.Names as names;
ghost use Rattle.src_lexer.specs.Spell as spec;
ghost use Rattle.src_lexer.specs.Scanning.{OnlySymbol, NoPair};
ghost use Rattle.src_lexer.specs.Symbols.{spelling, word_of};

use crate::fault::LexFault;
use crate::token::{Keyword, SYMBOLS, Symbol, TokenKind};
use bm_base::{MOST_NAME_BYTES, begins_name, count, goes_on_name};

/// A piece: the place behind it, and the token that it is, if any.
pub type Piece = (usize, Option<TokenKind>);

fn is_white(b: u8) -> bool
    ensures { result ≡ spec.is_white b }
{
    matches!(b, b' ' | b'\t' | b'\r' | b'\n')
}

fn begins_comment(b: u8) -> bool
    ensures { result ≡ spec.begins_comment b }
{
    b == b'#'
}

/// The end of the longest row of bytes from here that such a row is made of.
fn span_end<F: Fn(u8) -> bool>(src: &[u8], from: usize, goes_on: F) -> usize
    requires here { from ≤ length src.now }
    requires any { F.IsAlwaysCallable goes_on }
    ensures ordered { from ≤ result }
    ensures within { result ≤ length src.now }
    ensures each { (i : ℕ) → from ≤ i → i < result → F.post goes_on (slice_index src.now i) true }
    ensures ends { result < length src.now → F.post goes_on (slice_index src.now result) false }
{
    let mut to = from;
    while to < src.len() && goes_on(src[to]) {
        to += 1;
    }
    to
}

fn is_comment_byte(b: u8) -> bool
    ensures { result ≡ spec.in_comment b }
{
    b != b'\n'
}

fn comment_end(src: &[u8], from: usize) -> usize
    requires { from ≤ length src.now }
    ensures { spec.IsSpan src.now spec.in_comment from result }
{
    span_end(src, from, is_comment_byte)
}

fn is_name_byte(b: u8) -> bool
    ensures { result ≡ names.goes_on_name b }
{
    goes_on_name(b)
}

fn name_end(src: &[u8], from: usize) -> usize
    requires { from ≤ length src.now }
    ensures { spec.IsSpan src.now names.goes_on_name from result }
{
    span_end(src, from, is_name_byte)
}

fn is_digit(b: u8) -> bool
    ensures { result ≡ is_ascii_digit b }
{
    b.is_ascii_digit()
}

fn number_end(src: &[u8], from: usize) -> usize
    requires { from ≤ length src.now }
    ensures { spec.IsSpan src.now is_ascii_digit from result }
{
    span_end(src, from, is_digit)
}

/// The symbol that is written so, if any.
fn symbol_by_bytes(bytes: &[u8]) -> Option<Symbol>
    ensures { MatchOption result ((k : Symbol) → bytes.now ≡ spelling k → ⊥) (λ k. bytes.now ≡ spelling k) }
{
    for symbol in &SYMBOLS {
        if bytes == symbol.text() {
            return Some(*symbol);
        }
    }
    None
}

fn word_or_name(bytes: &[u8]) -> TokenKind
    ensures { result ≡ word_of bytes.now }
{
    if bytes == b"var".as_slice() {
        TokenKind::Word(Keyword::Var)
    } else if bytes == b"array".as_slice() {
        TokenKind::Word(Keyword::Array)
    } else if bytes == b"print".as_slice() {
        TokenKind::Word(Keyword::Print)
    } else if bytes == b"if".as_slice() {
        TokenKind::Word(Keyword::If)
    } else if bytes == b"else".as_slice() {
        TokenKind::Word(Keyword::Else)
    } else if bytes == b"while".as_slice() {
        TokenKind::Word(Keyword::While)
    } else {
        TokenKind::Name
    }
}

/// The value of digits, if it fits.
fn value_of(digits: &[u8]) -> Option<i64>
    requires some { 0 < length digits.now }
    requires each { (i : ℕ) → i < length digits.now → is_ascii_digit (slice_index digits.now i) ≡ true }
    ensures { MatchOption result (2 ^ 63 ≤ spec.value_of digits.now) (λ v. (v ≡ pos (spec.value_of digits.now))
        × (spec.value_of digits.now < 2 ^ 63)) }
{
    match count(digits) {
        Ok(value) => i64::try_from(value).ok(),
        Err(_) => None,
    }
}

/// The symbol of two bytes from here, if any.
fn pair_at(src: &[u8], from: usize) -> Option<Symbol>
    requires { from < length src.now }
    ensures { MatchOption result (NoPair src.now from) (λ k. (from + 2 ≤ length src.now)
        × (slice_range src.now from (from + 2) ≡ spelling k)) }
{
    if src.len() - from < 2 {
        return None;
    }
    symbol_by_bytes(&src[from..from + 2])
}

/// The longest symbol from here, and the place behind it.
fn symbol_at(src: &[u8], from: usize) -> Option<(Symbol, usize)>
    requires { from < length src.now }
    ensures { MatchOption result ((to : ℕ) (k : Symbol) → spec.IsSymbol src.now from to k → ⊥) (λ r. spec.IsSymbol src.now from r.1 r.0) }
{
    if let Some(symbol) = pair_at(src, from) {
        return Some((symbol, from + 2));
    }
    match symbol_by_bytes(&src[from..from + 1]) {
        Some(symbol) => Some((symbol, from + 1)),
        None => None,
    }
}

fn word(src: &[u8], from: usize) -> Result<Piece, LexFault>
    requires short { length src.now < 2 ^ 32 - 1 }
    requires begins { spec.Begins src.now names.begins_name from }
    ensures { MatchResult result (λ r. spec.IsAllowedPiece src.now from r.0 r.1) (λ e. spec.IsFaultAt src.now from e) }
{
    let to = name_end(src, from);
    match word_or_name(&src[from..to]) {
        TokenKind::Name => {
            if to - from > MOST_NAME_BYTES {
                return Err(LexFault::LongName {
                    at: from as u32,
                    len: (to - from) as u32,
                });
            }
            Ok((to, Some(TokenKind::Name)))
        }
        kind => Ok((to, Some(kind))),
    }
}

fn number(src: &[u8], from: usize) -> Result<Piece, LexFault>
    requires short { length src.now < 2 ^ 32 - 1 }
    requires begins { spec.Begins src.now is_ascii_digit from }
    ensures { MatchResult result (λ r. spec.IsAllowedPiece src.now from r.0 r.1) (λ e. spec.IsFaultAt src.now from e) }
{
    let to = number_end(src, from);
    match value_of(&src[from..to]) {
        Some(value) => Ok((to, Some(TokenKind::Number { value }))),
        None => Err(LexFault::LongNumber { at: from as u32 }),
    }
}

fn symbol(src: &[u8], from: usize) -> Result<Piece, LexFault>
    requires here { from < length src.now }
    requires short { length src.now < 2 ^ 32 - 1 }
    requires only { OnlySymbol (slice_index src.now from) }
    ensures { MatchResult result (λ r. spec.IsAllowedPiece src.now from r.0 r.1) (λ e. spec.IsFaultAt src.now from e) }
{
    match symbol_at(src, from) {
        Some((symbol, to)) => Ok((to, Some(TokenKind::Sym(symbol)))),
        None => Err(LexFault::BadByte { at: from as u32 }),
    }
}

/// The piece that begins here, or the fault that stands here.
pub fn piece(src: &[u8], from: usize) -> Result<Piece, LexFault>
    requires here { from < length src.now }
    requires short { length src.now < 2 ^ 32 - 1 }
    ensures { MatchResult result (λ r. spec.IsAllowedPiece src.now from r.0 r.1) (λ e. spec.IsFaultAt src.now from e) }
{
    let first = src[from];
    if is_white(first) {
        Ok((from + 1, None))
    } else if begins_comment(first) {
        Ok((comment_end(src, from), None))
    } else if begins_name(first) {
        word(src, from)
    } else if is_digit(first) {
        number(src, from)
    } else {
        symbol(src, from)
    }
}
