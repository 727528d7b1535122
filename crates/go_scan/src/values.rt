// What rune and string literals stand for (Go specification, "Rune literals", "String literals").
ghost use Rattle.std.specs.Prelude.{◌≡◌, ◌≤◌, ◌<◌, ◌+◌, ◌++◌, ◌*◌, ◌^◌, ℕ, List, ◌∷◌, true, drop, length, slice_index, slice_range, IfOk};
ghost use Rattle.std.specs.List.{list_all};
ghost use Rattle.go_tree.specs.Lexical.Literals.{number_in};
ghost use Rattle.go_tree.specs.Lexical.LiteralValues.{code_point_of, escape_len, escape_text, escape_value, inside_of, rune_lit_value, simple_value, string_lit_value, unescaped, without_returns};
ghost use Rattle.go_scan.specs.Escapes.{base_of, count_of, is_escape_digit};
ghost use Rattle.go_scan.specs.Quoted.{Escapes, IsEscapeText, IsRuneInside, IsRuneText, IsStringLit, piece_text};
ghost use Rattle.go_scan.specs.StringTexts.{is_string};

use crate::characters::{byte_at, char_at};
use crate::digits::digit_value;
use crate::escapes::{Digits, base, is_digit};
use go_base::{Bytes, NoMemory};
use std::alloc::Global;

/// The code point of a rune literal, by its text with its quotes.
pub(crate) fn rune_value(text: &[u8]) -> u32
    requires { IsRuneText text.now }
    ensures { result ≡ rune_lit_value text.now }
{
    code_point(inside(text))
}

/// What stands between the quotes of a literal; of a shorter text nothing.
pub(crate) fn inside(text: &[u8]) -> &[u8]
    ensures { result.now ≡ inside_of text.now }
{
    if text.len() < 2 {
        return &[];
    }
    &text[1..text.len() - 1]
}

// What stands behind the first byte.
fn behind(text: &[u8]) -> &[u8]
    requires { 1 ≤ length text.now }
    ensures { result.now ≡ drop 1 text.now }
{
    &text[1..]
}

// The code point that the inside of a rune literal stands for.
fn code_point(inside: &[u8]) -> u32
    requires { IsRuneInside inside.now }
    ensures { result ≡ code_point_of inside.now }
{
    if inside[0] == b'\\' {
        return escape_value(behind(inside));
    }
    match char_at(inside, 0) {
        None => 0xFFFD,
        Some((c, _)) => c as u32,
    }
}

// The number that an escape stands for, by what stands behind its backslash.
fn escape_value(text: &[u8]) -> u32
    requires { IsEscapeText text.now }
    ensures { result ≡ escape_value text.now }
{
    let e = byte_at(text, 0);
    if e == b'x' {
        return number(behind(text), Digits::Byte);
    }
    if e == b'u' {
        return number(behind(text), Digits::Little);
    }
    if e == b'U' {
        return number(behind(text), Digits::Big);
    }
    if is_digit(Digits::Octal, e) {
        return number(text, Digits::Octal);
    }
    simple_value(e) as u32
}

// The number that the digits of an escape write.
fn number(digits: &[u8], kind: Digits) -> u32
    requires count { length digits.now ≤ count_of kind }
    requires digits { list_all (is_escape_digit kind) digits.now ≡ true }
    ensures { result ≡ number_in (base_of kind) digits.now }
{
    let mut value = 0;
    for byte in digits {
        value = value * base(kind) + u64::from(digit_value(*byte));
    }
    value as u32
}

// What a simple escape stands for.
fn simple_value(e: u8) -> u8
    ensures { result ≡ simple_value e }
{
    match e {
        b'a' => 7,
        b'b' => 8,
        b'f' => 12,
        b'n' => 10,
        b'r' => 13,
        b't' => 9,
        b'v' => 11,
        _ => e,
    }
}

/// How many bytes the string has for which a string literal stands.
pub(crate) fn string_len(bytes: &[u8], from: usize, to: usize) -> usize
    requires { IsStringLit bytes.now from to }
    ensures { result ≡ length (string_lit_value (slice_range bytes.now from to)) }
{
    if byte_at(bytes, from) == b'`' {
        len_without_returns(part(bytes, from + 1, to - 1))
    } else {
        unescaped_len(bytes, from + 1, to - 1)
    }
}

/// The string for which a string literal stands.
pub(crate) fn string_value(
    alloc: Global,
    bytes: &[u8],
    from: usize,
    to: usize,
) -> Result<Bytes, NoMemory>
    requires { IsStringLit bytes.now from to }
    ensures { IfOk result (λ text. text ≡ string_lit_value (slice_range bytes.now from to)) }
{
    text_value(alloc, part(bytes, from, to))
}

/// The string for which a text stands that is raw, or in which each backslash begins an escape.
pub(crate) fn text_value(alloc: Global, text: &[u8]) -> Result<Bytes, NoMemory>
    requires { is_string text.now ≡ true }
    ensures { IfOk result (λ value. value ≡ string_lit_value text.now) }
{
    let inside = inside(text);
    if byte_at(text, 0) == b'`' {
        let value = without_returns(alloc, inside)?;
        return Ok(Bytes::new(value));
    }
    let value = unescape(alloc, inside, 0, inside.len())?;
    Ok(Bytes::new(value))
}

fn part(bytes: &[u8], from: usize, to: usize) -> &[u8]
    requires before { from ≤ to }
    requires within { to ≤ length bytes.now }
    ensures { result.now ≡ slice_range bytes.now from to }
{
    &bytes[from..to]
}

// What an escape in a string stands for.
#[derive(Clone, Copy, Debug, PartialEq, Eq)]
enum Piece {
    Byte(u8),
    /// the UTF-8 of a character
    Char(char),
}

// What an escape in a string stands for, by what stands behind its backslash.
fn piece_of(text: &[u8]) -> Piece
    requires { IsEscapeText text.now }
    ensures { piece_text result ≡ escape_text text.now }
{
    let e = byte_at(text, 0);
    let value = escape_value(text);
    if e == b'u' || e == b'U' {
        return match char::from_u32(value) {
            Some(c) => Piece::Char(c),
            None => Piece::Byte(0),
        };
    }
    Piece::Byte(value as u8)
}

// How many bytes an escape has behind its backslash, by the first of them.
fn escape_len(e: u8) -> usize
    ensures { (rest : List ℕ) → result ≡ escape_len (e ∷ rest) }
{
    match e {
        b'x' | b'0'..=b'7' => 3,
        b'u' => 5,
        b'U' => 9,
        _ => 1,
    }
}

fn piece_len(piece: Piece) -> usize
    ensures { result ≡ length (piece_text piece) }
{
    match piece {
        Piece::Byte(_) => 1,
        Piece::Char(c) => c.len_utf8(),
    }
}

// What stands at `at` in a string whose inside ends at `close`, and the offset behind it.
fn next_piece(bytes: &[u8], at: usize, close: usize) -> (Piece, usize)
    requires escapes { Escapes bytes.now close at }
    requires before { at < close }
    ensures escapes { Escapes bytes.now close result.1 }
    ensures forward { at < result.1 }
    ensures short { at + length (piece_text result.0) ≤ result.1 }
    ensures value { unescaped 0 (slice_range bytes.now at close) ≡ piece_text result.0 ++ unescaped 0 (slice_range bytes.now result.1 close) }
{
    let byte = byte_at(bytes, at);
    if byte != b'\\' {
        return (Piece::Byte(byte), at + 1);
    }
    let from = at + 1;
    let to = from + escape_len(byte_at(bytes, from));
    (piece_of(&bytes[from..to]), to)
}

// How many bytes the string has for which the bytes from `from` up to `close` stand.
fn unescaped_len(bytes: &[u8], from: usize, close: usize) -> usize
    requires { Escapes bytes.now close from }
    ensures { result ≡ length (unescaped 0 (slice_range bytes.now from close)) }
{
    let mut at = from;
    let mut len = 0;
    while at < close {
        let (piece, next) = next_piece(bytes, at, close);
        len += piece_len(piece);
        at = next;
    }
    len
}

// The string for which the bytes from `from` up to `close` stand.
fn unescape(alloc: Global, bytes: &[u8], from: usize, close: usize) -> Result<Vec<u8>, NoMemory>
    requires { Escapes bytes.now close from }
    ensures { IfOk result (λ text. text.items ≡ unescaped 0 (slice_range bytes.now from close)) }
{
    let mut text = Vec::with_capacity(alloc, close - from)?;
    let mut at = from;
    while at < close {
        let (piece, next) = next_piece(bytes, at, close);
        push_piece(&mut text, piece)?;
        at = next;
    }
    Ok(text)
}

fn push_piece(text: &mut Vec<u8>, piece: Piece) -> Result<(), NoMemory>
    ensures { IfOk result (λ _. text.new.items ≡ text.old.items ++ piece_text piece) }
{
    match piece {
        Piece::Byte(b) => text.push(b)?,
        Piece::Char(c) => {
            let mut room = [0; 4];
            text.extend_from_slice(c.encode_utf8(&mut room).as_bytes())?;
        }
    }
    Ok(())
}

// How many bytes are left of a text without its carriage returns.
fn len_without_returns(text: &[u8]) -> usize
    ensures { result ≡ length (without_returns text.now) }
{
    text.iter().filter(|b| **b != b'\r').count()
}

// A text without its carriage returns.
fn without_returns(alloc: Global, text: &[u8]) -> Result<Vec<u8>, NoMemory>
    ensures { IfOk result (λ kept. kept.items ≡ without_returns text.now) }
{
    let mut kept = Vec::with_capacity(alloc, text.len())?;
    for byte in text {
        if *byte != b'\r' {
            kept.push(*byte)?;
        }
    }
    Ok(kept)
}
