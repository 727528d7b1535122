// Characters, letters and white space (Go specification, "Characters", "Letters and digits", "Tokens").
ghost use Rattle.std.specs.Prelude.{◌≡◌, ◌≤◌, length, slice_index, IfSome, IfNone, Some, None};
ghost use Rattle.ucd_category.specs.GeneralCategory.{general_category};
ghost use Rattle.go_scan.specs.Ascii.{is_ascii_letter};
ghost use Rattle.go_tree.specs.Lexical.Characters.{decoded_at, is_letter, is_letter_or_digit, is_letter_category, is_digit_category, is_white_space, is_allowed, is_forbidden};

use bstr::decode_utf8;
use unicode::properties::GeneralCategory;

/// The byte at an offset; 0 behind the last.
pub(crate) fn byte_at(bytes: &[u8], at: usize) -> u8
    ensures { result ≡ slice_index bytes.now at }
{
    if at < bytes.len() { bytes[at] } else { 0 }
}

/// The character whose UTF-8 begins at an offset, and how many bytes it takes.
pub(crate) fn char_at(bytes: &[u8], at: usize) -> Option<(char, usize)>
    requires { at ≤ length bytes.now }
    ensures some { IfSome result (λ r. ((decoded_at bytes.now at).char ≡ Some r.0) × (r.1 ≡ (decoded_at bytes.now at).size)) }
    ensures none { IfNone result ((decoded_at bytes.now at).char ≡ None) }
{
    if at < bytes.len() && bytes[at] < 128 {
        return Some((bytes[at] as char, 1));
    }
    let (next, size) = decode_utf8(&bytes[at..]);
    Some((next?, size))
}

pub(crate) fn is_letter(c: char) -> bool
    ensures { result ≡ is_letter c }
{
    if c < '\u{80}' {
        is_ascii_letter(c)
    } else {
        c == '_' || is_letter_category(GeneralCategory::for_char(c))
    }
}

pub(crate) fn is_letter_or_digit(c: char) -> bool
    ensures { result ≡ is_letter_or_digit c }
{
    is_letter(c) || is_digit(c)
}

#[tactic(auto, using(crate::proofs::CharacterLemmas::ascii_digits))]
fn is_digit(c: char) -> bool
    ensures { result ≡ is_digit_category (general_category c) }
{
    if c < '\u{80}' {
        c.is_ascii_digit()
    } else {
        is_digit_category(GeneralCategory::for_char(c))
    }
}

fn is_ascii_letter(c: char) -> bool
    ensures { result ≡ is_ascii_letter c }
{
    c.is_ascii_alphabetic() || c == '_'
}

fn is_letter_category(category: GeneralCategory) -> bool
    ensures { result ≡ is_letter_category category }
{
    matches!(
        category,
        GeneralCategory::UppercaseLetter
            | GeneralCategory::LowercaseLetter
            | GeneralCategory::TitlecaseLetter
            | GeneralCategory::ModifierLetter
            | GeneralCategory::OtherLetter
    )
}

fn is_digit_category(category: GeneralCategory) -> bool
    ensures { result ≡ is_digit_category category }
{
    matches!(category, GeneralCategory::DecimalNumber)
}

pub(crate) fn is_white_space(byte: u8) -> bool
    ensures { result ≡ is_white_space byte }
{
    matches!(byte, b' ' | b'\t' | b'\r' | b'\n')
}

pub(crate) fn is_allowed(c: char) -> bool
    ensures { result ≡ is_allowed c }
{
    c != '\0' && c != '\u{FEFF}'
}
