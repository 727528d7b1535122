// Laws of the definitions.
ghost use Rattle.std.specs.Prelude.{◌≡◌, ℕ, List, Option, Some, length};
ghost use Rattle.go_tree.specs.declared.token.Token.{Token};
ghost use Rattle.go_tree.specs.declared.token.TokenKind.{TokenKind};
ghost use Rattle.go_tree.specs.Lexical.LiteralValues.{string_lit_value};
ghost use Rattle.go_tree.specs.Lexical.Scan.{IsNext, Scan};
ghost use Rattle.go_scan.specs.Quoted.{IsStringLit};
ghost use Rattle.go_scan.specs.StringTexts.{string_of};

/// A text has at most one next token.
pub fn one_next()
    ensures { (bytes : List ℕ) (at : ℕ) (last : Option TokenKind) (t u : Token) →
        IsNext bytes at last t → IsNext bytes at last u → t ≡ u }
{}

/// A text has at most one list of tokens.
pub fn one_scan()
    ensures { (bytes : List ℕ) (ts us : List Token) → Scan bytes ts → Scan bytes us → ts ≡ us }
{}

/// The text of a string literal stands for the string that the literal does (Go specification, "String literals").
pub fn string_of_literal()
    ensures { (text : List ℕ) → IsStringLit text 0 (length text) → string_of text ≡ Some (string_lit_value text) }
{}
