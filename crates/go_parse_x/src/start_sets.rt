// Sets of the kinds that parts of the language begin with.
use crate::kind_sets::kinds;
use go_tree::TokenKind;

pub const LITERALS: u128 = kinds![Int Float Rune Text];

pub const TYPE_WORDS: u128 = kinds![KwChan KwFunc KwInterface KwMap KwStruct];

pub const SEMICOLONS: u128 = kinds![Semicolon InsertedSemicolon];

pub const NAMED_TYPES: u128 = TYPE_WORDS | kinds![Ident Mul LeftBracket];

pub const TYPES: u128 = NAMED_TYPES | kinds![Arrow LeftParen];

pub const OPERANDS: u128 = LITERALS | TYPE_WORDS | kinds![LeftParen LeftBracket];

pub const NAMELESS: u128 = OPERANDS | kinds![Add Sub Mul And Xor Arrow Not];

pub const EXPRESSIONS: u128 = NAMELESS | kinds![Ident];

pub const COMPARISONS: u128 = kinds![Equal Less Greater NotEqual LessEqual GreaterEqual];

pub const SUMS: u128 = kinds![Add Sub Or Xor];

pub const PRODUCTS: u128 = kinds![Mul Quo Rem And Shl Shr AndNot];

pub const OPERATORS: u128 = COMPARISONS | SUMS | PRODUCTS | kinds![LogicalAnd LogicalOr];

pub const ASSIGN_SUMS: u128 = kinds![AddAssign SubAssign OrAssign XorAssign];

pub const ASSIGN_PRODUCTS: u128 =
    kinds![MulAssign QuoAssign RemAssign AndAssign ShlAssign ShrAssign AndNotAssign];

pub const STATEMENT_TAILS: u128 = ASSIGN_SUMS
    | ASSIGN_PRODUCTS
    | kinds![Arrow Inc Dec Assign Define Comma];

pub const JUMPS: u128 = kinds![KwBreak KwContinue KwFallthrough KwGoto KwReturn];

pub const STATEMENT_WORDS: u128 = JUMPS
    | kinds![KwConst KwDefer KwFor KwGo KwIf KwSelect KwSwitch KwType KwVar];

pub const STATEMENTS: u128 = EXPRESSIONS | STATEMENT_WORDS | kinds![LeftBrace];

pub const SUFFIXES: u128 = kinds![LeftParen LeftBracket Dot];

pub const SUFFIXES_OR_VALUE: u128 = SUFFIXES | kinds![LeftBrace];

pub const PARAMETERS: u128 = TYPES | kinds![Ellipsis];

pub const TERMS: u128 = TYPES | kinds![Tilde];

pub const ELEMENTS: u128 = EXPRESSIONS | kinds![LeftBrace];

pub const ASSIGNMENTS: u128 = ASSIGN_SUMS | ASSIGN_PRODUCTS;

pub const TYPES_NO_BRACKET: u128 = TYPE_WORDS | kinds![Ident Mul Arrow LeftParen];

pub const TYPES_NO_NAME: u128 = TYPE_WORDS | kinds![Mul Arrow LeftParen LeftBracket];

pub const LENGTH_TAILS: u128 = OPERATORS | kinds![LeftParen Dot RightBracket];
