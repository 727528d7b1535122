// Tokens (Go specification, "Tokens").

/// What a token is.
#[derive(Clone, Copy, Debug, PartialEq, Eq)]
pub enum TokenKind {
    /// an identifier, as `x1`
    Ident,
    /// an integer literal, as `42` or `0x2A`
    Int,
    /// a floating-point or imaginary literal, as `1.5` or `2i`
    Float,
    /// a rune literal, as `'a'`
    Rune,
    /// a string literal, interpreted or raw
    Text,
    /// `break`
    KwBreak,
    /// `case`
    KwCase,
    /// `chan`
    KwChan,
    /// `const`
    KwConst,
    /// `continue`
    KwContinue,
    /// `default`
    KwDefault,
    /// `defer`
    KwDefer,
    /// `else`
    KwElse,
    /// `fallthrough`
    KwFallthrough,
    /// `for`
    KwFor,
    /// `func`
    KwFunc,
    /// `go`
    KwGo,
    /// `goto`
    KwGoto,
    /// `if`
    KwIf,
    /// `import`
    KwImport,
    /// `interface`
    KwInterface,
    /// `map`
    KwMap,
    /// `package`
    KwPackage,
    /// `range`
    KwRange,
    /// `return`
    KwReturn,
    /// `select`
    KwSelect,
    /// `struct`
    KwStruct,
    /// `switch`
    KwSwitch,
    /// `type`
    KwType,
    /// `var`
    KwVar,
    /// `+`
    Add,
    /// `-`
    Sub,
    /// `*`
    Mul,
    /// `/`
    Quo,
    /// `%`
    Rem,
    /// `&`
    And,
    /// `|`
    Or,
    /// `^`
    Xor,
    /// `<<`
    Shl,
    /// `>>`
    Shr,
    /// `&^`
    AndNot,
    /// `+=`
    AddAssign,
    /// `-=`
    SubAssign,
    /// `*=`
    MulAssign,
    /// `/=`
    QuoAssign,
    /// `%=`
    RemAssign,
    /// `&=`
    AndAssign,
    /// `|=`
    OrAssign,
    /// `^=`
    XorAssign,
    /// `<<=`
    ShlAssign,
    /// `>>=`
    ShrAssign,
    /// `&^=`
    AndNotAssign,
    /// `&&`
    LogicalAnd,
    /// `||`
    LogicalOr,
    /// `<-`
    Arrow,
    /// `++`
    Inc,
    /// `--`
    Dec,
    /// `==`
    Equal,
    /// `<`
    Less,
    /// `>`
    Greater,
    /// `=`
    Assign,
    /// `!`
    Not,
    /// `~`
    Tilde,
    /// `!=`
    NotEqual,
    /// `<=`
    LessEqual,
    /// `>=`
    GreaterEqual,
    /// `:=`
    Define,
    /// `...`
    Ellipsis,
    /// `(`
    LeftParen,
    /// `[`
    LeftBracket,
    /// `{`
    LeftBrace,
    /// `,`
    Comma,
    /// `.`
    Dot,
    /// `)`
    RightParen,
    /// `]`
    RightBracket,
    /// `}`
    RightBrace,
    /// `;`
    Semicolon,
    /// `:`
    Colon,
    /// the semicolon that a newline, a comment or the end of the file inserts
    InsertedSemicolon,
    /// the end of the file
    End,
}

/// A token: its kind, and its bytes from `start` up to `end`, as offsets from 0.
///
/// A semicolon that a newline inserts has the newline's byte; one that a general comment inserts
/// has the bytes from the first newline in the comment to the comment's end; one that the end of
/// the file inserts has none, and so has the end of the file.
#[derive(Clone, Copy, Debug, PartialEq, Eq)]
pub struct Token {
    pub kind: TokenKind,
    pub start: usize,
    pub end: usize,
}
