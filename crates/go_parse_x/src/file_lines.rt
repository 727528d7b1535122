// Lines of the productions of `file_line`. Written by bench/lines.py.
//
// Above each line its production: what a look ahead allows is taken, and where a type may be read as an expression it
// has to be written as a type is (docs/GRAMMAR.md, "How each choice is settled"). ";" is also the inserted one.
use crate::line::Step;
use crate::line_words::line;
use crate::start_sets::SEMICOLONS;
use go_tree::{Items, NodeKind, Production, TokenKind};

/// File = "package" Name ";" { Import ";" } { Top ";" } end .
pub const FILE: &[Step] = line![
    Seq 1, Open, Seq 23, Seq 1, Pass KwPackage, Seq 1, Call Name, Seq 3, Or 1 [Semicolon],
    Pass Semicolon, Pass InsertedSemicolon, Seq 6, Many [KwImport], Seq 1, Call Import,
    Or 1 [Semicolon], Pass Semicolon, Pass InsertedSemicolon, Seq 6,
    Many [KwConst KwFunc KwType KwVar], Seq 1, Call Top, Or 1 [Semicolon], Pass Semicolon,
    Pass InsertedSemicolon, Pass End, Close File,
];

/// Import = "import" ( ImportSpec | "(" [ ImportSpec [ More(ImportSpecs) ] ] ")" ) .
pub const IMPORT: &[Step] = line![
    Seq 1, Open, Seq 1, Pass KwImport, Or 3 [Ident Text Dot], Seq 1, Call ImportSpec,
    Close ImportDecl, Seq 11, Seq 1, Pass LeftParen, Seq 7, Or 5 [Ident Text Dot], Seq 1,
    Call ImportSpec, Or 1 SEMICOLONS, Call More ImportSpecs, Nothing, Nothing, Pass RightParen,
    Close ImportGroup,
];

/// ImportSpec = [ "." | Name ] StringLit .
pub const IMPORT_SPEC: &[Step] = line![
    Seq 1, Open, Seq 11, Seq 9, Or 7 [Ident Dot], Or 5 [Dot], Seq 1, Open, Seq 1, Pass Dot,
    Close DotImport, Call Name, Nothing, Call StringLit, Close ImportSpec,
];

/// Top = Decl | "func" ( Name FuncRest | Params Name FuncRest ) .
pub const TOP: &[Step] = line![
    Or 1 [KwConst KwType KwVar], Call Decl, Seq 1, Open, Seq 1, Pass KwFunc, Or 5 [Ident], Seq 1,
    Call Name, Seq 1, Call FuncRest, Close FuncDecl, Seq 1, Call Params, Seq 1, Call Name, Seq 1,
    Call FuncRest, Close MethodDecl,
];

/// FuncRest = [ TypeParams ] Signature [ Block ] .
pub const FUNC_REST: &[Step] = line![
    Seq 3, Or 1 [LeftBracket], Call TypeParams, Nothing, Seq 1, Call Signature, Or 1 [LeftBrace],
    Call Block, Nothing,
];

/// Name = ident .
pub const NAME: &[Step] = line![
    Seq 1, Open, Seq 1, Pass Ident, Close Name,
];

/// StringLit = string .
pub const STRING_LIT: &[Step] = line![
    Seq 1, Open, Seq 1, Pass Text, Close StringLit,
];
