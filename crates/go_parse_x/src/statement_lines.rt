// Lines of the productions of `statement_line`. Written by bench/lines.py.
//
// Above each line its production: what a look ahead allows is taken, and where a type may be read as an expression it
// has to be written as a type is (docs/GRAMMAR.md, "How each choice is settled"). ";" is also the inserted one.
use crate::line::Step;
use crate::line_words::line;
use crate::start_sets::{
    ASSIGNMENTS, EXPRESSIONS, NAMELESS, SEMICOLONS, STATEMENT_TAILS, STATEMENTS, SUFFIXES_OR_VALUE,
};
use go_tree::{Clauses, Form, NodeKind, Production, TokenKind};

/// Block = "{" [ Stmt ] { ";" [ Stmt ] } "}" .
pub const BLOCK: &[Step] = line![
    Seq 1, Open, Seq 16, Seq 1, Pass LeftBrace, Seq 3, Or 1 STATEMENTS, Call Stmt, Nothing, Seq 8,
    Many SEMICOLONS, Seq 3, Or 1 [Semicolon], Pass Semicolon, Pass InsertedSemicolon,
    Or 1 STATEMENTS, Call Stmt, Nothing, Pass RightBrace, Close Block,
];

/// Stmt = Decl | Name ( ":" [ Stmt ] | [ AfterName ] Tails AfterExpr(Plain) ) | ExprNoName
///     AfterExpr(Plain) | "go" Expr(Plain) | "defer" Expr(Plain) | "return" [ Exprs(Plain) ] |
///     "break" [ Name ] | "continue" [ Name ] | "goto" Name | "fallthrough" | Block | If | Switch |
///     Select | For .
pub const STMT: &[Step] = line![
    Or 1 [KwConst KwType KwVar], Call Decl, Or 19 [Ident], Seq 1, Call Name, Or 9 [Colon], Seq 1,
    Reopen, Seq 5, Seq 1, Pass Colon, Or 1 STATEMENTS, Call Stmt, Nothing, Close LabeledStmt, Seq 3,
    Or 1 SUFFIXES_OR_VALUE, Call AfterName, Nothing, Seq 1, Call Tails, Call AfterExpr Plain,
    Or 3 NAMELESS, Seq 1, Call ExprNoName, Call AfterExpr Plain, Or 7 [KwGo], Seq 1, Open, Seq 3,
    Seq 1, Pass KwGo, Call Expr Plain, Close GoStmt, Or 7 [KwDefer], Seq 1, Open, Seq 3, Seq 1,
    Pass KwDefer, Call Expr Plain, Close DeferStmt, Or 9 [KwReturn], Seq 1, Open, Seq 5, Seq 1,
    Pass KwReturn, Or 1 EXPRESSIONS, Call Exprs Plain, Nothing, Close ReturnStmt, Or 9 [KwBreak],
    Seq 1, Open, Seq 5, Seq 1, Pass KwBreak, Or 1 [Ident], Call Name, Nothing, Close BreakStmt,
    Or 9 [KwContinue], Seq 1, Open, Seq 5, Seq 1, Pass KwContinue, Or 1 [Ident], Call Name, Nothing,
    Close ContinueStmt, Or 7 [KwGoto], Seq 1, Open, Seq 3, Seq 1, Pass KwGoto, Call Name,
    Close GotoStmt, Or 5 [KwFallthrough], Seq 1, Open, Seq 1, Pass KwFallthrough,
    Close FallthroughStmt, Or 1 [LeftBrace], Call Block, Or 1 [KwIf], Call If, Or 1 [KwSwitch],
    Call Switch, Or 1 [KwSelect], Call Select, Call For,
];

/// Simple(Plain) = Expr(Plain) AfterExpr(Plain) .
pub const SIMPLE_PLAIN: &[Step] = line![
    Seq 1, Call Expr Plain, Call AfterExpr Plain,
];

/// Simple(Header) = Expr(Header) AfterExpr(Header) .
pub const SIMPLE_HEADER: &[Step] = line![
    Seq 1, Call Expr Header, Call AfterExpr Header,
];

/// AfterExpr(Plain) = [ SimpleTail(Plain) ] .
pub const AFTER_EXPR_PLAIN: &[Step] = line![
    Or 1 STATEMENT_TAILS, Call SimpleTail Plain, Seq 1, Reopen, Seq 1, Nothing, Close ExprStmt,
];

/// AfterExpr(Header) = [ SimpleTail(Header) ] .
pub const AFTER_EXPR_HEADER: &[Step] = line![
    Or 1 STATEMENT_TAILS, Call SimpleTail Header, Seq 1, Reopen, Seq 1, Nothing, Close ExprStmt,
];

/// SimpleTail(Plain) = "<-" Expr(Plain) | "++" | "--" | { "," Expr(Plain) } ( "+=" Exprs(Plain) |
///     "-=" Exprs(Plain) | "*=" Exprs(Plain) | "/=" Exprs(Plain) | "%=" Exprs(Plain) | "&="
///     Exprs(Plain) | "|=" Exprs(Plain) | "^=" Exprs(Plain) | "<<=" Exprs(Plain) | ">>="
///     Exprs(Plain) | "&^=" Exprs(Plain) | "=" Exprs(Plain) | ":=" Exprs(Plain) ) .
pub const SIMPLE_TAIL_PLAIN: &[Step] = line![
    Or 7 [Arrow], Seq 1, Reopen, Seq 3, Seq 1, Pass Arrow, Call Expr Plain, Close SendStmt,
    Or 5 [Inc], Seq 1, Reopen, Seq 1, Pass Inc, Close IncStmt, Or 5 [Dec], Seq 1, Reopen, Seq 1,
    Pass Dec, Close DecStmt, Seq 8, Seq 1, Reopen, Seq 4, Many [Comma], Seq 1, Pass Comma,
    Call Expr Plain, Close ExprList, Seq 1, Reopen, Or 87 ASSIGNMENTS, Or 7 [AddAssign], Seq 1,
    Pass AddAssign, Seq 1, Call Exprs Plain, Seq 1, Close AddAssignStmt, Nothing, Or 7 [SubAssign],
    Seq 1, Pass SubAssign, Seq 1, Call Exprs Plain, Seq 1, Close SubAssignStmt, Nothing,
    Or 7 [MulAssign], Seq 1, Pass MulAssign, Seq 1, Call Exprs Plain, Seq 1, Close MulAssignStmt,
    Nothing, Or 7 [QuoAssign], Seq 1, Pass QuoAssign, Seq 1, Call Exprs Plain, Seq 1,
    Close QuoAssignStmt, Nothing, Or 7 [RemAssign], Seq 1, Pass RemAssign, Seq 1, Call Exprs Plain,
    Seq 1, Close RemAssignStmt, Nothing, Or 7 [AndAssign], Seq 1, Pass AndAssign, Seq 1,
    Call Exprs Plain, Seq 1, Close AndAssignStmt, Nothing, Or 7 [OrAssign], Seq 1, Pass OrAssign,
    Seq 1, Call Exprs Plain, Seq 1, Close OrAssignStmt, Nothing, Or 7 [XorAssign], Seq 1,
    Pass XorAssign, Seq 1, Call Exprs Plain, Seq 1, Close XorAssignStmt, Nothing, Or 7 [ShlAssign],
    Seq 1, Pass ShlAssign, Seq 1, Call Exprs Plain, Seq 1, Close ShlAssignStmt, Nothing,
    Or 7 [ShrAssign], Seq 1, Pass ShrAssign, Seq 1, Call Exprs Plain, Seq 1, Close ShrAssignStmt,
    Nothing, Seq 1, Pass AndNotAssign, Seq 1, Call Exprs Plain, Seq 1, Close AndNotAssignStmt,
    Nothing, Or 7 [Assign], Seq 1, Pass Assign, Seq 1, Call Exprs Plain, Seq 1, Close AssignStmt,
    Nothing, Seq 1, Pass Define, Seq 1, Call Exprs Plain, Seq 1, Close DefineStmt, Nothing,
];

/// SimpleTail(Header) = "<-" Expr(Header) | "++" | "--" | { "," Expr(Header) } ( "+=" Exprs(Header)
///     | "-=" Exprs(Header) | "*=" Exprs(Header) | "/=" Exprs(Header) | "%=" Exprs(Header) | "&="
///     Exprs(Header) | "|=" Exprs(Header) | "^=" Exprs(Header) | "<<=" Exprs(Header) | ">>="
///     Exprs(Header) | "&^=" Exprs(Header) | "=" Exprs(Header) | ":=" Exprs(Header) ) .
pub const SIMPLE_TAIL_HEADER: &[Step] = line![
    Or 7 [Arrow], Seq 1, Reopen, Seq 3, Seq 1, Pass Arrow, Call Expr Header, Close SendStmt,
    Or 5 [Inc], Seq 1, Reopen, Seq 1, Pass Inc, Close IncStmt, Or 5 [Dec], Seq 1, Reopen, Seq 1,
    Pass Dec, Close DecStmt, Seq 8, Seq 1, Reopen, Seq 4, Many [Comma], Seq 1, Pass Comma,
    Call Expr Header, Close ExprList, Seq 1, Reopen, Or 87 ASSIGNMENTS, Or 7 [AddAssign], Seq 1,
    Pass AddAssign, Seq 1, Call Exprs Header, Seq 1, Close AddAssignStmt, Nothing, Or 7 [SubAssign],
    Seq 1, Pass SubAssign, Seq 1, Call Exprs Header, Seq 1, Close SubAssignStmt, Nothing,
    Or 7 [MulAssign], Seq 1, Pass MulAssign, Seq 1, Call Exprs Header, Seq 1, Close MulAssignStmt,
    Nothing, Or 7 [QuoAssign], Seq 1, Pass QuoAssign, Seq 1, Call Exprs Header, Seq 1,
    Close QuoAssignStmt, Nothing, Or 7 [RemAssign], Seq 1, Pass RemAssign, Seq 1, Call Exprs Header,
    Seq 1, Close RemAssignStmt, Nothing, Or 7 [AndAssign], Seq 1, Pass AndAssign, Seq 1,
    Call Exprs Header, Seq 1, Close AndAssignStmt, Nothing, Or 7 [OrAssign], Seq 1, Pass OrAssign,
    Seq 1, Call Exprs Header, Seq 1, Close OrAssignStmt, Nothing, Or 7 [XorAssign], Seq 1,
    Pass XorAssign, Seq 1, Call Exprs Header, Seq 1, Close XorAssignStmt, Nothing, Or 7 [ShlAssign],
    Seq 1, Pass ShlAssign, Seq 1, Call Exprs Header, Seq 1, Close ShlAssignStmt, Nothing,
    Or 7 [ShrAssign], Seq 1, Pass ShrAssign, Seq 1, Call Exprs Header, Seq 1, Close ShrAssignStmt,
    Nothing, Seq 1, Pass AndNotAssign, Seq 1, Call Exprs Header, Seq 1, Close AndNotAssignStmt,
    Nothing, Or 7 [Assign], Seq 1, Pass Assign, Seq 1, Call Exprs Header, Seq 1, Close AssignStmt,
    Nothing, Seq 1, Pass Define, Seq 1, Call Exprs Header, Seq 1, Close DefineStmt, Nothing,
];

/// If = "if" ( ";" Expr(Header) | Expr(Header) [ AfterExpr(Header) ";" Expr(Header) ] ) Block
///     [ "else" ( If | Block ) ] .
pub const IF: &[Step] = line![
    Seq 1, Open, Seq 37, Seq 1, Pass KwIf, Seq 25, Or 9 SEMICOLONS, Seq 7, Seq 1, Open, Seq 3,
    Or 1 [Semicolon], Pass Semicolon, Pass InsertedSemicolon, Close Init, Call Expr Header, Seq 1,
    Call Expr Header,
    Or 11 [AddAssign SubAssign MulAssign QuoAssign RemAssign AndAssign OrAssign XorAssign ShlAssign ShrAssign AndNotAssign Arrow Inc Dec Assign Define Comma Semicolon InsertedSemicolon],
    Seq 1, Call AfterExpr Header, Seq 7, Seq 1, Reopen, Seq 3, Or 1 [Semicolon], Pass Semicolon,
    Pass InsertedSemicolon, Close Init, Call Expr Header, Nothing, Seq 1, Call Block, Or 5 [KwElse],
    Seq 1, Pass KwElse, Or 1 [KwIf], Call If, Call Block, Nothing, Close IfStmt,
];

/// Switch = "switch" [ ";" [ Simple(Header) ] | Simple(Header) [ ";" [ Simple(Header) ] ] ] "{"
///     [ Clause(Cases) ] "}" .
pub const SWITCH: &[Step] = line![
    Seq 1, Open, Seq 39, Seq 1, Pass KwSwitch, Seq 29,
    Or 27 [Ident Int Float Rune Text KwChan KwFunc KwInterface KwMap KwStruct Add Sub Mul And Xor Arrow Not LeftParen LeftBracket Semicolon InsertedSemicolon],
    Or 11 SEMICOLONS, Seq 7, Seq 1, Open, Seq 3, Or 1 [Semicolon], Pass Semicolon,
    Pass InsertedSemicolon, Close Init, Or 1 EXPRESSIONS, Call Simple Header, Nothing, Seq 1,
    Call Simple Header, Or 11 SEMICOLONS, Seq 7, Seq 1, Reopen, Seq 3, Or 1 [Semicolon],
    Pass Semicolon, Pass InsertedSemicolon, Close Init, Or 1 EXPRESSIONS, Call Simple Header,
    Nothing, Nothing, Nothing, Seq 1, Pass LeftBrace, Seq 3, Or 1 [KwCase KwDefault],
    Call Clause Cases, Nothing, Pass RightBrace, Close SwitchStmt,
];

/// Select = "select" "{" [ Clause(Comms) ] "}" .
pub const SELECT: &[Step] = line![
    Seq 1, Open, Seq 9, Seq 1, Pass KwSelect, Seq 1, Pass LeftBrace, Seq 3, Or 1 [KwCase KwDefault],
    Call Clause Comms, Nothing, Pass RightBrace, Close SelectStmt,
];

/// Clause(Cases) = ( "case" Exprs(Plain) | "default" ) ":" ClauseBody(Cases) .
pub const CLAUSE_CASES: &[Step] = line![
    Seq 1, Open, Seq 9, Or 3 [KwCase], Seq 1, Pass KwCase, Call Exprs Plain, Seq 1, Open, Seq 1,
    Pass KwDefault, Close Default, Seq 1, Pass Colon, Call ClauseBody Cases,
];

/// Clause(Comms) = ( "case" Simple(Plain) | "default" ) ":" ClauseBody(Comms) .
pub const CLAUSE_COMMS: &[Step] = line![
    Seq 1, Open, Seq 9, Or 3 [KwCase], Seq 1, Pass KwCase, Call Simple Plain, Seq 1, Open, Seq 1,
    Pass KwDefault, Close Default, Seq 1, Pass Colon, Call ClauseBody Comms,
];

/// ClauseBody(Cases) = ";" ClauseBody(Cases) | Stmt AfterClauseStmt(Cases) | [ Clause(Cases) ] .
pub const CLAUSE_BODY_CASES: &[Step] = line![
    Or 5 SEMICOLONS, Seq 3, Or 1 [Semicolon], Pass Semicolon, Pass InsertedSemicolon,
    Call ClauseBody Cases, Or 3 STATEMENTS, Seq 1, Call Stmt, Call AfterClauseStmt Cases, Seq 1,
    Close CaseClause, Or 1 [KwCase KwDefault], Call Clause Cases, Nothing,
];

/// ClauseBody(Comms) = ";" ClauseBody(Comms) | Stmt AfterClauseStmt(Comms) | [ Clause(Comms) ] .
pub const CLAUSE_BODY_COMMS: &[Step] = line![
    Or 5 SEMICOLONS, Seq 3, Or 1 [Semicolon], Pass Semicolon, Pass InsertedSemicolon,
    Call ClauseBody Comms, Or 3 STATEMENTS, Seq 1, Call Stmt, Call AfterClauseStmt Comms, Seq 1,
    Close CommClause, Or 1 [KwCase KwDefault], Call Clause Comms, Nothing,
];

/// AfterClauseStmt(Cases) = [ ";" ClauseBody(Cases) ] .
pub const AFTER_CLAUSE_STMT_CASES: &[Step] = line![
    Or 5 SEMICOLONS, Seq 3, Or 1 [Semicolon], Pass Semicolon, Pass InsertedSemicolon,
    Call ClauseBody Cases, Close CaseClause,
];

/// AfterClauseStmt(Comms) = [ ";" ClauseBody(Comms) ] .
pub const AFTER_CLAUSE_STMT_COMMS: &[Step] = line![
    Or 5 SEMICOLONS, Seq 3, Or 1 [Semicolon], Pass Semicolon, Pass InsertedSemicolon,
    Call ClauseBody Comms, Close CommClause,
];

/// For = "for" ( Block | ";" ForClauses | "range" Expr(Header) Block | Expr(Header)
///     ForAfterExpr ) .
pub const FOR: &[Step] = line![
    Seq 1, Open, Seq 1, Pass KwFor, Or 3 [LeftBrace], Seq 1, Call Block, Close ForStmt,
    Or 9 SEMICOLONS, Seq 7, Seq 1, Open, Seq 3, Or 1 [Semicolon], Pass Semicolon,
    Pass InsertedSemicolon, Close Init, Call ForClauses, Or 11 [KwRange], Seq 7, Seq 1, Open, Seq 3,
    Seq 1, Pass KwRange, Call Expr Header, Close RangeClause, Seq 1, Call Block, Close RangeStmt,
    Seq 1, Call Expr Header, Call ForAfterExpr,
];

/// ForAfterExpr = Block | ";" ForClauses | "<-" Expr(Header) ";" ForClauses | "++" ";" ForClauses |
///     "--" ";" ForClauses | { "," Expr(Header) } ( "+=" Exprs(Header) ";" ForClauses | "-="
///     Exprs(Header) ";" ForClauses | "*=" Exprs(Header) ";" ForClauses | "/=" Exprs(Header) ";"
///     ForClauses | "%=" Exprs(Header) ";" ForClauses | "&=" Exprs(Header) ";" ForClauses | "|="
///     Exprs(Header) ";" ForClauses | "^=" Exprs(Header) ";" ForClauses | "<<=" Exprs(Header) ";"
///     ForClauses | ">>=" Exprs(Header) ";" ForClauses | "&^=" Exprs(Header) ";" ForClauses | "="
///     ( "range" Expr(Header) Block | Exprs(Header) ";" ForClauses ) | ":=" ( "range" Expr(Header)
///     Block | Exprs(Header) ";" ForClauses ) ) .
pub const FOR_AFTER_EXPR: &[Step] = line![
    Or 3 [LeftBrace], Seq 1, Call Block, Close ForStmt, Or 15 SEMICOLONS, Seq 5, Seq 1, Reopen,
    Seq 1, Nothing, Close ExprStmt, Seq 7, Seq 1, Reopen, Seq 3, Or 1 [Semicolon], Pass Semicolon,
    Pass InsertedSemicolon, Close Init, Call ForClauses, Or 17 [Arrow], Seq 7, Seq 1, Reopen, Seq 3,
    Seq 1, Pass Arrow, Call Expr Header, Close SendStmt, Seq 7, Seq 1, Reopen, Seq 3,
    Or 1 [Semicolon], Pass Semicolon, Pass InsertedSemicolon, Close Init, Call ForClauses,
    Or 15 [Inc], Seq 5, Seq 1, Reopen, Seq 1, Pass Inc, Close IncStmt, Seq 7, Seq 1, Reopen, Seq 3,
    Or 1 [Semicolon], Pass Semicolon, Pass InsertedSemicolon, Close Init, Call ForClauses,
    Or 15 [Dec], Seq 5, Seq 1, Reopen, Seq 1, Pass Dec, Close DecStmt, Seq 7, Seq 1, Reopen, Seq 3,
    Or 1 [Semicolon], Pass Semicolon, Pass InsertedSemicolon, Close Init, Call ForClauses, Seq 8,
    Seq 1, Reopen, Seq 4, Many [Comma], Seq 1, Pass Comma, Call Expr Header, Close ExprList, Seq 1,
    Reopen, Or 175 ASSIGNMENTS, Or 15 [AddAssign], Seq 1, Pass AddAssign, Seq 1, Call Exprs Header,
    Seq 1, Close AddAssignStmt, Seq 7, Seq 1, Reopen, Seq 3, Or 1 [Semicolon], Pass Semicolon,
    Pass InsertedSemicolon, Close Init, Call ForClauses, Or 15 [SubAssign], Seq 1, Pass SubAssign,
    Seq 1, Call Exprs Header, Seq 1, Close SubAssignStmt, Seq 7, Seq 1, Reopen, Seq 3,
    Or 1 [Semicolon], Pass Semicolon, Pass InsertedSemicolon, Close Init, Call ForClauses,
    Or 15 [MulAssign], Seq 1, Pass MulAssign, Seq 1, Call Exprs Header, Seq 1, Close MulAssignStmt,
    Seq 7, Seq 1, Reopen, Seq 3, Or 1 [Semicolon], Pass Semicolon, Pass InsertedSemicolon,
    Close Init, Call ForClauses, Or 15 [QuoAssign], Seq 1, Pass QuoAssign, Seq 1, Call Exprs Header,
    Seq 1, Close QuoAssignStmt, Seq 7, Seq 1, Reopen, Seq 3, Or 1 [Semicolon], Pass Semicolon,
    Pass InsertedSemicolon, Close Init, Call ForClauses, Or 15 [RemAssign], Seq 1, Pass RemAssign,
    Seq 1, Call Exprs Header, Seq 1, Close RemAssignStmt, Seq 7, Seq 1, Reopen, Seq 3,
    Or 1 [Semicolon], Pass Semicolon, Pass InsertedSemicolon, Close Init, Call ForClauses,
    Or 15 [AndAssign], Seq 1, Pass AndAssign, Seq 1, Call Exprs Header, Seq 1, Close AndAssignStmt,
    Seq 7, Seq 1, Reopen, Seq 3, Or 1 [Semicolon], Pass Semicolon, Pass InsertedSemicolon,
    Close Init, Call ForClauses, Or 15 [OrAssign], Seq 1, Pass OrAssign, Seq 1, Call Exprs Header,
    Seq 1, Close OrAssignStmt, Seq 7, Seq 1, Reopen, Seq 3, Or 1 [Semicolon], Pass Semicolon,
    Pass InsertedSemicolon, Close Init, Call ForClauses, Or 15 [XorAssign], Seq 1, Pass XorAssign,
    Seq 1, Call Exprs Header, Seq 1, Close XorAssignStmt, Seq 7, Seq 1, Reopen, Seq 3,
    Or 1 [Semicolon], Pass Semicolon, Pass InsertedSemicolon, Close Init, Call ForClauses,
    Or 15 [ShlAssign], Seq 1, Pass ShlAssign, Seq 1, Call Exprs Header, Seq 1, Close ShlAssignStmt,
    Seq 7, Seq 1, Reopen, Seq 3, Or 1 [Semicolon], Pass Semicolon, Pass InsertedSemicolon,
    Close Init, Call ForClauses, Or 15 [ShrAssign], Seq 1, Pass ShrAssign, Seq 1, Call Exprs Header,
    Seq 1, Close ShrAssignStmt, Seq 7, Seq 1, Reopen, Seq 3, Or 1 [Semicolon], Pass Semicolon,
    Pass InsertedSemicolon, Close Init, Call ForClauses, Seq 1, Pass AndNotAssign, Seq 1,
    Call Exprs Header, Seq 1, Close AndNotAssignStmt, Seq 7, Seq 1, Reopen, Seq 3, Or 1 [Semicolon],
    Pass Semicolon, Pass InsertedSemicolon, Close Init, Call ForClauses, Or 25 [Assign], Seq 1,
    Pass Assign, Or 9 [KwRange], Seq 1, Pass KwRange, Seq 1, Call Expr Header, Seq 1,
    Close RangeAssign, Seq 1, Call Block, Close RangeStmt, Seq 1, Call Exprs Header, Seq 1,
    Close AssignStmt, Seq 7, Seq 1, Reopen, Seq 3, Or 1 [Semicolon], Pass Semicolon,
    Pass InsertedSemicolon, Close Init, Call ForClauses, Seq 1, Pass Define, Or 9 [KwRange], Seq 1,
    Pass KwRange, Seq 1, Call Expr Header, Seq 1, Close RangeDefine, Seq 1, Call Block,
    Close RangeStmt, Seq 1, Call Exprs Header, Seq 1, Close DefineStmt, Seq 7, Seq 1, Reopen, Seq 3,
    Or 1 [Semicolon], Pass Semicolon, Pass InsertedSemicolon, Close Init, Call ForClauses,
];

/// ForClauses = [ Expr(Header) ] ";" [ Simple(Header) ] Block .
pub const FOR_CLAUSES: &[Step] = line![
    Seq 3, Or 1 EXPRESSIONS, Call Expr Header, Nothing, Seq 3, Or 1 [Semicolon], Pass Semicolon,
    Pass InsertedSemicolon, Seq 3, Or 1 EXPRESSIONS, Call Simple Header, Nothing, Seq 1, Call Block,
    Close ForStmt,
];
