// Lines of the productions of `expression_line`. Written by bench/lines.py.
//
// Above each line its production: what a look ahead allows is taken, and where a type may be read as an expression it
// has to be written as a type is (docs/GRAMMAR.md, "How each choice is settled"). ";" is also the inserted one.
use crate::line::{Asked, Step};
use crate::line_words::line;
use crate::start_sets::{
    COMPARISONS, ELEMENTS, EXPRESSIONS, LITERALS, OPERANDS, PRODUCTS, SUFFIXES, SUFFIXES_OR_VALUE,
    SUMS,
};
use go_tree::{Form, Items, NodeKind, Production, TokenKind};

/// Expr(Plain) = Conjunction(Plain) { OrTail(Plain) } .
pub const EXPR_PLAIN: &[Step] = line![
    Seq 1, Call Conjunction Plain, Many [LogicalOr], Call OrTail Plain,
];

/// Expr(Header) = Conjunction(Header) { OrTail(Header) } .
pub const EXPR_HEADER: &[Step] = line![
    Seq 1, Call Conjunction Header, Many [LogicalOr], Call OrTail Header,
];

/// OrTail(Plain) = "||" Conjunction(Plain) .
pub const OR_TAIL_PLAIN: &[Step] = line![
    Seq 1, Reopen, Seq 3, Seq 1, Pass LogicalOr, Call Conjunction Plain, Close LogicalOrExpr,
];

/// OrTail(Header) = "||" Conjunction(Header) .
pub const OR_TAIL_HEADER: &[Step] = line![
    Seq 1, Reopen, Seq 3, Seq 1, Pass LogicalOr, Call Conjunction Header, Close LogicalOrExpr,
];

/// Conjunction(Plain) = Comparison(Plain) { AndTail(Plain) } .
pub const CONJUNCTION_PLAIN: &[Step] = line![
    Seq 1, Call Comparison Plain, Many [LogicalAnd], Call AndTail Plain,
];

/// Conjunction(Header) = Comparison(Header) { AndTail(Header) } .
pub const CONJUNCTION_HEADER: &[Step] = line![
    Seq 1, Call Comparison Header, Many [LogicalAnd], Call AndTail Header,
];

/// AndTail(Plain) = "&&" Comparison(Plain) .
pub const AND_TAIL_PLAIN: &[Step] = line![
    Seq 1, Reopen, Seq 3, Seq 1, Pass LogicalAnd, Call Comparison Plain, Close LogicalAndExpr,
];

/// AndTail(Header) = "&&" Comparison(Header) .
pub const AND_TAIL_HEADER: &[Step] = line![
    Seq 1, Reopen, Seq 3, Seq 1, Pass LogicalAnd, Call Comparison Header, Close LogicalAndExpr,
];

/// Comparison(Plain) = Sum(Plain) { CompareTail(Plain) } .
pub const COMPARISON_PLAIN: &[Step] = line![
    Seq 1, Call Sum Plain, Many COMPARISONS, Call CompareTail Plain,
];

/// Comparison(Header) = Sum(Header) { CompareTail(Header) } .
pub const COMPARISON_HEADER: &[Step] = line![
    Seq 1, Call Sum Header, Many COMPARISONS, Call CompareTail Header,
];

/// CompareTail(Plain) = "==" Sum(Plain) | "!=" Sum(Plain) | "<" Sum(Plain) | "<=" Sum(Plain) | ">"
///     Sum(Plain) | ">=" Sum(Plain) .
pub const COMPARE_TAIL_PLAIN: &[Step] = line![
    Or 7 [Equal], Seq 1, Reopen, Seq 3, Seq 1, Pass Equal, Call Sum Plain, Close EqualExpr,
    Or 7 [NotEqual], Seq 1, Reopen, Seq 3, Seq 1, Pass NotEqual, Call Sum Plain, Close NotEqualExpr,
    Or 7 [Less], Seq 1, Reopen, Seq 3, Seq 1, Pass Less, Call Sum Plain, Close LessExpr,
    Or 7 [LessEqual], Seq 1, Reopen, Seq 3, Seq 1, Pass LessEqual, Call Sum Plain,
    Close LessEqualExpr, Or 7 [Greater], Seq 1, Reopen, Seq 3, Seq 1, Pass Greater, Call Sum Plain,
    Close GreaterExpr, Seq 1, Reopen, Seq 3, Seq 1, Pass GreaterEqual, Call Sum Plain,
    Close GreaterEqualExpr,
];

/// CompareTail(Header) = "==" Sum(Header) | "!=" Sum(Header) | "<" Sum(Header) | "<=" Sum(Header) |
///     ">" Sum(Header) | ">=" Sum(Header) .
pub const COMPARE_TAIL_HEADER: &[Step] = line![
    Or 7 [Equal], Seq 1, Reopen, Seq 3, Seq 1, Pass Equal, Call Sum Header, Close EqualExpr,
    Or 7 [NotEqual], Seq 1, Reopen, Seq 3, Seq 1, Pass NotEqual, Call Sum Header,
    Close NotEqualExpr, Or 7 [Less], Seq 1, Reopen, Seq 3, Seq 1, Pass Less, Call Sum Header,
    Close LessExpr, Or 7 [LessEqual], Seq 1, Reopen, Seq 3, Seq 1, Pass LessEqual, Call Sum Header,
    Close LessEqualExpr, Or 7 [Greater], Seq 1, Reopen, Seq 3, Seq 1, Pass Greater, Call Sum Header,
    Close GreaterExpr, Seq 1, Reopen, Seq 3, Seq 1, Pass GreaterEqual, Call Sum Header,
    Close GreaterEqualExpr,
];

/// Sum(Plain) = Product(Plain) { AddTail(Plain) } .
pub const SUM_PLAIN: &[Step] = line![
    Seq 1, Call Product Plain, Many SUMS, Call AddTail Plain,
];

/// Sum(Header) = Product(Header) { AddTail(Header) } .
pub const SUM_HEADER: &[Step] = line![
    Seq 1, Call Product Header, Many SUMS, Call AddTail Header,
];

/// AddTail(Plain) = "+" Product(Plain) | "-" Product(Plain) | "|" Product(Plain) | "^"
///     Product(Plain) .
pub const ADD_TAIL_PLAIN: &[Step] = line![
    Or 7 [Add], Seq 1, Reopen, Seq 3, Seq 1, Pass Add, Call Product Plain, Close AddExpr,
    Or 7 [Sub], Seq 1, Reopen, Seq 3, Seq 1, Pass Sub, Call Product Plain, Close SubExpr, Or 7 [Or],
    Seq 1, Reopen, Seq 3, Seq 1, Pass Or, Call Product Plain, Close OrExpr, Seq 1, Reopen, Seq 3,
    Seq 1, Pass Xor, Call Product Plain, Close XorExpr,
];

/// AddTail(Header) = "+" Product(Header) | "-" Product(Header) | "|" Product(Header) | "^"
///     Product(Header) .
pub const ADD_TAIL_HEADER: &[Step] = line![
    Or 7 [Add], Seq 1, Reopen, Seq 3, Seq 1, Pass Add, Call Product Header, Close AddExpr,
    Or 7 [Sub], Seq 1, Reopen, Seq 3, Seq 1, Pass Sub, Call Product Header, Close SubExpr,
    Or 7 [Or], Seq 1, Reopen, Seq 3, Seq 1, Pass Or, Call Product Header, Close OrExpr, Seq 1,
    Reopen, Seq 3, Seq 1, Pass Xor, Call Product Header, Close XorExpr,
];

/// Product(Plain) = Unary(Plain) { MulTail(Plain) } .
pub const PRODUCT_PLAIN: &[Step] = line![
    Seq 1, Call Unary Plain, Many PRODUCTS, Call MulTail Plain,
];

/// Product(Header) = Unary(Header) { MulTail(Header) } .
pub const PRODUCT_HEADER: &[Step] = line![
    Seq 1, Call Unary Header, Many PRODUCTS, Call MulTail Header,
];

/// MulTail(Plain) = "*" Unary(Plain) | "/" Unary(Plain) | "%" Unary(Plain) | "<<" Unary(Plain) |
///     ">>" Unary(Plain) | "&" Unary(Plain) | "&^" Unary(Plain) .
pub const MUL_TAIL_PLAIN: &[Step] = line![
    Or 7 [Mul], Seq 1, Reopen, Seq 3, Seq 1, Pass Mul, Call Unary Plain, Close MulExpr, Or 7 [Quo],
    Seq 1, Reopen, Seq 3, Seq 1, Pass Quo, Call Unary Plain, Close QuoExpr, Or 7 [Rem], Seq 1,
    Reopen, Seq 3, Seq 1, Pass Rem, Call Unary Plain, Close RemExpr, Or 7 [Shl], Seq 1, Reopen,
    Seq 3, Seq 1, Pass Shl, Call Unary Plain, Close ShlExpr, Or 7 [Shr], Seq 1, Reopen, Seq 3,
    Seq 1, Pass Shr, Call Unary Plain, Close ShrExpr, Or 7 [And], Seq 1, Reopen, Seq 3, Seq 1,
    Pass And, Call Unary Plain, Close AndExpr, Seq 1, Reopen, Seq 3, Seq 1, Pass AndNot,
    Call Unary Plain, Close AndNotExpr,
];

/// MulTail(Header) = "*" Unary(Header) | "/" Unary(Header) | "%" Unary(Header) | "<<" Unary(Header)
///     | ">>" Unary(Header) | "&" Unary(Header) | "&^" Unary(Header) .
pub const MUL_TAIL_HEADER: &[Step] = line![
    Or 7 [Mul], Seq 1, Reopen, Seq 3, Seq 1, Pass Mul, Call Unary Header, Close MulExpr, Or 7 [Quo],
    Seq 1, Reopen, Seq 3, Seq 1, Pass Quo, Call Unary Header, Close QuoExpr, Or 7 [Rem], Seq 1,
    Reopen, Seq 3, Seq 1, Pass Rem, Call Unary Header, Close RemExpr, Or 7 [Shl], Seq 1, Reopen,
    Seq 3, Seq 1, Pass Shl, Call Unary Header, Close ShlExpr, Or 7 [Shr], Seq 1, Reopen, Seq 3,
    Seq 1, Pass Shr, Call Unary Header, Close ShrExpr, Or 7 [And], Seq 1, Reopen, Seq 3, Seq 1,
    Pass And, Call Unary Header, Close AndExpr, Seq 1, Reopen, Seq 3, Seq 1, Pass AndNot,
    Call Unary Header, Close AndNotExpr,
];

/// Unary(Plain) = Name [ AfterName ] | Operand { Suffix } | "+" Unary(Plain) | "-" Unary(Plain) |
///     "!" Unary(Plain) | "^" Unary(Plain) | "*" Unary(Plain) | "&" Unary(Plain) | "<-"
///     Unary(Plain) .
pub const UNARY_PLAIN: &[Step] = line![
    Or 5 [Ident], Seq 1, Call Name, Or 1 SUFFIXES_OR_VALUE, Call AfterName, Nothing, Or 4 OPERANDS,
    Seq 1, Call Operand, Many SUFFIXES, Call Suffix, Or 7 [Add], Seq 1, Open, Seq 3, Seq 1,
    Pass Add, Call Unary Plain, Close PlusExpr, Or 7 [Sub], Seq 1, Open, Seq 3, Seq 1, Pass Sub,
    Call Unary Plain, Close MinusExpr, Or 7 [Not], Seq 1, Open, Seq 3, Seq 1, Pass Not,
    Call Unary Plain, Close NotExpr, Or 7 [Xor], Seq 1, Open, Seq 3, Seq 1, Pass Xor,
    Call Unary Plain, Close ComplementExpr, Or 7 [Mul], Seq 1, Open, Seq 3, Seq 1, Pass Mul,
    Call Unary Plain, Close StarExpr, Or 7 [And], Seq 1, Open, Seq 3, Seq 1, Pass And,
    Call Unary Plain, Close AddressExpr, Seq 1, Open, Seq 3, Seq 1, Pass Arrow, Call Unary Plain,
    Close ArrowExpr,
];

/// Unary(Header) = Name { Suffix } | Operand { Suffix } | "+" Unary(Header) | "-" Unary(Header) |
///     "!" Unary(Header) | "^" Unary(Header) | "*" Unary(Header) | "&" Unary(Header) | "<-"
///     Unary(Header) .
pub const UNARY_HEADER: &[Step] = line![
    Or 4 [Ident], Seq 1, Call Name, Many SUFFIXES, Call Suffix, Or 4 OPERANDS, Seq 1, Call Operand,
    Many SUFFIXES, Call Suffix, Or 7 [Add], Seq 1, Open, Seq 3, Seq 1, Pass Add, Call Unary Header,
    Close PlusExpr, Or 7 [Sub], Seq 1, Open, Seq 3, Seq 1, Pass Sub, Call Unary Header,
    Close MinusExpr, Or 7 [Not], Seq 1, Open, Seq 3, Seq 1, Pass Not, Call Unary Header,
    Close NotExpr, Or 7 [Xor], Seq 1, Open, Seq 3, Seq 1, Pass Xor, Call Unary Header,
    Close ComplementExpr, Or 7 [Mul], Seq 1, Open, Seq 3, Seq 1, Pass Mul, Call Unary Header,
    Close StarExpr, Or 7 [And], Seq 1, Open, Seq 3, Seq 1, Pass And, Call Unary Header,
    Close AddressExpr, Seq 1, Open, Seq 3, Seq 1, Pass Arrow, Call Unary Header, Close ArrowExpr,
];

/// Operand = BasicLit | "(" Expr(Plain) ")" | ( BracketType | MapType | StructType ) [ Value ] |
///     ChanType | InterfaceType | FuncOperand .
pub const OPERAND: &[Step] = line![
    Or 1 LITERALS, Call BasicLit, Or 9 [LeftParen], Seq 1, Open, Seq 5, Seq 1, Pass LeftParen,
    Seq 1, Call Expr Plain, Pass RightParen, Close ParenExpr, Or 13 [KwMap KwStruct LeftBracket],
    Seq 5, Or 1 [LeftBracket], Call BracketType, Or 1 [KwMap], Call MapType, Call StructType,
    When Brace 5, Seq 1, Reopen, Seq 1, Call Value, Close CompositeLit, Nothing, Or 1 [KwChan],
    Call ChanType, Or 1 [KwInterface], Call InterfaceType, Call FuncOperand,
];

/// BasicLit = int | float | rune | StringLit .
pub const BASIC_LIT: &[Step] = line![
    Or 5 [Int], Seq 1, Open, Seq 1, Pass Int, Close IntLit, Or 5 [Float], Seq 1, Open, Seq 1,
    Pass Float, Close FloatLit, Or 5 [Rune], Seq 1, Open, Seq 1, Pass Rune, Close RuneLit,
    Call StringLit,
];

/// FuncOperand = "func" Signature [ Block ] .
pub const FUNC_OPERAND: &[Step] = line![
    Seq 1, Open, Seq 1, Pass KwFunc, Seq 1, Call Signature, When Brace 3, Seq 1, Call Block,
    Close FuncLit, Close FuncType,
];

/// AfterName = "." ( "(" ( "type" ")" | Expr(Plain) ")" ) { Suffix } | Name [ AfterSelector ] ) |
///     "[" ( ":" ( "]" | Expr(Plain) ( "]" | ":" Expr(Plain) "]" ) ) { Suffix } | Expr(Plain)
///     ( [ More(Indexes) ] "]" [ AfterIndex ] | ":" ( "]" | Expr(Plain) ( "]" | ":" Expr(Plain)
///     "]" ) ) { Suffix } ) ) | ( "(" CallRest | Value ) { Suffix } .
pub const AFTER_NAME: &[Step] = line![
    Or 28 [Dot], Seq 1, Reopen, Seq 1, Pass Dot, Or 16 [LeftParen], Seq 1, Pass LeftParen, Seq 11,
    Or 5 [KwType], Seq 1, Pass KwType, Seq 1, Pass RightParen, Close TypeGuardExpr, Seq 1,
    Call Expr Plain, Seq 1, Pass RightParen, Close TypeAssertExpr, Many SUFFIXES, Call Suffix,
    Seq 1, Call Name, Seq 1, Close SelectorExpr, Or 1 SUFFIXES_OR_VALUE, Call AfterSelector,
    Nothing, Or 63 [LeftBracket], Seq 1, Reopen, Seq 1, Pass LeftBracket, Or 22 [Colon], Seq 19,
    Seq 1, Pass Colon, Or 3 [RightBracket], Seq 1, Pass RightBracket, Close SliceAllExpr, Seq 1,
    Call Expr Plain, Or 3 [RightBracket], Seq 1, Pass RightBracket, Close SliceToExpr, Seq 1,
    Pass Colon, Seq 1, Call Expr Plain, Seq 1, Pass RightBracket, Close FullSliceToExpr,
    Many SUFFIXES, Call Suffix, Seq 1, Call Expr Plain, Or 11 [Comma RightBracket], Seq 3,
    Or 1 [Comma], Call More Indexes, Nothing, Seq 1, Pass RightBracket, Seq 1, Close IndexExpr,
    Or 1 SUFFIXES_OR_VALUE, Call AfterIndex, Nothing, Seq 19, Seq 1, Pass Colon,
    Or 3 [RightBracket], Seq 1, Pass RightBracket, Close SliceFromExpr, Seq 1, Call Expr Plain,
    Or 3 [RightBracket], Seq 1, Pass RightBracket, Close SliceExpr, Seq 1, Pass Colon, Seq 1,
    Call Expr Plain, Seq 1, Pass RightBracket, Close FullSliceExpr, Many SUFFIXES, Call Suffix,
    Seq 11, Or 5 [LeftParen], Seq 1, Reopen, Seq 1, Pass LeftParen, Call CallRest, Seq 1, Reopen,
    Seq 1, Call Value, Close CompositeLit, Many SUFFIXES, Call Suffix,
];

/// AfterSelector = "." ( "(" ( "type" ")" | Expr(Plain) ")" ) { Suffix } | Name { Suffix } ) | "["
///     ( ":" ( "]" | Expr(Plain) ( "]" | ":" Expr(Plain) "]" ) ) { Suffix } | Expr(Plain)
///     ( [ More(Indexes) ] "]" [ AfterIndex ] | ":" ( "]" | Expr(Plain) ( "]" | ":" Expr(Plain)
///     "]" ) ) { Suffix } ) ) | ( "(" CallRest | Value ) { Suffix } .
pub const AFTER_SELECTOR: &[Step] = line![
    Or 27 [Dot], Seq 1, Reopen, Seq 1, Pass Dot, Or 16 [LeftParen], Seq 1, Pass LeftParen, Seq 11,
    Or 5 [KwType], Seq 1, Pass KwType, Seq 1, Pass RightParen, Close TypeGuardExpr, Seq 1,
    Call Expr Plain, Seq 1, Pass RightParen, Close TypeAssertExpr, Many SUFFIXES, Call Suffix,
    Seq 1, Call Name, Seq 1, Close SelectorExpr, Many SUFFIXES, Call Suffix, Or 63 [LeftBracket],
    Seq 1, Reopen, Seq 1, Pass LeftBracket, Or 22 [Colon], Seq 19, Seq 1, Pass Colon,
    Or 3 [RightBracket], Seq 1, Pass RightBracket, Close SliceAllExpr, Seq 1, Call Expr Plain,
    Or 3 [RightBracket], Seq 1, Pass RightBracket, Close SliceToExpr, Seq 1, Pass Colon, Seq 1,
    Call Expr Plain, Seq 1, Pass RightBracket, Close FullSliceToExpr, Many SUFFIXES, Call Suffix,
    Seq 1, Call Expr Plain, Or 11 [Comma RightBracket], Seq 3, Or 1 [Comma], Call More Indexes,
    Nothing, Seq 1, Pass RightBracket, Seq 1, Close IndexExpr, Or 1 SUFFIXES_OR_VALUE,
    Call AfterIndex, Nothing, Seq 19, Seq 1, Pass Colon, Or 3 [RightBracket], Seq 1,
    Pass RightBracket, Close SliceFromExpr, Seq 1, Call Expr Plain, Or 3 [RightBracket], Seq 1,
    Pass RightBracket, Close SliceExpr, Seq 1, Pass Colon, Seq 1, Call Expr Plain, Seq 1,
    Pass RightBracket, Close FullSliceExpr, Many SUFFIXES, Call Suffix, Seq 11, Or 5 [LeftParen],
    Seq 1, Reopen, Seq 1, Pass LeftParen, Call CallRest, Seq 1, Reopen, Seq 1, Call Value,
    Close CompositeLit, Many SUFFIXES, Call Suffix,
];

/// AfterIndex = ( Suffix | Value ) { Suffix } .
pub const AFTER_INDEX: &[Step] = line![
    Seq 7, Or 1 SUFFIXES, Call Suffix, Seq 1, Reopen, Seq 1, Call Value, Close CompositeLit,
    Many SUFFIXES, Call Suffix,
];

/// Suffix = "." ( "(" ( "type" ")" | Expr(Plain) ")" ) | Name ) | "[" ( ":" ( "]" | Expr(Plain)
///     ( "]" | ":" Expr(Plain) "]" ) ) | Expr(Plain) ( [ More(Indexes) ] "]" | ":" ( "]" |
///     Expr(Plain) ( "]" | ":" Expr(Plain) "]" ) ) ) ) | "(" CallRest .
pub const SUFFIX: &[Step] = line![
    Or 25 [Dot], Seq 1, Reopen, Seq 1, Pass Dot, Or 15 [LeftParen], Seq 1, Pass LeftParen, Seq 11,
    Or 5 [KwType], Seq 1, Pass KwType, Seq 1, Pass RightParen, Close TypeGuardExpr, Seq 1,
    Call Expr Plain, Seq 1, Pass RightParen, Close TypeAssertExpr, Nothing, Seq 1, Call Name, Seq 1,
    Close SelectorExpr, Nothing, Or 59 [LeftBracket], Seq 1, Reopen, Seq 1, Pass LeftBracket,
    Or 21 [Colon], Seq 19, Seq 1, Pass Colon, Or 3 [RightBracket], Seq 1, Pass RightBracket,
    Close SliceAllExpr, Seq 1, Call Expr Plain, Or 3 [RightBracket], Seq 1, Pass RightBracket,
    Close SliceToExpr, Seq 1, Pass Colon, Seq 1, Call Expr Plain, Seq 1, Pass RightBracket,
    Close FullSliceToExpr, Nothing, Seq 1, Call Expr Plain, Or 9 [Comma RightBracket], Seq 3,
    Or 1 [Comma], Call More Indexes, Nothing, Seq 1, Pass RightBracket, Seq 1, Close IndexExpr,
    Nothing, Seq 19, Seq 1, Pass Colon, Or 3 [RightBracket], Seq 1, Pass RightBracket,
    Close SliceFromExpr, Seq 1, Call Expr Plain, Or 3 [RightBracket], Seq 1, Pass RightBracket,
    Close SliceExpr, Seq 1, Pass Colon, Seq 1, Call Expr Plain, Seq 1, Pass RightBracket,
    Close FullSliceExpr, Nothing, Seq 1, Reopen, Seq 1, Pass LeftParen, Call CallRest,
];

/// CallRest = ")" | Expr(Plain) AfterArg .
pub const CALL_REST: &[Step] = line![
    Or 3 [RightParen], Seq 1, Pass RightParen, Close CallExpr, Seq 1, Call Expr Plain,
    Call AfterArg,
];

/// AfterArg = ")" | "..." [ "," ] ")" | "," CallRest .
pub const AFTER_ARG: &[Step] = line![
    Or 3 [RightParen], Seq 1, Pass RightParen, Close CallExpr, Or 9 [Ellipsis], Seq 1,
    Pass Ellipsis, Seq 3, Or 1 [Comma], Pass Comma, Nothing, Seq 1, Pass RightParen,
    Close SpreadCallExpr, Seq 1, Pass Comma, Call CallRest,
];

/// Value = "{" [ Element [ More(Elements) ] ] "}" .
pub const VALUE: &[Step] = line![
    Seq 1, Open, Seq 11, Seq 1, Pass LeftBrace, Seq 7, Or 5 ELEMENTS, Seq 1, Call Element,
    Or 1 [Comma], Call More Elements, Nothing, Nothing, Pass RightBrace, Close LiteralValue,
];

/// Element = ElementPart [ ":" ElementPart ] .
pub const ELEMENT: &[Step] = line![
    Seq 1, Call ElementPart, Or 7 [Colon], Seq 1, Reopen, Seq 3, Seq 1, Pass Colon,
    Call ElementPart, Close KeyValueExpr, Nothing,
];

/// ElementPart = Expr(Plain) | Value .
pub const ELEMENT_PART: &[Step] = line![
    Or 1 EXPRESSIONS, Call Expr Plain, Call Value,
];

/// ExprNoName = ( Operand { Suffix } | "+" Unary(Plain) | "-" Unary(Plain) | "!" Unary(Plain) | "^"
///     Unary(Plain) | "*" Unary(Plain) | "&" Unary(Plain) | "<-" Unary(Plain) ) Tails .
pub const EXPR_NO_NAME: &[Step] = line![
    Seq 60, Or 4 OPERANDS, Seq 1, Call Operand, Many SUFFIXES, Call Suffix, Or 7 [Add], Seq 1, Open,
    Seq 3, Seq 1, Pass Add, Call Unary Plain, Close PlusExpr, Or 7 [Sub], Seq 1, Open, Seq 3, Seq 1,
    Pass Sub, Call Unary Plain, Close MinusExpr, Or 7 [Not], Seq 1, Open, Seq 3, Seq 1, Pass Not,
    Call Unary Plain, Close NotExpr, Or 7 [Xor], Seq 1, Open, Seq 3, Seq 1, Pass Xor,
    Call Unary Plain, Close ComplementExpr, Or 7 [Mul], Seq 1, Open, Seq 3, Seq 1, Pass Mul,
    Call Unary Plain, Close StarExpr, Or 7 [And], Seq 1, Open, Seq 3, Seq 1, Pass And,
    Call Unary Plain, Close AddressExpr, Seq 1, Open, Seq 3, Seq 1, Pass Arrow, Call Unary Plain,
    Close ArrowExpr, Call Tails,
];

/// Tails = { MulTail(Plain) } { AddTail(Plain) } { CompareTail(Plain) } { AndTail(Plain) }
///     { OrTail(Plain) } .
pub const TAILS: &[Step] = line![
    Seq 2, Many PRODUCTS, Call MulTail Plain, Seq 2, Many SUMS, Call AddTail Plain, Seq 2,
    Many COMPARISONS, Call CompareTail Plain, Seq 2, Many [LogicalAnd], Call AndTail Plain,
    Many [LogicalOr], Call OrTail Plain,
];

/// CallOrDot = "." ( "(" ( "type" ")" | Expr(Plain) ")" ) { Suffix } | Name [ AfterSelector ] ) |
///     "(" CallRest { Suffix } .
pub const CALL_OR_DOT: &[Step] = line![
    Or 28 [Dot], Seq 1, Reopen, Seq 1, Pass Dot, Or 16 [LeftParen], Seq 1, Pass LeftParen, Seq 11,
    Or 5 [KwType], Seq 1, Pass KwType, Seq 1, Pass RightParen, Close TypeGuardExpr, Seq 1,
    Call Expr Plain, Seq 1, Pass RightParen, Close TypeAssertExpr, Many SUFFIXES, Call Suffix,
    Seq 1, Call Name, Seq 1, Close SelectorExpr, Or 1 SUFFIXES_OR_VALUE, Call AfterSelector,
    Nothing, Seq 5, Seq 1, Reopen, Seq 1, Pass LeftParen, Call CallRest, Many SUFFIXES, Call Suffix,
];
