// Lines of the productions of `type_line`. Written by bench/lines.py.
//
// Above each line its production: what a look ahead allows is taken, and where a type may be read as an expression it
// has to be written as a type is (docs/GRAMMAR.md, "How each choice is settled"). ";" is also the inserted one.
use crate::line::{Asked, Step};
use crate::line_words::line;
use crate::start_sets::{PARAMETERS, SEMICOLONS, TERMS, TYPES, TYPES_NO_BRACKET, TYPES_NO_NAME};
use go_tree::{Form, Items, NodeKind, Production, TokenKind};

/// AnyType = TypeName | ParenType | StarType | BracketType | RecvChan | MapType | ChanType |
///     FuncType | StructType | InterfaceType .
pub const ANY_TYPE: &[Step] = line![
    Or 1 [Ident], Call TypeName, Or 1 [LeftParen], Call ParenType, Or 1 [Mul], Call StarType,
    Or 1 [LeftBracket], Call BracketType, Or 1 [Arrow], Call RecvChan, Or 1 [KwMap], Call MapType,
    Or 1 [KwChan], Call ChanType, Or 1 [KwFunc], Call FuncType, Or 1 [KwStruct], Call StructType,
    Call InterfaceType,
];

/// TypeNoBracket = TypeName | ParenType | StarType | RecvChan | MapType | ChanType | FuncType |
///     StructType | InterfaceType .
pub const TYPE_NO_BRACKET: &[Step] = line![
    Or 1 [Ident], Call TypeName, Or 1 [LeftParen], Call ParenType, Or 1 [Mul], Call StarType,
    Or 1 [Arrow], Call RecvChan, Or 1 [KwMap], Call MapType, Or 1 [KwChan], Call ChanType,
    Or 1 [KwFunc], Call FuncType, Or 1 [KwStruct], Call StructType, Call InterfaceType,
];

/// TypeNoName = ParenType | StarType | BracketType | RecvChan | MapType | ChanType | FuncType |
///     StructType | InterfaceType .
pub const TYPE_NO_NAME: &[Step] = line![
    Or 1 [LeftParen], Call ParenType, Or 1 [Mul], Call StarType, Or 1 [LeftBracket],
    Call BracketType, Or 1 [Arrow], Call RecvChan, Or 1 [KwMap], Call MapType, Or 1 [KwChan],
    Call ChanType, Or 1 [KwFunc], Call FuncType, Or 1 [KwStruct], Call StructType,
    Call InterfaceType,
];

/// ResultType = TypeName | StarType | BracketType | MapType | ChanType | FuncType | StructType |
///     InterfaceType .
pub const RESULT_TYPE: &[Step] = line![
    Or 1 [Ident], Call TypeName, Or 1 [Mul], Call StarType, Or 1 [LeftBracket], Call BracketType,
    Or 1 [KwMap], Call MapType, Or 1 [KwChan], Call ChanType, Or 1 [KwFunc], Call FuncType,
    Or 1 [KwStruct], Call StructType, Call InterfaceType,
];

/// ChanElem = TypeName | ParenType | StarType | BracketType | MapType | ChanType | FuncType |
///     StructType | InterfaceType .
pub const CHAN_ELEM: &[Step] = line![
    Or 1 [Ident], Call TypeName, Or 1 [LeftParen], Call ParenType, Or 1 [Mul], Call StarType,
    Or 1 [LeftBracket], Call BracketType, Or 1 [KwMap], Call MapType, Or 1 [KwChan], Call ChanType,
    Or 1 [KwFunc], Call FuncType, Or 1 [KwStruct], Call StructType, Call InterfaceType,
];

/// TypeName = Name [ "." Name ] [ TypeArgs ] .
pub const TYPE_NAME: &[Step] = line![
    Seq 1, Call Name, Seq 9, When Qualifier 7, Seq 1, Reopen, Seq 3, Seq 1, Pass Dot, Call Name,
    Close SelectorExpr, Nothing, When Bracket 1, Call TypeArgs, Nothing,
];

/// TypeArgs = "[" AnyType [ More(Types) ] "]" .
pub const TYPE_ARGS: &[Step] = line![
    Seq 1, Reopen, Seq 9, Seq 1, Pass LeftBracket, Seq 1, Call AnyType, Seq 3, Or 1 [Comma],
    Call More Types, Nothing, Pass RightBracket, Close IndexExpr,
];

/// ParenType = "(" AnyType ")" .
pub const PAREN_TYPE: &[Step] = line![
    Seq 1, Open, Seq 5, Seq 1, Pass LeftParen, Seq 1, Call AnyType, Pass RightParen,
    Close ParenExpr,
];

/// StarType = "*" AnyType .
pub const STAR_TYPE: &[Step] = line![
    Seq 1, Open, Seq 3, Seq 1, Pass Mul, Call AnyType, Close StarExpr,
];

/// BracketType = "[" ( "]" AnyType | "..." "]" AnyType | Expr(Plain) "]" AnyType ) .
pub const BRACKET_TYPE: &[Step] = line![
    Seq 1, Open, Seq 1, Pass LeftBracket, Or 5 [RightBracket], Seq 1, Pass RightBracket, Seq 1,
    Call AnyType, Close SliceType, Or 7 [Ellipsis], Seq 1, Pass Ellipsis, Seq 1, Pass RightBracket,
    Seq 1, Call AnyType, Close EllipsisArrayType, Seq 1, Call Expr Plain, Seq 1, Pass RightBracket,
    Seq 1, Call AnyType, Close ArrayType,
];

/// MapType = "map" "[" AnyType "]" AnyType .
pub const MAP_TYPE: &[Step] = line![
    Seq 1, Open, Seq 9, Seq 1, Pass KwMap, Seq 1, Pass LeftBracket, Seq 1, Call AnyType, Seq 1,
    Pass RightBracket, Call AnyType, Close MapType,
];

/// RecvChan = "<-" "chan" AnyType .
pub const RECV_CHAN: &[Step] = line![
    Seq 1, Open, Seq 9, Seq 1, Pass Arrow, Seq 1, Open, Seq 3, Seq 1, Pass KwChan, Call AnyType,
    Close ChanType, Close ArrowExpr,
];

/// ChanType = "chan" ( "<-" AnyType | ChanElem ) .
pub const CHAN_TYPE: &[Step] = line![
    Seq 1, Open, Seq 11, Seq 1, Pass KwChan, Or 7 [Arrow], Seq 1, Open, Seq 3, Seq 1, Pass Arrow,
    Call AnyType, Close ArrowExpr, Call ChanElem, Close ChanType,
];

/// FuncType = "func" Signature .
pub const FUNC_TYPE: &[Step] = line![
    Seq 1, Open, Seq 3, Seq 1, Pass KwFunc, Call Signature, Close FuncType,
];

/// Signature = Params [ Params | ResultType | RecvChan ] .
pub const SIGNATURE: &[Step] = line![
    Seq 1, Open, Seq 9, Seq 1, Call Params, When Result 3, Or 1 [LeftParen], Call Params,
    Call ResultType, When Receive 1, Call RecvChan, Nothing, Close Signature,
];

/// Params = "(" [ Param [ More(Parameters) ] ] ")" .
pub const PARAMS: &[Step] = line![
    Seq 1, Open, Seq 11, Seq 1, Pass LeftParen, Seq 7, Or 5 PARAMETERS, Seq 1, Call Param,
    Or 1 [Comma], Call More Parameters, Nothing, Nothing, Pass RightParen, Close Params,
];

/// Param = "..." AnyType | TypeNoName | Name ParamAfterName .
pub const PARAM: &[Step] = line![
    Seq 1, Open, Or 5 [Ellipsis], Seq 1, Pass Ellipsis, Seq 1, Call AnyType, Close UnnamedVariadic,
    Or 3 TYPES_NO_NAME, Seq 1, Call TypeNoName, Close UnnamedParam, Seq 1, Call Name,
    Call ParamAfterName,
];

/// ParamAfterName = [ "..." AnyType | TypeNoBracket | "." Name [ TypeArgs ] | "[" ( "]" AnyType |
///     "..." "]" AnyType | Expr(Plain) ( "]" [ AnyType ] | "," [ AnyType [ More(Types) ] ]
///     "]" ) ) ] .
pub const PARAM_AFTER_NAME: &[Step] = line![
    Or 5 [Ellipsis], Seq 1, Pass Ellipsis, Seq 1, Call AnyType, Close VariadicParam,
    Or 3 TYPES_NO_BRACKET, Seq 1, Call TypeNoBracket, Close Param, Or 13 [Dot], Seq 11, Seq 7,
    Seq 1, Reopen, Seq 3, Seq 1, Pass Dot, Call Name, Close SelectorExpr, Or 1 [LeftBracket],
    Call TypeArgs, Nothing, Close UnnamedParam, Or 59 [LeftBracket], Seq 1, Open, Seq 1,
    Pass LeftBracket, Or 7 [RightBracket], Seq 1, Pass RightBracket, Seq 1, Call AnyType, Seq 1,
    Close SliceType, Close Param, Or 9 [Ellipsis], Seq 1, Pass Ellipsis, Seq 1, Pass RightBracket,
    Seq 1, Call AnyType, Seq 1, Close EllipsisArrayType, Close Param, Seq 1, Call Expr Plain,
    Or 15 [RightBracket], Seq 1, Pass RightBracket, Or 5 TYPES, Seq 1, Call AnyType, Seq 1,
    Close ArrayType, Close Param, Seq 1, CheckType, Seq 1, Adopt, Seq 1, Close IndexExpr,
    Close UnnamedParam, Seq 1, CheckType, Seq 1, Pass Comma, Seq 7, Or 5 TYPES, Seq 1, Call AnyType,
    Or 1 [Comma], Call More Types, Nothing, Nothing, Seq 1, Pass RightBracket, Seq 1, Adopt, Seq 1,
    Close IndexExpr, Close UnnamedParam, Close UnnamedParam,
];

/// StructType = "struct" "{" [ Field [ More(Fields) ] ] "}" .
pub const STRUCT_TYPE: &[Step] = line![
    Seq 1, Open, Seq 13, Seq 1, Pass KwStruct, Seq 1, Pass LeftBrace, Seq 7, Or 5 [Ident Mul],
    Seq 1, Call Field, Or 1 SEMICOLONS, Call More Fields, Nothing, Nothing, Pass RightBrace,
    Close StructType,
];

/// Field = "*" TypeName [ StringLit ] | Name FieldAfterName .
pub const FIELD: &[Step] = line![
    Seq 1, Open, Or 9 [Mul], Seq 1, Pass Mul, Seq 1, Call TypeName, Seq 3, Or 1 [Text],
    Call StringLit, Nothing, Close EmbeddedPointer, Seq 1, Call Name, Call FieldAfterName,
];

/// FieldAfterName = "," Name { "," Name } AnyType [ StringLit ] | TypeNoBracket [ StringLit ] | "."
///     Name [ TypeArgs ] [ StringLit ] | "[" ( "]" AnyType [ StringLit ] | "..." "]" AnyType
///     [ StringLit ] | Expr(Plain) ( "]" ( AnyType [ StringLit ] | [ StringLit ] ) | "," [ AnyType
///     [ More(Types) ] ] "]" [ StringLit ] ) ) | [ StringLit ] .
pub const FIELD_AFTER_NAME: &[Step] = line![
    Or 16 [Comma], Seq 1, Pass Comma, Seq 1, Call Name, Seq 4, Many [Comma], Seq 1, Pass Comma,
    Call Name, Seq 1, Call AnyType, Seq 3, Or 1 [Text], Call StringLit, Nothing, Close Field,
    Or 7 TYPES_NO_BRACKET, Seq 1, Call TypeNoBracket, Seq 3, Or 1 [Text], Call StringLit, Nothing,
    Close Field, Or 17 [Dot], Seq 11, Seq 7, Seq 1, Reopen, Seq 3, Seq 1, Pass Dot, Call Name,
    Close SelectorExpr, Or 1 [LeftBracket], Call TypeArgs, Nothing, Seq 3, Or 1 [Text],
    Call StringLit, Nothing, Close EmbeddedField, Or 79 [LeftBracket], Seq 1, Open, Seq 1,
    Pass LeftBracket, Or 11 [RightBracket], Seq 1, Pass RightBracket, Seq 1, Call AnyType, Seq 1,
    Close SliceType, Seq 3, Or 1 [Text], Call StringLit, Nothing, Close Field, Or 13 [Ellipsis],
    Seq 1, Pass Ellipsis, Seq 1, Pass RightBracket, Seq 1, Call AnyType, Seq 1,
    Close EllipsisArrayType, Seq 3, Or 1 [Text], Call StringLit, Nothing, Close Field, Seq 1,
    Call Expr Plain, Or 23 [RightBracket], Seq 1, Pass RightBracket, Or 9 TYPES, Seq 1,
    Call AnyType, Seq 1, Close ArrayType, Seq 3, Or 1 [Text], Call StringLit, Nothing, Close Field,
    Seq 1, CheckType, Seq 1, Adopt, Seq 1, Close IndexExpr, Seq 3, Or 1 [Text], Call StringLit,
    Nothing, Close EmbeddedField, Seq 1, CheckType, Seq 1, Pass Comma, Seq 7, Or 5 TYPES, Seq 1,
    Call AnyType, Or 1 [Comma], Call More Types, Nothing, Nothing, Seq 1, Pass RightBracket, Seq 1,
    Adopt, Seq 1, Close IndexExpr, Seq 3, Or 1 [Text], Call StringLit, Nothing, Close EmbeddedField,
    Seq 3, Or 1 [Text], Call StringLit, Nothing, Close EmbeddedField,
];

/// InterfaceType = "interface" "{" [ Elem [ More(Elems) ] ] "}" .
pub const INTERFACE_TYPE: &[Step] = line![
    Seq 1, Open, Seq 13, Seq 1, Pass KwInterface, Seq 1, Pass LeftBrace, Seq 7, Or 5 TERMS, Seq 1,
    Call Elem, Or 1 SEMICOLONS, Call More Elems, Nothing, Nothing, Pass RightBrace,
    Close InterfaceType,
];

/// Elem = Name ( Signature | [ "." Name ] [ TypeArgs ] { "|" Term } ) | ( TypeNoName | "~"
///     AnyType ) { "|" Term } .
pub const ELEM: &[Step] = line![
    Seq 1, Open, Or 26 [Ident], Seq 1, Call Name, Or 3 [LeftParen], Seq 1, Call Signature,
    Close MethodElem, Seq 13, Seq 9, When Qualifier 7, Seq 1, Reopen, Seq 3, Seq 1, Pass Dot,
    Call Name, Close SelectorExpr, Nothing, When Bracket 1, Call TypeArgs, Nothing, Seq 4,
    Many [Or], Seq 1, Pass Or, Call Term, Close Union, Seq 9, Or 1 TYPES_NO_NAME, Call TypeNoName,
    Seq 1, Open, Seq 3, Seq 1, Pass Tilde, Call AnyType, Close TildeType, Seq 4, Many [Or], Seq 1,
    Pass Or, Call Term, Close Union,
];

/// Union = Term { "|" Term } .
pub const UNION: &[Step] = line![
    Seq 1, Open, Seq 6, Seq 1, Call Term, Many [Or], Seq 1, Pass Or, Call Term, Close Union,
];

/// Term = AnyType | "~" AnyType .
pub const TERM: &[Step] = line![
    Or 1 TYPES, Call AnyType, Seq 1, Open, Seq 3, Seq 1, Pass Tilde, Call AnyType, Close TildeType,
];
