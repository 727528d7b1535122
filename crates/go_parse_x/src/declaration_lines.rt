// Lines of the productions of `declaration_line`. Written by bench/lines.py.
//
// Above each line its production: what a look ahead allows is taken, and where a type may be read as an expression it
// has to be written as a type is (docs/GRAMMAR.md, "How each choice is settled"). ";" is also the inserted one.
use crate::line::Step;
use crate::line_words::line;
use crate::start_sets::{
    ELEMENTS, EXPRESSIONS, LENGTH_TAILS, NAMELESS, PARAMETERS, SEMICOLONS, TERMS, TYPE_WORDS,
    TYPES, TYPES_NO_BRACKET,
};
use go_tree::{Form, Items, NodeKind, Production, TokenKind};

/// Decl = "const" ( ConstSpec | "(" [ ConstSpec [ More(ConstSpecs) ] ] ")" ) | "var" ( VarSpec |
///     "(" [ VarSpec [ More(VarSpecs) ] ] ")" ) | "type" ( TypeSpec | "(" [ TypeSpec
///     [ More(TypeSpecs) ] ] ")" ) .
pub const DECL: &[Step] = line![
    Or 21 [KwConst], Seq 1, Open, Seq 1, Pass KwConst, Or 3 [Ident], Seq 1, Call ConstSpec,
    Close ConstDecl, Seq 11, Seq 1, Pass LeftParen, Seq 7, Or 5 [Ident], Seq 1, Call ConstSpec,
    Or 1 SEMICOLONS, Call More ConstSpecs, Nothing, Nothing, Pass RightParen, Close ConstGroup,
    Or 21 [KwVar], Seq 1, Open, Seq 1, Pass KwVar, Or 3 [Ident], Seq 1, Call VarSpec, Close VarDecl,
    Seq 11, Seq 1, Pass LeftParen, Seq 7, Or 5 [Ident], Seq 1, Call VarSpec, Or 1 SEMICOLONS,
    Call More VarSpecs, Nothing, Nothing, Pass RightParen, Close VarGroup, Seq 1, Open, Seq 1,
    Pass KwType, Or 3 [Ident], Seq 1, Call TypeSpec, Close TypeDecl, Seq 11, Seq 1, Pass LeftParen,
    Seq 7, Or 5 [Ident], Seq 1, Call TypeSpec, Or 1 SEMICOLONS, Call More TypeSpecs, Nothing,
    Nothing, Pass RightParen, Close TypeGroup,
];

/// ConstSpec = Idents [ [ AnyType ] "=" Exprs(Plain) ] .
pub const CONST_SPEC: &[Step] = line![
    Seq 1, Open, Seq 11, Seq 1, Call Idents,
    Or 7 [Ident KwChan KwFunc KwInterface KwMap KwStruct Mul Arrow Assign LeftParen LeftBracket],
    Seq 3, Or 1 TYPES, Call AnyType, Nothing, Seq 1, Pass Assign, Call Exprs Plain, Nothing,
    Close ConstSpec,
];

/// VarSpec = Idents ( AnyType [ "=" Exprs(Plain) ] | "=" Exprs(Plain) ) .
pub const VAR_SPEC: &[Step] = line![
    Seq 1, Open, Seq 13, Seq 1, Call Idents, Or 7 TYPES, Seq 1, Call AnyType, Or 3 [Assign], Seq 1,
    Pass Assign, Call Exprs Plain, Nothing, Seq 1, Pass Assign, Call Exprs Plain, Close VarSpec,
];

/// Idents = Name { "," Name } .
pub const IDENTS: &[Step] = line![
    Seq 1, Open, Seq 6, Seq 1, Call Name, Many [Comma], Seq 1, Pass Comma, Call Name,
    Close IdentList,
];

/// Exprs(Plain) = Expr(Plain) { "," Expr(Plain) } .
pub const EXPRS_PLAIN: &[Step] = line![
    Seq 1, Open, Seq 6, Seq 1, Call Expr Plain, Many [Comma], Seq 1, Pass Comma, Call Expr Plain,
    Close ExprList,
];

/// Exprs(Header) = Expr(Header) { "," Expr(Header) } .
pub const EXPRS_HEADER: &[Step] = line![
    Seq 1, Open, Seq 6, Seq 1, Call Expr Header, Many [Comma], Seq 1, Pass Comma, Call Expr Header,
    Close ExprList,
];

/// TypeSpec = Name ( "=" AnyType | TypeNoBracket | "[" TypeSpecBracket ) .
pub const TYPE_SPEC: &[Step] = line![
    Seq 1, Open, Seq 1, Call Name, Or 5 [Assign], Seq 1, Pass Assign, Seq 1, Call AnyType,
    Close AliasSpec, Or 3 TYPES_NO_BRACKET, Seq 1, Call TypeNoBracket, Close TypeSpec, Seq 1, Open,
    Seq 1, Pass LeftBracket, Call TypeSpecBracket,
];

/// TypeSpecBracket = "]" AnyType | "..." "]" AnyType | ExprNoName "]" AnyType | Name
///     ( [ CallOrDot ] Tails "]" AnyType | ( "," Name { "," Name } Union | ConstraintAfterName )
///     [ More(TypeParamGroups) ] "]" ( "=" AnyType | AnyType ) ) .
pub const TYPE_SPEC_BRACKET: &[Step] = line![
    Or 7 [RightBracket], Seq 1, Pass RightBracket, Seq 1, Call AnyType, Seq 1, Close SliceType,
    Close TypeSpec, Or 9 [Ellipsis], Seq 1, Pass Ellipsis, Seq 1, Pass RightBracket, Seq 1,
    Call AnyType, Seq 1, Close EllipsisArrayType, Close TypeSpec, Or 9 NAMELESS, Seq 1,
    Call ExprNoName, Seq 1, Pass RightBracket, Seq 1, Call AnyType, Seq 1, Close ArrayType,
    Close TypeSpec, Seq 1, Call Name, Or 13 LENGTH_TAILS, Seq 3, Or 1 [LeftParen Dot],
    Call CallOrDot, Nothing, Seq 1, Call Tails, Seq 1, Pass RightBracket, Seq 1, Call AnyType,
    Seq 1, Close ArrayType, Close TypeSpec, Seq 1, Reopen, Seq 12, Or 10 [Comma], Seq 1, Pass Comma,
    Seq 1, Call Name, Seq 4, Many [Comma], Seq 1, Pass Comma, Call Name, Call Union,
    Call ConstraintAfterName, Seq 1, Close TypeParam, Seq 3, Or 1 [Comma],
    Call More TypeParamGroups, Nothing, Seq 1, Pass RightBracket, Seq 1, Close TypeParams,
    Or 5 [Assign], Seq 1, Pass Assign, Seq 1, Call AnyType, Close GenericAliasSpec, Seq 1,
    Call AnyType, Close GenericTypeSpec,
];

/// TypeParams = "[" TypeParam [ More(TypeParamGroups) ] "]" .
pub const TYPE_PARAMS: &[Step] = line![
    Seq 1, Open, Seq 9, Seq 1, Pass LeftBracket, Seq 1, Call TypeParam, Seq 3, Or 1 [Comma],
    Call More TypeParamGroups, Nothing, Pass RightBracket, Close TypeParams,
];

/// TypeParam = Name { "," Name } Union .
pub const TYPE_PARAM: &[Step] = line![
    Seq 1, Open, Seq 8, Seq 1, Call Name, Seq 4, Many [Comma], Seq 1, Pass Comma, Call Name,
    Call Union, Close TypeParam,
];

/// ConstraintAfterName = ( TypeName | BracketType | RecvChan | MapType | ChanType | FuncType |
///     StructType | InterfaceType | "~" AnyType ) { "|" Term } .
pub const CONSTRAINT_AFTER_NAME: &[Step] = line![
    Seq 1, Open, Seq 28, Seq 23, Or 1 [Ident], Call TypeName, Or 1 [LeftBracket], Call BracketType,
    Or 1 [Arrow], Call RecvChan, Or 9 TYPE_WORDS, Or 1 [KwMap], Call MapType, Or 1 [KwChan],
    Call ChanType, Or 1 [KwFunc], Call FuncType, Or 1 [KwStruct], Call StructType,
    Call InterfaceType, Seq 1, Open, Seq 3, Seq 1, Pass Tilde, Call AnyType, Close TildeType,
    Many [Or], Seq 1, Pass Or, Call Term, Close Union,
];

/// More(ImportSpecs) = ";" [ ImportSpec [ More(ImportSpecs) ] ] .
pub const MORE_IMPORT_SPECS: &[Step] = line![
    Seq 3, Or 1 [Semicolon], Pass Semicolon, Pass InsertedSemicolon, Or 5 [Ident Text Dot], Seq 1,
    Call ImportSpec, Or 1 SEMICOLONS, Call More ImportSpecs, Nothing, Nothing,
];

/// More(ConstSpecs) = ";" [ ConstSpec [ More(ConstSpecs) ] ] .
pub const MORE_CONST_SPECS: &[Step] = line![
    Seq 3, Or 1 [Semicolon], Pass Semicolon, Pass InsertedSemicolon, Or 5 [Ident], Seq 1,
    Call ConstSpec, Or 1 SEMICOLONS, Call More ConstSpecs, Nothing, Nothing,
];

/// More(VarSpecs) = ";" [ VarSpec [ More(VarSpecs) ] ] .
pub const MORE_VAR_SPECS: &[Step] = line![
    Seq 3, Or 1 [Semicolon], Pass Semicolon, Pass InsertedSemicolon, Or 5 [Ident], Seq 1,
    Call VarSpec, Or 1 SEMICOLONS, Call More VarSpecs, Nothing, Nothing,
];

/// More(TypeSpecs) = ";" [ TypeSpec [ More(TypeSpecs) ] ] .
pub const MORE_TYPE_SPECS: &[Step] = line![
    Seq 3, Or 1 [Semicolon], Pass Semicolon, Pass InsertedSemicolon, Or 5 [Ident], Seq 1,
    Call TypeSpec, Or 1 SEMICOLONS, Call More TypeSpecs, Nothing, Nothing,
];

/// More(TypeParamGroups) = "," [ TypeParam [ More(TypeParamGroups) ] ] .
pub const MORE_TYPE_PARAM_GROUPS: &[Step] = line![
    Seq 1, Pass Comma, Or 5 [Ident], Seq 1, Call TypeParam, Or 1 [Comma], Call More TypeParamGroups,
    Nothing, Nothing,
];

/// More(Types) = "," [ AnyType [ More(Types) ] ] .
pub const MORE_TYPES: &[Step] = line![
    Seq 1, Pass Comma, Or 5 TYPES, Seq 1, Call AnyType, Or 1 [Comma], Call More Types, Nothing,
    Nothing,
];

/// More(Parameters) = "," [ Param [ More(Parameters) ] ] .
pub const MORE_PARAMETERS: &[Step] = line![
    Seq 1, Pass Comma, Or 5 PARAMETERS, Seq 1, Call Param, Or 1 [Comma], Call More Parameters,
    Nothing, Nothing,
];

/// More(Fields) = ";" [ Field [ More(Fields) ] ] .
pub const MORE_FIELDS: &[Step] = line![
    Seq 3, Or 1 [Semicolon], Pass Semicolon, Pass InsertedSemicolon, Or 5 [Ident Mul], Seq 1,
    Call Field, Or 1 SEMICOLONS, Call More Fields, Nothing, Nothing,
];

/// More(Elems) = ";" [ Elem [ More(Elems) ] ] .
pub const MORE_ELEMS: &[Step] = line![
    Seq 3, Or 1 [Semicolon], Pass Semicolon, Pass InsertedSemicolon, Or 5 TERMS, Seq 1, Call Elem,
    Or 1 SEMICOLONS, Call More Elems, Nothing, Nothing,
];

/// More(Indexes) = "," [ Expr(Plain) [ More(Indexes) ] ] .
pub const MORE_INDEXES: &[Step] = line![
    Seq 1, Pass Comma, Or 5 EXPRESSIONS, Seq 1, Call Expr Plain, Or 1 [Comma], Call More Indexes,
    Nothing, Nothing,
];

/// More(Elements) = "," [ Element [ More(Elements) ] ] .
pub const MORE_ELEMENTS: &[Step] = line![
    Seq 1, Pass Comma, Or 5 ELEMENTS, Seq 1, Call Element, Or 1 [Comma], Call More Elements,
    Nothing, Nothing,
];
