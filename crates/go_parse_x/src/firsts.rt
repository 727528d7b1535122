// The tokens that each production begins with, and which productions can be empty.
ghost use Rattle.std.specs.Prelude.{◌≡◌};
ghost use Rattle.go_tree.specs.declared.production.Production.TheVariants.{More};
ghost use Rattle.go_tree.specs.Grammar.Tables.First.{firsts};
ghost use Rattle.go_tree.specs.Grammar.Trees.Sentence.{can_be_empty as empty_productions, tables};
ghost use Rattle.go_parse_x.specs.Tables.KindSets.{set_of};

use crate::kind_sets::{has, kinds};
use crate::start_sets::{
    COMPARISONS, EXPRESSIONS, LITERALS, NAMED_TYPES, NAMELESS, OPERANDS, OPERATORS, PRODUCTS,
    SEMICOLONS, STATEMENT_TAILS, STATEMENTS, SUMS, TYPE_WORDS, TYPES,
};
use go_tree::{Items, Production, TokenKind};

/// Whether a production can begin with a token of that kind.
#[tactic(auto, using(crate::proofs::KindSetLemmas::set_has))]
pub fn begins_with(n: Production, kind: TokenKind) -> bool
    ensures { result ≡ tables.first n kind }
{
    has(first_of(n), kind)
}

/// Whether a production can be empty.
pub fn can_be_empty(n: Production) -> bool
    ensures { result ≡ empty_productions n }
{
    matches!(
        n,
        Production::ParamAfterName
            | Production::FieldAfterName
            | Production::Tails
            | Production::AfterExpr(_)
            | Production::ClauseBody(_)
            | Production::AfterClauseStmt(_)
    )
}

// The set of the tokens that a production begins with.
fn first_of(n: Production) -> u128
    ensures { result ≡ set_of (firsts n) }
{
    match n {
        Production::File => kinds![KwPackage],
        Production::Import => kinds![KwImport],
        Production::ImportSpec => kinds![Ident Text Dot],
        Production::Top => kinds![KwConst KwFunc KwType KwVar],
        Production::FuncRest => kinds![LeftParen LeftBracket],
        Production::Name
        | Production::ConstSpec
        | Production::VarSpec
        | Production::Idents
        | Production::TypeSpec
        | Production::TypeParam
        | Production::TypeName => kinds![Ident],
        Production::StringLit => kinds![Text],
        Production::Decl => kinds![KwConst KwType KwVar],
        Production::TypeSpecBracket => EXPRESSIONS | kinds![Ellipsis RightBracket],
        Production::TypeParams | Production::TypeArgs | Production::BracketType => kinds![
            LeftBracket
        ],
        Production::ConstraintAfterName => TYPE_WORDS | kinds![Ident Arrow Tilde LeftBracket],
        Production::More(items) => first_of_more(items),
        Production::AnyType => TYPES,
        Production::TypeNoBracket => TYPE_WORDS | kinds![Ident Mul Arrow LeftParen],
        Production::TypeNoName => TYPE_WORDS | kinds![Mul Arrow LeftParen LeftBracket],
        Production::ResultType => NAMED_TYPES,
        Production::ChanElem => NAMED_TYPES | kinds![LeftParen],
        Production::ParenType | Production::Signature | Production::Params => kinds![LeftParen],
        Production::StarType => kinds![Mul],
        Production::MapType => kinds![KwMap],
        Production::RecvChan => kinds![Arrow],
        Production::ChanType => kinds![KwChan],
        Production::FuncType | Production::FuncOperand => kinds![KwFunc],
        Production::Param => TYPES | kinds![Ellipsis],
        Production::ParamAfterName => TYPES | kinds![Ellipsis Dot],
        Production::StructType => kinds![KwStruct],
        Production::Field => kinds![Ident Mul],
        Production::FieldAfterName => TYPES | kinds![Text Comma Dot],
        Production::InterfaceType => kinds![KwInterface],
        Production::Elem | Production::Union | Production::Term => TYPES | kinds![Tilde],
        Production::Exprs(_)
        | Production::Expr(_)
        | Production::Conjunction(_)
        | Production::Comparison(_)
        | Production::Sum(_)
        | Production::Product(_)
        | Production::Unary(_)
        | Production::Simple(_) => EXPRESSIONS,
        Production::OrTail(_) => kinds![LogicalOr],
        Production::AndTail(_) => kinds![LogicalAnd],
        Production::CompareTail(_) => COMPARISONS,
        Production::AddTail(_) => SUMS,
        Production::MulTail(_) => PRODUCTS,
        Production::Operand => OPERANDS,
        Production::BasicLit => LITERALS,
        Production::AfterName | Production::AfterSelector | Production::AfterIndex =>
            kinds![LeftParen LeftBracket LeftBrace Dot],
        Production::Suffix => kinds![LeftParen LeftBracket Dot],
        Production::CallRest => EXPRESSIONS | kinds![RightParen],
        Production::AfterArg => kinds![Ellipsis Comma RightParen],
        Production::Value | Production::Block => kinds![LeftBrace],
        Production::Element | Production::ElementPart => EXPRESSIONS | kinds![LeftBrace],
        Production::ExprNoName => NAMELESS,
        Production::Tails => OPERATORS,
        Production::CallOrDot => kinds![LeftParen Dot],
        Production::Stmt => STATEMENTS,
        Production::AfterExpr(_) | Production::SimpleTail(_) => STATEMENT_TAILS,
        Production::If => kinds![KwIf],
        Production::Switch => kinds![KwSwitch],
        Production::Select => kinds![KwSelect],
        Production::Clause(_) => kinds![KwCase KwDefault],
        Production::ClauseBody(_) => STATEMENTS | SEMICOLONS | kinds![KwCase KwDefault],
        Production::AfterClauseStmt(_) => SEMICOLONS,
        Production::For => kinds![KwFor],
        Production::ForAfterExpr => STATEMENT_TAILS | SEMICOLONS | kinds![LeftBrace],
        Production::ForClauses => EXPRESSIONS | SEMICOLONS,
    }
}

// The same for what stands behind the first of several items.
fn first_of_more(items: Items) -> u128
    ensures { result ≡ set_of (firsts (More items)) }
{
    match items {
        Items::ImportSpecs
        | Items::ConstSpecs
        | Items::VarSpecs
        | Items::TypeSpecs
        | Items::Fields
        | Items::Elems => SEMICOLONS,
        Items::TypeParamGroups
        | Items::Types
        | Items::Parameters
        | Items::Indexes
        | Items::Elements => kinds![Comma],
    }
}
