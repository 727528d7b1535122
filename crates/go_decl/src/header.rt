// The headers of declarations, by the outcomes of their expressions and types (Go specification, "Constant
// declarations", "Variable declarations", "Type declarations").
ghost use Rattle.std.specs.Prelude.{◌≡◌, IfOk, IfSome, option_and_then};
ghost use Rattle.std.specs.Option.{option_map};
ghost use Rattle.go_tree.specs.Tree.{tree_of};
ghost use Rattle.go_model.specs.Outcomes.Readings as readings;
ghost use Rattle.go_judge.specs.Records as parts;
ghost use Rattle.go_judge.specs.Records.{header_as, rec_as};
ghost use Rattle.go_judge.specs.View.{outcome_as};
ghost use Rattle.go_judge.specs.Types.Own.{IsOwnHeader, IsOwnOutcome, IsOwnRec, KeepsTypes};
ghost use Rattle.go_constructs.specs.Operators.Honest.{AreHonest};
ghost use Rattle.go_judge.specs.Naming.{AreThere};
ghost use Rattle.go_values.specs.Records as records;
ghost use Rattle.go_names.specs.Views.{declaration_view};
ghost use Rattle.go_expr.specs.Read.{outcome_read};

use go_base::NoMemory;
use go_model::{Ask, ExprWalk, Header, Mode, Outcome, Rec};
use go_module::{Built, ObjKind};
use go_names::Declaration;
use go_term::Ty;
use go_tree::Node;
use std::alloc::Global;

/// The header of a declaration over the headers that are known, which stay as they are; its types are of `walks`' own. It
/// asks that each object that is denoted is there. An error is want of memory.
pub fn header_over<W: ExprWalk>(
    alloc: Global,
    walks: &mut W,
    declaration: &Declaration,
) -> Result<Option<Header>, NoMemory>
    requires there { AreThere (W.names walks.old) }
    requires honest { AreHonest (W.headers walks.old) }
    ensures header { IfOk result (λ header. option_map (header_as (W.tree walks.new)) header
        ≡ records.header_over (W.names walks.old) (W.headers walks.old)
        (declaration_view declaration.now)) }
    ensures own { IfOk result (λ header. IfSome header (IsOwnHeader (W.is_type walks.new))) }
    ensures same { W.headers walks.new ≡ W.headers walks.old }
    ensures names { W.names walks.new ≡ W.names walks.old }
    ensures world { W.world walks.new ≡ W.world walks.old }
    ensures types { KeepsTypes (W.is_type walks.old) (W.is_type walks.new) (W.tree walks.old) (W.tree walks.new) }
{
    match telling_node(declaration) {
        Some(node) => {
            let found = walks.walk(alloc, node, None)?;
            Ok(header_in(alloc, walks, declaration.kind, record_in(walks, found)))
        }
        None => Ok(None),
    }
}

/// The header of a declaration by the outcomes of its nodes; its types are of `walks`' own. An error is want of memory.
pub fn header_by<W: ExprWalk>(
    alloc: Global,
    walks: &W,
    declaration: &Declaration,
) -> Result<Option<Header>, NoMemory>
    ensures header { IfOk result (λ header. option_map (header_as (W.tree walks.now)) header
        ≡ records.header_by (outcome_read (W.outcomes walks.now)) (declaration_view declaration.now)) }
    ensures own { IfOk result (λ header. IfSome header (IsOwnHeader (W.is_type walks.now))) }
{
    match telling_node(declaration) {
        Some(node) => header_of(alloc, walks, declaration.kind, record_of(walks, node)),
        None => Ok(None),
    }
}

// The record of a node by its outcome.
fn record_of<'a, W: ExprWalk>(walks: &'a W, node: &Node) -> Option<&'a Rec>
    ensures record { option_map (λ rec. rec_as (W.tree walks.now) rec.now) result
        ≡ readings.record_by (outcome_read (W.outcomes walks.now)) (tree_of node.now) }
    ensures own { IfSome result (λ rec. IsOwnRec (W.is_type walks.now) rec.now) }
{
    match walks.outcome(node.id()) {
        Some(Outcome::Found(found)) => Some(found),
        Some(Outcome::Broken(_, _)) => None,
        Some(Outcome::Waits(_)) => None,
        Some(Outcome::Nothing) => None,
        None => None,
    }
}

// The header of a declaration of that kind by this record, which stays.
fn header_of<A: Ask>(
    alloc: Global,
    asked: &A,
    kind: ObjKind,
    found: Option<&Rec>,
) -> Result<Option<Header>, NoMemory>
    requires { IfSome found (λ rec. IsOwnRec (A.is_type asked.now) rec.now) }
    ensures header { IfOk result (λ header. option_map (header_as (A.tree asked.now)) header
        ≡ option_and_then (records.told_by kind) (option_map (λ rec. rec_as (A.tree asked.now) rec.now) found.entry)) }
    ensures own { IfOk result (λ header. IfSome header (IsOwnHeader (A.is_type asked.now))) }
{
    match found {
        Some(rec) => Ok(header_in(alloc, asked, kind, Some(rec.clone()?))),
        None => Ok(None),
    }
}

// The record, where the node has one.
fn record_in<A: Ask>(asked: &A, outcome: Outcome) -> Option<Rec>
    requires { IsOwnOutcome (A.is_type asked.now) outcome }
    ensures record { option_map (rec_as (A.tree asked.now)) result
        ≡ readings.record_in (outcome_as (A.tree asked.now) outcome) }
    ensures own { IfSome result (IsOwnRec (A.is_type asked.now)) }
{
    match outcome {
        Outcome::Found(found) => Some(found),
        Outcome::Broken(_, _) => None,
        Outcome::Waits(_) => None,
        Outcome::Nothing => None,
    }
}

// The header of a declaration of that kind by this record, where there is one.
fn header_in<A: Ask>(alloc: Global, asked: &A, kind: ObjKind, found: Option<Rec>) -> Option<Header>
    requires { IfSome found (IsOwnRec (A.is_type asked.now)) }
    ensures header { option_map (header_as (A.tree asked.now)) result
        ≡ option_and_then (records.told_by kind) (option_map (rec_as (A.tree asked.now)) found) }
    ensures own { IfSome result (IsOwnHeader (A.is_type asked.now)) }
{
    let rec = found?;
    match kind {
        ObjKind::Const => declared_header(asked, rec),
        ObjKind::Var => Some(Header::Var(type_in(asked, rec)?)),
        ObjKind::Alias => Some(Header::Alias(type_in(asked, rec)?)),
        ObjKind::Defined => Some(Header::Defined(
            Vec::new(alloc),
            type_in(asked, rec)?,
            Vec::new(alloc),
        )),
        ObjKind::Package => None,
        ObjKind::Builtin => None,
        ObjKind::Nil => None,
    }
}

// The header of a constant that is declared with this record.
fn declared_header<A: Ask>(asked: &A, rec: Rec) -> Option<Header>
    requires { IsOwnRec (A.is_type asked.now) rec }
    ensures header { option_map (header_as (A.tree asked.now)) result
        ≡ records.declared_header (rec_as (A.tree asked.now) rec) }
    ensures own { IfSome result (IsOwnHeader (A.is_type asked.now)) }
{
    let Rec { ty, value, .. } = rec;
    Some(Header::Const(ty?, value?))
}

// The type that the record stands for, where it stands for one.
fn type_in<A: Ask>(asked: &A, rec: Rec) -> Option<Ty>
    requires { IsOwnRec (A.is_type asked.now) rec }
    ensures ty { option_map (A.tree asked.now) result ≡ parts.type_in (rec_as (A.tree asked.now) rec) }
    ensures own { IfSome result (A.is_type asked.now) }
{
    match rec.mode {
        Mode::IsType => rec.ty,
        _ => None,
    }
}

// The node by whose record a declaration has a header: the expression that stands for the name of a constant, the type of
// a variable, what stands behind the name of a type or an alias.
fn telling_node<'a>(declaration: &Declaration<'a>) -> Option<&'a Node>
    ensures { option_map (λ node. tree_of node.now) result ≡ records.tells_by declaration.now.kind
        declaration.now.built (declaration_view declaration.now).types
        (declaration_view declaration.now).values }
{
    match (declaration.kind, declaration.built) {
        (ObjKind::Const, Built::Pair) => declaration.values.first(),
        (ObjKind::Var, Built::Itself) => declaration.types.first(),
        (ObjKind::Defined, Built::Itself) => declaration.types.first(),
        (ObjKind::Alias, Built::Itself) => declaration.types.first(),
        _ => None,
    }
}
