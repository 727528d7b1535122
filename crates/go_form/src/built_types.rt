// Which types are built, and which nodes within types (Go specification, "Types").
ghost use Rattle.std.specs.Prelude.{◌≡◌};
ghost use Rattle.go_tree.specs.Tree.{tree_of, kind_of, parts_of};
ghost use Rattle.go_form.specs.BuiltTypes as rules;

use crate::parts::Parts;
use crate::role::Role;
use go_tree::{Node, NodeKind};

// One part, and perhaps a second.
#[tactic(auto, using(crate::proofs::UnbuiltLemmas::one_or_two_lemmas))]
fn one_or_two(first: Role, second: Role, node: &Node) -> Parts
    ensures { result ≡ rules.one_or_two first second (parts_of (tree_of node.now)) }
{
    match node.only_part() {
        Some(_) => Parts::One(first),
        None => Parts::Two(first, second),
    }
}

// An arrow before `chan`; before all else it is a receive operator.
#[tactic(auto, using(crate::proofs::UnbuiltLemmas::arrow_lemmas))]
fn arrow_parts(node: &Node) -> Parts
    ensures { result ≡ rules.arrow_parts (parts_of (tree_of node.now)) }
{
    match node.only_part() {
        Some(part) => received_parts(part.kind()),
        None => Parts::NotBuilt,
    }
}

// What stands behind an arrow, by its kind.
fn received_parts(kind: NodeKind) -> Parts
    ensures { result ≡ rules.received_parts kind }
{
    match kind {
        NodeKind::ChanType => Parts::One(Role::ReceiveChannel),
        _ => Parts::NotBuilt,
    }
}

/// Which parts a type has that is written alike where an expression stands.
pub fn literal_parts(node: &Node) -> Parts
    ensures { result ≡ rules.literal_parts (kind_of (tree_of node.now)) (parts_of (tree_of node.now)) }
{
    match node.kind() {
        NodeKind::ArrayType => Parts::Two(Role::Expression, Role::AnyType),
        NodeKind::SliceType => Parts::One(Role::AnyType),
        NodeKind::StructType => Parts::Each(Role::FieldDecl),
        NodeKind::FuncType => Parts::One(Role::Signature),
        NodeKind::InterfaceType => Parts::Each(Role::InterfaceElem),
        NodeKind::MapType => Parts::Two(Role::AnyType, Role::AnyType),
        NodeKind::ChanType => Parts::One(Role::ChannelElement),
        NodeKind::ArrowExpr => arrow_parts(node),
        _ => Parts::NotBuilt,
    }
}

/// Which parts a type has.
pub fn type_parts(node: &Node) -> Parts
    ensures { result ≡ rules.type_parts (kind_of (tree_of node.now)) (parts_of (tree_of node.now)) }
{
    match node.kind() {
        NodeKind::Name => Parts::NoParts,
        NodeKind::SelectorExpr => Parts::Two(Role::Identifier, Role::Identifier),
        NodeKind::IndexExpr => Parts::TypeArguments,
        NodeKind::ParenExpr => Parts::One(Role::AnyType),
        NodeKind::StarExpr => Parts::One(Role::AnyType),
        _ => literal_parts(node),
    }
}

/// Which parts a node behind `chan` has: the arrow of `chan<- T`, or a type.
pub fn channel_element_parts(node: &Node) -> Parts
    ensures { result ≡ rules.channel_element_parts (kind_of (tree_of node.now)) (parts_of (tree_of node.now)) }
{
    match node.kind() {
        NodeKind::ArrowExpr => Parts::One(Role::AnyType),
        _ => type_parts(node),
    }
}

/// Which parts a node behind the arrow of `<-chan T` has.
pub fn receive_channel_parts(kind: NodeKind) -> Parts
    ensures { result ≡ rules.receive_channel_parts kind }
{
    match kind {
        NodeKind::ChanType => Parts::One(Role::AnyType),
        _ => Parts::NotBuilt,
    }
}

/// Which parts a signature has.
pub fn signature_parts(node: &Node) -> Parts
    ensures { result ≡ rules.signature_parts (kind_of (tree_of node.now)) (parts_of (tree_of node.now)) }
{
    match node.kind() {
        NodeKind::Signature => one_or_two(Role::Parameters, Role::Results, node),
        _ => Parts::NotBuilt,
    }
}

/// Which parts the parameters of a signature have.
pub fn parameters_parts(kind: NodeKind) -> Parts
    ensures { result ≡ rules.parameters_parts kind }
{
    match kind {
        NodeKind::Params => Parts::Each(Role::ParameterDecl),
        _ => Parts::NotBuilt,
    }
}

/// Which parts the result of a signature has.
pub fn result_parts(node: &Node) -> Parts
    ensures { result ≡ rules.result_parts (kind_of (tree_of node.now)) (parts_of (tree_of node.now)) }
{
    match node.kind() {
        NodeKind::Params => Parts::Each(Role::ParameterDecl),
        _ => type_parts(node),
    }
}

/// Which parts a parameter or a result has.
pub fn parameter_parts(kind: NodeKind) -> Parts
    ensures { result ≡ rules.parameter_parts kind }
{
    match kind {
        NodeKind::Param => Parts::Two(Role::Identifier, Role::AnyType),
        NodeKind::UnnamedParam => Parts::One(Role::AnyType),
        NodeKind::VariadicParam => Parts::Two(Role::Identifier, Role::AnyType),
        NodeKind::UnnamedVariadic => Parts::One(Role::AnyType),
        _ => Parts::NotBuilt,
    }
}

/// Which parts a field of a struct has.
pub fn field_parts(node: &Node) -> Parts
    ensures { result ≡ rules.field_parts (kind_of (tree_of node.now)) (parts_of (tree_of node.now)) }
{
    match node.kind() {
        NodeKind::Field => Parts::NamesAndType,
        NodeKind::EmbeddedField => one_or_two(Role::AnyType, Role::Tag, node),
        NodeKind::EmbeddedPointer => one_or_two(Role::AnyType, Role::Tag, node),
        _ => Parts::NotBuilt,
    }
}

/// Which parts a tag has.
pub fn tag_parts(kind: NodeKind) -> Parts
    ensures { result ≡ rules.tag_parts kind }
{
    match kind {
        NodeKind::StringLit => Parts::NoParts,
        _ => Parts::NotBuilt,
    }
}

/// Which parts an element of an interface has.
pub fn interface_element_parts(kind: NodeKind) -> Parts
    ensures { result ≡ rules.interface_element_parts kind }
{
    match kind {
        NodeKind::MethodElem => Parts::Two(Role::Identifier, Role::Signature),
        NodeKind::Union => Parts::One(Role::AnyType),
        _ => Parts::NotBuilt,
    }
}
