// Which forms of a file are built (Go specification, "Source file organization", "Declarations and scope", "Expressions").
ghost use Rattle.std.specs.Prelude.{◌≡◌};
ghost use Rattle.go_tree.specs.Tree.{tree_of, kind_of, parts_of};
ghost use Rattle.go_form.specs.BuiltForms as rules;

use crate::built_operators::operator_parts;
use crate::built_types::{
    channel_element_parts, field_parts, interface_element_parts, parameter_parts, parameters_parts,
    receive_channel_parts, result_parts, signature_parts, tag_parts, type_parts,
};
use crate::parts::Parts;
use crate::role::Role;
use go_module::three_parts;
use go_tree::{Node, NodeKind};

fn file_parts(kind: NodeKind) -> Parts
    ensures { result ≡ rules.file_parts kind }
{
    match kind {
        NodeKind::File => Parts::OneAndEach(Role::Identifier, Role::Declaration),
        _ => Parts::NotBuilt,
    }
}

fn declaration_parts(kind: NodeKind) -> Parts
    ensures { result ≡ rules.declaration_parts kind }
{
    match kind {
        NodeKind::ImportDecl => Parts::AnyParts,
        NodeKind::ImportGroup => Parts::AnyParts,
        NodeKind::ConstDecl => Parts::One(Role::ConstSpec),
        NodeKind::ConstGroup => Parts::Each(Role::ConstSpec),
        NodeKind::TypeDecl => Parts::One(Role::TypeSpec),
        NodeKind::TypeGroup => Parts::Each(Role::TypeSpec),
        NodeKind::VarDecl => Parts::One(Role::VarSpec),
        NodeKind::VarGroup => Parts::Each(Role::VarSpec),
        _ => Parts::NotBuilt,
    }
}

// The parts of a spec of constants without a type, by what stands behind its names.
fn with_values(kind: NodeKind) -> Parts
    ensures { result ≡ rules.with_values kind }
{
    match kind {
        NodeKind::ExprList => Parts::Two(Role::IdentifierList, Role::ExpressionList),
        NodeKind::ConstCopy => Parts::Two(Role::IdentifierList, Role::ConstCopy),
        _ => Parts::NotBuilt,
    }
}

// The parts of one with a type.
fn with_type_and_values(kind: NodeKind) -> Parts
    ensures { result ≡ rules.with_type_and_values kind }
{
    match kind {
        NodeKind::ExprList => {
            Parts::Three(Role::IdentifierList, Role::Unbuilt, Role::ExpressionList)
        }
        _ => Parts::NotBuilt,
    }
}

#[tactic(auto, using(crate::proofs::UnbuiltLemmas::constant_lemmas))]
fn constant_parts(spec: &Node) -> Parts
    ensures { result ≡ rules.constant_parts (parts_of (tree_of spec.now)) }
{
    if let Some((_, values)) = spec.both_parts() {
        return with_values(values.kind());
    }
    if let Some((_, _, values)) = three_parts(spec) {
        return with_type_and_values(values.kind());
    }
    Parts::NotBuilt
}

fn const_spec_parts(node: &Node) -> Parts
    ensures { result ≡ rules.const_spec_parts (kind_of (tree_of node.now)) (parts_of (tree_of node.now)) }
{
    match node.kind() {
        NodeKind::ConstSpec => constant_parts(node),
        _ => Parts::NotBuilt,
    }
}

// The parts of the copy of a list: the type if any and the values.
#[tactic(auto, using(crate::proofs::UnbuiltLemmas::copied_lemmas))]
fn copied_parts(copy: &Node) -> Parts
    ensures { result ≡ rules.copied_parts (parts_of (tree_of copy.now)) }
{
    if let Some(_) = copy.only_part() {
        return Parts::One(Role::ExpressionList);
    }
    if let Some(_) = copy.both_parts() {
        return Parts::Two(Role::Unbuilt, Role::ExpressionList);
    }
    Parts::NotBuilt
}

fn const_copy_parts(node: &Node) -> Parts
    ensures { result ≡ rules.const_copy_parts (kind_of (tree_of node.now)) (parts_of (tree_of node.now)) }
{
    match node.kind() {
        NodeKind::ConstCopy => copied_parts(node),
        _ => Parts::NotBuilt,
    }
}

// The parts of a spec of variables whose last part is of that kind.
fn with_type(kind: NodeKind) -> Parts
    ensures { result ≡ rules.with_type kind }
{
    match kind {
        NodeKind::ExprList => Parts::NotBuilt,
        _ => Parts::Two(Role::IdentifierList, Role::AnyType),
    }
}

#[tactic(auto, using(crate::proofs::UnbuiltLemmas::variable_lemmas))]
fn variable_parts(spec: &Node) -> Parts
    ensures { result ≡ rules.variable_parts (parts_of (tree_of spec.now)) }
{
    match spec.both_parts() {
        Some((_, written_type)) => with_type(written_type.kind()),
        None => Parts::NotBuilt,
    }
}

fn var_spec_parts(node: &Node) -> Parts
    ensures { result ≡ rules.var_spec_parts (kind_of (tree_of node.now)) (parts_of (tree_of node.now)) }
{
    match node.kind() {
        NodeKind::VarSpec => variable_parts(node),
        _ => Parts::NotBuilt,
    }
}

fn type_spec_parts(kind: NodeKind) -> Parts
    ensures { result ≡ rules.type_spec_parts kind }
{
    match kind {
        NodeKind::AliasSpec => Parts::Two(Role::Identifier, Role::AnyType),
        NodeKind::TypeSpec => Parts::Two(Role::Identifier, Role::AnyType),
        NodeKind::GenericAliasSpec => Parts::Three(Role::Identifier, Role::Unbuilt, Role::AnyType),
        NodeKind::GenericTypeSpec => Parts::Three(Role::Identifier, Role::Unbuilt, Role::AnyType),
        _ => Parts::NotBuilt,
    }
}

fn identifiers_parts(kind: NodeKind) -> Parts
    ensures { result ≡ rules.identifiers_parts kind }
{
    match kind {
        NodeKind::IdentList => Parts::OneAndEach(Role::Identifier, Role::Identifier),
        _ => Parts::NotBuilt,
    }
}

fn expressions_parts(kind: NodeKind) -> Parts
    ensures { result ≡ rules.expressions_parts kind }
{
    match kind {
        NodeKind::ExprList => Parts::OneAndEach(Role::Expression, Role::Expression),
        _ => Parts::NotBuilt,
    }
}

fn identifier_parts(kind: NodeKind) -> Parts
    ensures { result ≡ rules.identifier_parts kind }
{
    match kind {
        NodeKind::Name => Parts::NoParts,
        _ => Parts::NotBuilt,
    }
}

fn expression_parts(node: &Node) -> Parts
    ensures { result ≡ rules.expression_parts (kind_of (tree_of node.now)) (parts_of (tree_of node.now)) }
{
    match node.kind() {
        NodeKind::IntLit => Parts::NoParts,
        NodeKind::FloatLit => Parts::NoParts,
        NodeKind::RuneLit => Parts::NoParts,
        NodeKind::StringLit => Parts::NoParts,
        NodeKind::Name => Parts::NoParts,
        NodeKind::SelectorExpr => Parts::Two(Role::Identifier, Role::Identifier),
        NodeKind::ParenExpr => Parts::One(Role::Expression),
        _ => operator_parts(node),
    }
}

/// Which parts a node has where it stands for that.
pub fn parts_as(role: Role, node: &Node) -> Parts
    ensures { result ≡ rules.parts_as role (kind_of (tree_of node.now)) (parts_of (tree_of node.now)) }
{
    match role {
        Role::SourceFile => file_parts(node.kind()),
        Role::Declaration => declaration_parts(node.kind()),
        Role::ConstSpec => const_spec_parts(node),
        Role::ConstCopy => const_copy_parts(node),
        Role::VarSpec => var_spec_parts(node),
        Role::TypeSpec => type_spec_parts(node.kind()),
        Role::IdentifierList => identifiers_parts(node.kind()),
        Role::ExpressionList => expressions_parts(node.kind()),
        Role::Identifier => identifier_parts(node.kind()),
        Role::Expression => expression_parts(node),
        Role::AnyType => type_parts(node),
        Role::ChannelElement => channel_element_parts(node),
        Role::ReceiveChannel => receive_channel_parts(node.kind()),
        Role::Signature => signature_parts(node),
        Role::Parameters => parameters_parts(node.kind()),
        Role::Results => result_parts(node),
        Role::ParameterDecl => parameter_parts(node.kind()),
        Role::FieldDecl => field_parts(node),
        Role::Tag => tag_parts(node.kind()),
        Role::InterfaceElem => interface_element_parts(node.kind()),
        Role::Unbuilt => Parts::NotBuilt,
    }
}
