// The text of identifiers (Go specification, "Exported identifiers", "Blank identifier").
ghost use Rattle.std.specs.Prelude.{◌≡◌, IfOk, codes};
ghost use Rattle.go_tree.specs.Tree.{tree_of};
ghost use Rattle.go_module.specs.Names.Declarations.{name_text};
ghost use Rattle.go_module.specs.Names.Exported as exported;
ghost use Rattle.go_module.specs.Modules.Paths.{same_text};

use bstr::decode_utf8;
use go_base::{Name, NoMemory};
use go_module::text_name;
use go_tree::Node;
use std::alloc::Global;
use unicode::properties::GeneralCategory;

/// Whether a name of the package block is exported.
pub fn is_exported(name: &Name) -> bool
    ensures { result ≡ exported.is_exported name.now }
{
    match decode_utf8(name.as_bytes()).0 {
        Some(c) => is_uppercase_category(GeneralCategory::for_char(c)),
        None => false,
    }
}

fn is_uppercase_category(category: GeneralCategory) -> bool
    ensures { result ≡ exported.is_uppercase_category category }
{
    matches!(category, GeneralCategory::UppercaseLetter)
}

/// Whether it is the blank identifier.
pub fn is_blank_identifier(name: &Name) -> bool
    ensures { result ≡ exported.is_blank_identifier name.now }
{
    is_word(name, b"_")
}

/// Whether the name is this word.
pub fn is_word(name: &Name, word: &[u8]) -> bool
    ensures { result ≡ same_text name.now word.now }
{
    name.as_bytes() == word
}

/// The text of an identifier's node. An error is want of memory.
pub fn name_of(alloc: Global, node: &Node) -> Result<Name, NoMemory>
    ensures { IfOk result (λ name. name ≡ name_text (tree_of node.now)) }
{
    text_name(alloc, node.text())
}
