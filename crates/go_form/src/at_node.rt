// The rules on the form of a file, asked at one node.
ghost use Rattle.std.specs.Prelude.{◌≡◌, ◌++◌, OnOk};
ghost use Rattle.go_tree.specs.Tree.{tree_of};
ghost use Rattle.go_module.specs.Broken.{told};
ghost use Rattle.go_form.specs.AtNode as rules;
ghost use Rattle.go_form.specs.Rules as rule;
ghost use Rattle.go_form.specs.Families.Parameters as of_parameters;
ghost use Rattle.go_form.specs.Families.Declarations as of_declarations;
ghost use Rattle.go_form.specs.Families.Guards as of_guards;
ghost use Rattle.go_form.specs.Families.Statements as of_statements;
ghost use Rattle.go_form.specs.Families.SwitchStatements as of_switches;

use crate::declarations::{self, float_literal, generic_alias, missing_values};
use crate::guards;
use crate::parameters::{self, bad_receiver_list, mixed_parameters};
use crate::rules::{
    BAD_COMMUNICATION, BAD_DEFINED_NAME, BAD_RECEIVER_LIST, BAD_SWITCH_HEADER,
    DEFINING_POST_STATEMENT, FLOAT_LITERAL, GENERIC_ALIAS, GENERIC_METHOD, LOCAL_GENERIC_TYPE,
    MISPLACED_GUARD, MISPLACED_VARIADIC, MISSING_CALL, MISSING_VALUES, MIXED_PARAMETERS,
    OPEN_ARRAY_TYPE, REPEATED_DEFAULT, SEVERAL_OPERANDS, THIRD_RANGE_VARIABLE,
};
use crate::statements::{self, missing_call, several_operands, third_range_variable};
use crate::switch_statements::{self, bad_communication};
use crate::tell::{tell, tell_all};
use go_base::{Broken, NoMemory};
use go_tree::Node;
use std::alloc::Global;

/// Pushes all that is broken at the node of the file.
pub fn broken_at_node(
    alloc: Global,
    file: usize,
    node: &Node,
    found: &mut Vec<Broken>,
) -> Result<(), NoMemory>
    ensures { OnOk result (found.new.items
        ≡ found.old.items ++ rules.broken_at_node file (tree_of node.now)) }
{
    broken_parameters(alloc, file, node, found)?;
    broken_declarations(alloc, file, node, found)?;
    unsupported_forms(alloc, file, node, found)?;
    broken_assignments(alloc, file, node, found)?;
    broken_statements(alloc, file, node, found)?;
    broken_switches(alloc, file, node, found)
}

fn broken_parameters(
    alloc: Global,
    file: usize,
    node: &Node,
    found: &mut Vec<Broken>,
) -> Result<(), NoMemory>
    ensures { OnOk result (found.new.items
        ≡ found.old.items ++ rules.broken_parameters file (tree_of node.now)) }
{
    tell(file, MIXED_PARAMETERS, mixed_parameters(node), found)?;
    misplaced_variadics(alloc, file, node, found)?;
    tell(file, BAD_RECEIVER_LIST, bad_receiver_list(node), found)?;
    generic_method(alloc, file, node, found)
}

fn broken_declarations(
    alloc: Global,
    file: usize,
    node: &Node,
    found: &mut Vec<Broken>,
) -> Result<(), NoMemory>
    ensures { OnOk result (found.new.items
        ≡ found.old.items ++ rules.broken_declarations file (tree_of node.now)) }
{
    tell(file, MISSING_VALUES, missing_values(node), found)?;
    open_array_types(alloc, file, node, found)
}

fn unsupported_forms(
    alloc: Global,
    file: usize,
    node: &Node,
    found: &mut Vec<Broken>,
) -> Result<(), NoMemory>
    ensures { OnOk result (found.new.items
        ≡ found.old.items ++ rules.unsupported_forms file (tree_of node.now)) }
{
    tell(file, FLOAT_LITERAL, float_literal(node), found)?;
    tell(file, GENERIC_ALIAS, generic_alias(node), found)?;
    local_generic_types(alloc, file, node, found)
}

fn broken_assignments(
    alloc: Global,
    file: usize,
    node: &Node,
    found: &mut Vec<Broken>,
) -> Result<(), NoMemory>
    ensures { OnOk result (found.new.items
        ≡ found.old.items ++ rules.broken_assignments file (tree_of node.now)) }
{
    bad_defined_names(alloc, file, node, found)?;
    tell(file, SEVERAL_OPERANDS, several_operands(node), found)
}

fn broken_statements(
    alloc: Global,
    file: usize,
    node: &Node,
    found: &mut Vec<Broken>,
) -> Result<(), NoMemory>
    ensures { OnOk result (found.new.items
        ≡ found.old.items ++ rules.broken_statements file (tree_of node.now)) }
{
    tell(file, MISSING_CALL, missing_call(node), found)?;
    defining_post_statement(alloc, file, node, found)?;
    tell(
        file,
        THIRD_RANGE_VARIABLE,
        third_range_variable(node),
        found,
    )
}

fn broken_switches(
    alloc: Global,
    file: usize,
    node: &Node,
    found: &mut Vec<Broken>,
) -> Result<(), NoMemory>
    ensures { OnOk result (found.new.items
        ≡ found.old.items ++ rules.broken_switches file (tree_of node.now)) }
{
    misplaced_guards(alloc, file, node, found)?;
    tell(file, BAD_COMMUNICATION, bad_communication(node), found)?;
    bad_switch_header(alloc, file, node, found)?;
    repeated_defaults(alloc, file, node, found)
}

// The rules that one node can break at several places. A list takes no memory before its first place.

fn misplaced_variadics(
    alloc: Global,
    file: usize,
    node: &Node,
    found: &mut Vec<Broken>,
) -> Result<(), NoMemory>
    ensures { OnOk result (found.new.items ≡ found.old.items
        ++ told file rule.misplaced_variadic (of_parameters.misplaced_variadics_at (tree_of node.now))) }
{
    let mut places = Vec::new(alloc);
    parameters::misplaced_variadics(node, &mut places)?;
    tell_all(file, MISPLACED_VARIADIC, &places, found)
}

fn generic_method(
    alloc: Global,
    file: usize,
    node: &Node,
    found: &mut Vec<Broken>,
) -> Result<(), NoMemory>
    ensures { OnOk result (found.new.items ≡ found.old.items
        ++ told file rule.generic_method (of_parameters.generic_method_at (tree_of node.now))) }
{
    let mut places = Vec::new(alloc);
    parameters::generic_method(node, &mut places)?;
    tell_all(file, GENERIC_METHOD, &places, found)
}

fn open_array_types(
    alloc: Global,
    file: usize,
    node: &Node,
    found: &mut Vec<Broken>,
) -> Result<(), NoMemory>
    ensures { OnOk result (found.new.items ≡ found.old.items
        ++ told file rule.open_array_type (of_declarations.open_array_types_at (tree_of node.now))) }
{
    let mut places = Vec::new(alloc);
    declarations::open_array_types(node, &mut places)?;
    tell_all(file, OPEN_ARRAY_TYPE, &places, found)
}

fn local_generic_types(
    alloc: Global,
    file: usize,
    node: &Node,
    found: &mut Vec<Broken>,
) -> Result<(), NoMemory>
    ensures { OnOk result (found.new.items ≡ found.old.items
        ++ told file rule.local_generic_type (of_declarations.local_generic_types_at (tree_of node.now))) }
{
    let mut places = Vec::new(alloc);
    declarations::local_generic_types(node, &mut places)?;
    tell_all(file, LOCAL_GENERIC_TYPE, &places, found)
}

fn bad_defined_names(
    alloc: Global,
    file: usize,
    node: &Node,
    found: &mut Vec<Broken>,
) -> Result<(), NoMemory>
    ensures { OnOk result (found.new.items ≡ found.old.items
        ++ told file rule.bad_defined_name (of_statements.bad_defined_names_at (tree_of node.now))) }
{
    let mut places = Vec::new(alloc);
    statements::bad_defined_names(node, &mut places)?;
    tell_all(file, BAD_DEFINED_NAME, &places, found)
}

fn defining_post_statement(
    alloc: Global,
    file: usize,
    node: &Node,
    found: &mut Vec<Broken>,
) -> Result<(), NoMemory>
    ensures { OnOk result (found.new.items ≡ found.old.items
        ++ told file rule.defining_post_statement (of_statements.defining_post_statement_at (tree_of node.now))) }
{
    let mut places = Vec::new(alloc);
    statements::defining_post_statement(node, &mut places)?;
    tell_all(file, DEFINING_POST_STATEMENT, &places, found)
}

fn misplaced_guards(
    alloc: Global,
    file: usize,
    node: &Node,
    found: &mut Vec<Broken>,
) -> Result<(), NoMemory>
    ensures { OnOk result (found.new.items ≡ found.old.items
        ++ told file rule.misplaced_guard (of_guards.misplaced_guards_at (tree_of node.now))) }
{
    let mut places = Vec::new(alloc);
    guards::misplaced_guards(node, &mut places)?;
    tell_all(file, MISPLACED_GUARD, &places, found)
}

fn bad_switch_header(
    alloc: Global,
    file: usize,
    node: &Node,
    found: &mut Vec<Broken>,
) -> Result<(), NoMemory>
    ensures { OnOk result (found.new.items ≡ found.old.items
        ++ told file rule.bad_switch_header (of_switches.bad_switch_header_at (tree_of node.now))) }
{
    let mut places = Vec::new(alloc);
    switch_statements::bad_switch_header(node, &mut places)?;
    tell_all(file, BAD_SWITCH_HEADER, &places, found)
}

fn repeated_defaults(
    alloc: Global,
    file: usize,
    node: &Node,
    found: &mut Vec<Broken>,
) -> Result<(), NoMemory>
    ensures { OnOk result (found.new.items ≡ found.old.items
        ++ told file rule.repeated_default (of_switches.repeated_defaults_at (tree_of node.now))) }
{
    let mut places = Vec::new(alloc);
    switch_statements::repeated_defaults(node, &mut places)?;
    tell_all(file, REPEATED_DEFAULT, &places, found)
}
