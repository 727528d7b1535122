// The scopes of a package (Go specification, "Declarations and scope").
ghost use Rattle.std.specs.Prelude.{◌≡◌, ◌++◌, [], IfOk, IfErr, OnOk, length, map};
ghost use Rattle.std.specs.List.{flat_map};
ghost use Rattle.indexmap.specs.IndexMap.{insert_all};
ghost use Rattle.go_module.specs.Modules.Module.{ModuleData, file_view, module_view, package_view};
ghost use Rattle.go_module.specs.Names.Rules.BlockRules as rule;
ghost use Rattle.go_module.specs.Names.Rules.BrokenNames.{broken_block};
ghost use Rattle.go_module.specs.Names.Declarations.{declarations_in};
ghost use Rattle.go_module.specs.Names.Iotas.{iotas_of};
ghost use Rattle.go_module.specs.Names.PackageBlock as spec;
ghost use Rattle.go_module.specs.Names.Tables.{IsScopesOf};
ghost use Rattle.go_module.specs.Scopes.{same_node, same_object};
ghost use Rattle.go_names.specs.Views.{all_specs, specs_view};
ghost use Rattle.go_scope.specs.Blocks.{block_of};
ghost use Rattle.go_scope.specs.Checked.{all_of, broken_from, resolved_from};
ghost use Rattle.go_scope.specs.Collecting.{AreBefore, IsScopeFault};
ghost use Rattle.go_scope.specs.Known.{known_by};
ghost use Rattle.go_scope.specs.Resolved.{member_entry, members_by, pairs_by};
ghost use Rattle.go_scope.specs.Stands.{StandsIn};

use crate::block_rules::{add_repeated, add_reserved, is_main_name};
use crate::check::check_files;
use crate::file_block::{FileBlock, file_blocks};
use crate::held::Declared;
use crate::iotas::iotas_of;
use crate::known::Before;
use crate::package_block::package_block;
use crate::resolved::{Around, Resolved};
use crate::scope_fault::ScopeFault;
use crate::tables::{add_members, add_uses, names_of};
use go_base::{Broken, NoMemory};
use go_module::{
    Module, ObjId, Object, Package, Region, Scopes, add_objects, ordered, universe, with_numbers,
};
use go_names::{Spec, declarations_of, specs_of};
use go_tree::NodeId;
use indexmap::IndexMap;
use std::alloc::Global;

/// The scopes of the package at a place of a module: what its names denote. `before` has, at the places of the
/// packages that it imports, their scopes. Broken comes exactly where the names of the package break a rule, with all
/// that they break.
pub fn collect(
    alloc: Global,
    place: usize,
    module: &Module,
    before: &[Scopes],
) -> Result<Scopes, ScopeFault>
    requires { AreBefore (module_view «module».now) place before.now }
    ensures ok { IfOk result (λ scopes. IsScopesOf (module_view «module».now) place scopes) }
    ensures err { IfErr result (λ fault. IsScopeFault (module_view «module».now) place fault) }
{
    let known = Before {
        packages: &module.packages,
        scopes: before,
    };
    collect_own(alloc, place, &module.packages[place], &known)
}

// The scopes of a package, by what those that it imports are known by.
fn collect_own(
    alloc: Global,
    place: usize,
    own: &Package,
    before: &Before,
) -> Result<Scopes, ScopeFault>
    ensures ok { IfOk result (λ scopes. (m : ModuleData) → StandsIn m place own.now before.now → IsScopesOf m place scopes) }
    ensures err { IfErr result (λ fault. (m : ModuleData) → StandsIn m place own.now before.now → IsScopeFault m place fault) }
{
    let predeclared = universe(alloc)?;
    let listed = specs_of(alloc, &own.files)?;
    let specs = listed.as_slice();
    let declared = declared_block(alloc, place, specs)?;
    let imported = file_blocks(alloc, before, place, &own.files, &own.imports)?;
    let outer = predeclared.as_slice();
    let block = declared.as_slice();
    let blocks = imported.as_slice();
    let mut found = Vec::new(alloc);
    let lists = check_names(alloc, before, own, outer, block, blocks, specs, &mut found)?;
    if !found.is_empty() {
        let told = with_numbers(alloc, &own.files, &found)?;
        return Err(ScopeFault::Broken(ordered(told)));
    }
    let scopes = scopes_of(alloc, before, own, outer, block, blocks, &lists)?;
    Ok(scopes)
}

// The block of the package at a place, which has these specs.
fn declared_block(alloc: Global, place: usize, specs: &[Vec<Spec>]) -> Result<Vec<Region>, NoMemory>
    ensures { IfOk result (λ block. block.items ≡ spec.block_of place
        (declarations_in (all_specs (map (λ list. specs_view list.items) specs.now)))) }
{
    let declarations = declarations_of(alloc, specs)?;
    package_block(alloc, place, &declarations)
}

// Adds what the names of a package break, by the places of its files, and gives what the occurrences in them
// denote.
fn check_names(
    alloc: Global,
    before: &Before,
    own: &Package,
    outer: &[Region],
    block: &[Region],
    blocks: &[FileBlock],
    specs: &[Vec<Spec>],
    found: &mut Vec<Broken>,
) -> Result<Vec<Vec<Resolved>>, NoMemory>
    requires blocks { length blocks.now ≡ length own.now.files.items }
    requires specs { length specs.now ≡ length own.now.files.items }
    ensures resolved { IfOk result (λ lists. map (λ list. list.items) lists.items
        ≡ resolved_from outer.now block.now (map block_of blocks.now) (map (λ list. specs_view list.items) specs.now)) }
    ensures found { IfOk result (λ lists. found.new.items ≡ found.old.items
        ++ (broken_block (rule.is_main_name own.now.name) block.now
        ++ broken_from (known_by before.now) (rule.is_main_name own.now.name) outer.now block.now 0
        (map block_of blocks.now) (map file_view own.now.files.items) (map (λ list. specs_view list.items) specs.now))) }
{
    let around = Around {
        universe: Declared::of(alloc, outer)?,
        block: Declared::of(alloc, block)?,
    };
    let is_main = is_main_name(&own.name);
    add_repeated(&around.block, found)?;
    add_reserved(is_main, block, found)?;
    let lists = check_files(
        alloc, before, is_main, &around, &own.files, blocks, specs, found,
    )?;
    Ok(lists)
}

// The tables of these regions, of what the occurrences denote, and of the numbers of each iota in the package.
fn scopes_of(
    alloc: Global,
    before: &Before,
    own: &Package,
    outer: &[Region],
    block: &[Region],
    blocks: &[FileBlock],
    lists: &[Vec<Resolved>],
) -> Result<Scopes, NoMemory>
    ensures objects { IfOk result (λ scopes. scopes.objects.entries ≡ insert_all same_object []
        (spec.region_entries (outer.now ++ flat_map (λ b. b.regions.items) blocks.now)
        ++ (map member_entry (flat_map (members_by (known_by before.now)) (all_of (map (λ list. list.items) lists.now)))
        ++ spec.region_entries block.now))) }
    ensures uses { IfOk result (λ scopes. scopes.uses.entries ≡ insert_all same_node []
        (flat_map (pairs_by (known_by before.now)) (all_of (map (λ list. list.items) lists.now)))) }
    ensures iotas { IfOk result (λ scopes. scopes.iotas.entries
        ≡ insert_all same_node [] (iotas_of (package_view own.now))) }
    ensures methods { IfOk result (λ scopes. scopes.methods.entries ≡ []) }
    ensures names { IfOk result (λ scopes. scopes.names.entries ≡ spec.names_of block.now) }
{
    let mut objects = IndexMap::new(alloc);
    add_objects(&mut objects, outer)?;
    add_block_objects(blocks, &mut objects)?;
    add_all_members(before, lists, &mut objects)?;
    add_objects(&mut objects, block)?;
    Ok(Scopes {
        objects,
        uses: uses_of(alloc, before, lists)?,
        iotas: iotas_of(alloc, &own.files)?,
        methods: IndexMap::new(alloc),
        names: names_of(alloc, block)?,
    })
}

// Adds the objects of the blocks of files.
fn add_block_objects(
    blocks: &[FileBlock],
    objects: &mut IndexMap<ObjId, Object>,
) -> Result<(), NoMemory>
    ensures { OnOk result (objects.new.entries ≡ insert_all same_object objects.old.entries
        (spec.region_entries (flat_map (λ b. b.regions.items) blocks.now))) }
{
    for block in blocks {
        add_objects(objects, &block.regions)?;
    }
    Ok(())
}

// Adds the objects of qualified identifiers.
fn add_all_members(
    before: &Before,
    lists: &[Vec<Resolved>],
    objects: &mut IndexMap<ObjId, Object>,
) -> Result<(), NoMemory>
    ensures { OnOk result (objects.new.entries ≡ insert_all same_object objects.old.entries
        (map member_entry (flat_map (members_by (known_by before.now)) (all_of (map (λ list. list.items) lists.now))))) }
{
    for list in lists {
        add_members(before, list, objects)?;
    }
    Ok(())
}

// What the occurrences denote, by their nodes.
fn uses_of(
    alloc: Global,
    before: &Before,
    lists: &[Vec<Resolved>],
) -> Result<IndexMap<NodeId, ObjId>, NoMemory>
    ensures { IfOk result (λ uses. uses.entries ≡ insert_all same_node []
        (flat_map (pairs_by (known_by before.now)) (all_of (map (λ list. list.items) lists.now)))) }
{
    let mut uses = IndexMap::new(alloc);
    for list in lists {
        add_uses(before, list, &mut uses)?;
    }
    Ok(uses)
}
