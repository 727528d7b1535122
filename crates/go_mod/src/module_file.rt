// The file go.mod (Go modules reference, "go.mod files").
ghost use Rattle.std.specs.Prelude.{◌≡◌, ◌++◌, ◌∷◌, [], List, map, false, IfOk, OnOk};
ghost use Rattle.std.specs.List.{filter_map, cons_option};
ghost use Rattle.std.specs.Option.{option_copied};
ghost use Rattle.go_mod.specs.ModuleLines.{LineText};
ghost use Rattle.go_mod.specs.Seen.{seen};
ghost use Rattle.go_mod.specs.ModulePath.{module_path};
ghost use Rattle.go_mod.specs.LanguageVersion.{go_version};
ghost use Rattle.go_module.specs.Broken.{told};
ghost use Rattle.go_mod.specs.ModuleRules.{broken_lines, declared_by, placed_at, unless_one, other_versions};
ghost use Rattle.go_mod.specs.ModuleFile.{IsModuleFile};

use crate::language_version::{go_version, is_1_21};
use crate::module_lines::{Line, outside_blocks};
use crate::module_path::module_path;
use crate::rules::{GO_LINE, MODULE_LINE, OTHER_VERSION};
use go_base::{Broken, Bytes, NoMemory, Rule};
use go_module::{broken_at, ordered};
use std::alloc::Global;

/// What go.mod says.
#[derive(Debug, Drop)]
pub enum ModuleFile {
    /// It breaks no rule: the module's path, and the minor version of the language, 21.
    Good { path: Bytes, version: u16 },
    /// The rules that it breaks, by their places and at one place in the order of their table.
    Broken(Vec<Broken>),
}

/// What the go.mod with these bytes says; it fails only where memory is refused.
pub fn read_module_file(alloc: Global, bytes: &[u8]) -> Result<ModuleFile, NoMemory>
    ensures { IfOk result (λ file. IsModuleFile bytes.now file) }
{
    let lines = outside_blocks(alloc, bytes)?;
    let modules = module_lines(alloc, &lines)?;
    let gos = go_lines(alloc, &lines)?;
    let broken = broken_rules(alloc, &modules, &gos)?;
    if broken.is_empty() {
        let path = Bytes::new(only_text(&modules).to_vec(alloc)?);
        Ok(ModuleFile::Good { path, version: 21 })
    } else {
        Ok(ModuleFile::Broken(ordered(broken)))
    }
}

// The good module lines, each with its path.
fn module_lines<'a>(alloc: Global, lines: &[Line<'a>]) -> Result<Vec<Line<'a>>, NoMemory>
    ensures { IfOk result (λ found.
        map seen found.items ≡ filter_map (declared_by module_path) (map seen lines.now)) }
{
    let mut found = Vec::new(alloc);
    for line in lines {
        push_declared(&mut found, line.offset, module_path(line.text))?;
    }
    Ok(found)
}

// The good go lines, each with its version.
fn go_lines<'a>(alloc: Global, lines: &[Line<'a>]) -> Result<Vec<Line<'a>>, NoMemory>
    ensures { IfOk result (λ found.
        map seen found.items ≡ filter_map (declared_by go_version) (map seen lines.now)) }
{
    let mut found = Vec::new(alloc);
    for line in lines {
        push_declared(&mut found, line.offset, go_version(line.text))?;
    }
    Ok(found)
}

// Pushes what a line declares, if it declares something.
fn push_declared<'a>(
    found: &mut Vec<Line<'a>>,
    offset: usize,
    declared: Option<&'a [u8]>,
) -> Result<(), NoMemory>
    ensures { OnOk result ((rest : List LineText) →
        map seen found.new.items ++ rest
        ≡ map seen found.old.items ++ cons_option (placed_at offset (option_copied declared.entry)) rest) }
{
    if let Some(text) = declared {
        found.push(Line { offset, text })?;
    }
    Ok(())
}

fn broken_rules(
    alloc: Global,
    modules: &[Line<'_>],
    gos: &[Line<'_>],
) -> Result<Vec<Broken>, NoMemory>
    ensures { IfOk result (λ list.
        list.items ≡ broken_lines (map seen modules.now) (map seen gos.now)) }
{
    let mut list = Vec::new(alloc);
    push_unless_one(&mut list, MODULE_LINE, modules)?;
    push_unless_one(&mut list, GO_LINE, gos)?;
    push_other_version(&mut list, gos)?;
    Ok(list)
}

fn push_unless_one(list: &mut Vec<Broken>, rule: Rule, lines: &[Line<'_>]) -> Result<(), NoMemory>
    ensures { OnOk result (list.new.items
        ≡ list.old.items ++ told 0 rule (unless_one (map seen lines.now))) }
{
    match lines {
        [] => list.push(broken_at(0, 0, rule))?,
        [_] => {}
        _ => push_each(list, rule, lines)?,
    }
    Ok(())
}

fn push_each(list: &mut Vec<Broken>, rule: Rule, lines: &[Line<'_>]) -> Result<(), NoMemory>
    ensures { OnOk result (list.new.items
        ≡ list.old.items ++ told 0 rule (map (λ l. l.offset) (map seen lines.now))) }
{
    for line in lines {
        list.push(broken_at(0, line.offset, rule))?;
    }
    Ok(())
}

fn push_other_version(list: &mut Vec<Broken>, gos: &[Line<'_>]) -> Result<(), NoMemory>
    ensures { OnOk result (list.new.items
        ≡ list.old.items ++ told 0 OTHER_VERSION (other_versions (map seen gos.now))) }
{
    if let [line] = gos
        && !is_1_21(line.text)
    {
        list.push(broken_at(0, line.offset, OTHER_VERSION))?;
    }
    Ok(())
}

// The text of the one line.
fn only_text<'a>(lines: &[Line<'a>]) -> &'a [u8]
    requires { unless_one (map seen lines.now) ≡ [] }
    ensures { map (λ l. l.text) (map seen lines.now) ≡ result.now ∷ [] }
{
    lines[0].text
}
