// The declaration of a module that a number names (Go specification, "Declarations and scope").
ghost use Rattle.std.specs.Prelude.{◌≡◌, IfOk, find};
ghost use Rattle.std.specs.Option.{option_map};
ghost use Rattle.go_module.specs.Modules.Module.{module_view, package_view};
ghost use Rattle.go_module.specs.Names.Declarations.{declared_in};
ghost use Rattle.go_values.specs.Declared.{declared_as};
ghost use Rattle.go_names.specs.Views.{declaration_view, declarations_view, spec_view};
ghost use Rattle.go_decl.specs.Parts.{is_numbered, part_named, part_view, parts_of};

use crate::package::package_specs;
use go_base::NoMemory;
use go_module::{Module, ObjId, Package};
use go_names::{Declaration, Spec, declarations_in};
use std::alloc::Global;
use std::slice::from_ref;

/// A declaration, the spec that makes it, and the package where that stands.
#[derive(Clone, Copy)]
pub struct FoundPart<'a> {
    pub own: &'a Package,
    pub spec: Spec<'a>,
    pub declaration: Declaration<'a>,
}

/// The declaration whose object has a number, of several with one number the first, with its spec and its package. An
/// error is want of memory.
pub fn part_named<'a>(
    alloc: Global,
    module: &'a Module,
    d: ObjId,
) -> Result<Option<FoundPart<'a>>, NoMemory>
    ensures { IfOk result (λ found. option_map part_view found ≡ part_named (module_view «module».now) d.0) }
{
    for own in &module.packages {
        if let Some(part) = part_in(alloc, own, d)? {
            return Ok(Some(part));
        }
    }
    Ok(None)
}

// The same among the declarations of a package.
fn part_in<'a>(alloc: Global, own: &'a Package, d: ObjId) -> Result<Option<FoundPart<'a>>, NoMemory>
    ensures { IfOk result (λ found. option_map part_view found
        ≡ find (is_numbered d.0) (parts_of (package_view own.now))) }
{
    let specs = package_specs(alloc, own)?;
    for spec in &specs {
        if let Some(declaration) = declared_by(alloc, spec, d)? {
            return Ok(Some(FoundPart {
                own,
                spec: *spec,
                declaration,
            }));
        }
    }
    Ok(None)
}

// The declaration of a spec whose object has a number.
fn declared_by<'a>(
    alloc: Global,
    spec: &Spec<'a>,
    d: ObjId,
) -> Result<Option<Declaration<'a>>, NoMemory>
    ensures { IfOk result (λ found. option_map declaration_view found
        ≡ declared_as (declared_in (spec_view spec.now)) d.0) }
{
    let declarations = declarations_in(alloc, from_ref(spec))?;
    Ok(numbered(&declarations, d))
}

// The first of these declarations whose object has a number.
fn numbered<'a>(declarations: &[Declaration<'a>], d: ObjId) -> Option<Declaration<'a>>
    ensures { option_map declaration_view result ≡ declared_as (declarations_view declarations.now) d.0 }
{
    for declaration in declarations {
        if declaration.number() == d {
            return Some(*declaration);
        }
    }
    None
}
