// The names that types are written by: those of declared types and of type parameters.
ghost use Rattle.std.specs.Prelude.{◌≡◌, [], ◌++◌, IfOk, OnOk, map, slice_get, string_bytes, unwrap_or};
ghost use Rattle.go_report.specs.Report.{named_view};
ghost use Rattle.go_report.specs.Text.Types as texts;

use crate::names::Names;
use crate::places::place_text;
use go_base::ObjId;
use go_module::At;
use go_report::NamedObject;
use std::alloc::{AllocError, Global};

/// Appends an object's name; nothing where it is not among these.
#[tactic(auto, using(crate::proofs::TypeLemmas::object_texts))]
pub fn put_object(
    alloc: Global,
    out: &mut Vec<u8>,
    named: &Names,
    object: ObjId,
) -> Result<(), AllocError>
    ensures { OnOk result (out.new.items ≡ out.old.items ++ texts.object_text (map named_view named.now) object) }
{
    match named.get(object) {
        Some(found) => out.extend_from_slice(named_text(alloc, found)?.as_bytes()),
        None => Ok(()),
    }
}

/// Appends the name of an object's type parameter; nothing where there is none.
#[tactic(auto, using(crate::proofs::TypeLemmas::param_texts))]
pub fn put_param(
    out: &mut Vec<u8>,
    named: &Names,
    object: ObjId,
    place: usize,
) -> Result<(), AllocError>
    ensures { OnOk result (out.new.items ≡ out.old.items ++ texts.param_text (map named_view named.now) object place) }
{
    match named.get(object) {
        Some(found) => put_param_of(out, found, place),
        None => Ok(()),
    }
}

// The name of the type parameter at this place; nothing where there is none.
fn put_param_of(out: &mut Vec<u8>, found: &NamedObject, place: usize) -> Result<(), AllocError>
    ensures { OnOk result (out.new.items ≡ out.old.items ++ unwrap_or (slice_get (named_view found.now).params place) []) }
{
    match found.params.get(place) {
        Some(name) => out.extend_from_slice(name.as_bytes()),
        None => Ok(()),
    }
}

// The name of an object behind its path, and its place behind them where it is declared in a function.
fn named_text(alloc: Global, found: &NamedObject) -> Result<String, AllocError>
    ensures { IfOk result (λ text. string_bytes text ≡ texts.named_text (named_view found.now)) }
{
    let mut text = path_and_name(alloc, found)?;
    if found.local {
        put_place(alloc, &mut text, &found.at)?;
    }
    Ok(text)
}

// `@` and a place, if there is one.
fn put_place(alloc: Global, text: &mut String, at: &Option<At>) -> Result<(), AllocError>
    ensures { OnOk result (string_bytes text.new ≡ string_bytes text.old ++ texts.at_text at.now) }
{
    match at {
        None => Ok(()),
        Some(at) => {
            text.push('@')?;
            text.push_str(place_text(alloc, at)?.as_str())
        }
    }
}

// The path of the object's package, if it has one, and its name.
#[tactic(auto, using(crate::proofs::TypeLemmas::behind_path))]
fn path_and_name(alloc: Global, found: &NamedObject) -> Result<String, AllocError>
    ensures { IfOk result (λ text. string_bytes text ≡ texts.path_text found.now.path ++ found.now.name) }
{
    let path = found.path.as_str();
    let name = found.name.as_str();
    if path.is_empty() {
        String::from_str(alloc, name)
    } else {
        format!(in alloc; "{path}.{name}")
    }
}
