// The text of the lines of a report.
ghost use Rattle.std.specs.Prelude.{◌≡◌, [], ◌++◌, ◌∷◌, IfOk, OnOk, codes, map, option_map};
ghost use Rattle.std.specs.List.{flat_map, join_with_byte};
ghost use Rattle.go_num.specs.TextOfValues as texts;
ghost use Rattle.go_term.specs.View.{type_of};
ghost use Rattle.go_report.specs.Report.{constant, defined, defined_view, definition, imported, line_view, named_view, package_view, used};
ghost use Rattle.go_report.specs.Text.Lines.{broken_fields, line_fields, line_text, mode_text, module_fields, package_fields, type_fields, value_fields, what_fields};
ghost use Rattle.go_report.specs.Text.Places.{end_text, place_text};
ghost use Rattle.go_report.specs.Text.Types.{type_text};

use crate::fields::{put_field, put_fields, put_line};
use crate::names::Names;
use crate::places::{declared_text, end_text, place_text};
use crate::types::type_text;
use go_base::{LineCol, Name};
use go_model::Mode;
use go_module::{At, Placed};
use go_num::{Value, value_text};
use go_report::{DefKind, Line, PackageReport, Report, What};
use go_term::Term;
use std::alloc::{AllocError, Global};

/// The line of the module.
pub fn put_module(alloc: Global, out: &mut Vec<u8>, report: &Report) -> Result<(), AllocError>
    ensures { OnOk result (out.new.items ≡ out.old.items ++ line_text (module_fields report.now.path report.now.version)) }
{
    let version = report.version;
    let version = format!(in alloc; "1.{version}")?;
    put_line(
        out,
        &[b"module", report.path.as_bytes(), version.as_bytes()],
    )
}

/// The line of a package.
pub fn put_package(out: &mut Vec<u8>, own: &PackageReport, verdict: &[u8]) -> Result<(), AllocError>
    ensures { OnOk result (out.new.items ≡ out.old.items ++ line_text (package_fields (package_view own.now) verdict.now)) }
{
    put_line(
        out,
        &[
            b"package",
            own.path.as_bytes(),
            own.name.as_bytes(),
            verdict,
        ],
    )
}

/// The line of a broken rule.
pub fn put_broken(alloc: Global, out: &mut Vec<u8>, broken: &Placed) -> Result<(), AllocError>
    ensures { OnOk result (out.new.items ≡ out.old.items ++ line_text (broken_fields broken.now)) }
{
    let at = place_text(alloc, &broken.at)?;
    let rule = broken.rule;
    let rule = format!(in alloc; "{rule}")?;
    put_line(out, &[b"broken", at.as_bytes(), rule.as_bytes()])
}

/// A line of an accepted package, whose types name these objects.
pub fn put_package_line(
    alloc: Global,
    out: &mut Vec<u8>,
    named: &Names,
    line: &Line,
) -> Result<(), AllocError>
    ensures { OnOk result (out.new.items ≡ out.old.items ++ line_text (line_fields (map named_view named.now) (line_view line.now))) }
{
    match &line.what {
        What::Def(name, kind) => put_def(alloc, out, named, &line.at, name, kind),
        What::Used(name, declared) => put_use(alloc, out, &line.at, name, declared),
        What::Expr(end, mode, term, value) => {
            put_expr_fields(alloc, out, &line.at, *end, *mode)?;
            put_type_field(alloc, out, named, term)?;
            put_value_field(alloc, out, value)?;
            out.push(b'\n')?;
            Ok(())
        }
    }
}

// A declared name.
fn put_def(
    alloc: Global,
    out: &mut Vec<u8>,
    named: &Names,
    at: &At,
    name: &Name,
    kind: &DefKind,
) -> Result<(), AllocError>
    ensures { OnOk result (out.new.items ≡ out.old.items ++ line_text (what_fields (map named_view named.now) at.now (defined name.now (defined_view kind.now)))) }
{
    match kind {
        DefKind::Const(term, value) => put_const(alloc, out, named, at, name, term, value),
        DefKind::Defined(term, right) => put_defined(alloc, out, named, at, name, term, right),
        DefKind::Alias(term) => put_typed(alloc, out, named, at, name, b"alias", term),
        DefKind::Var(term) => put_typed(alloc, out, named, at, name, b"var", term),
        DefKind::Field(term) => put_typed(alloc, out, named, at, name, b"field", term),
        DefKind::Func(term) => put_typed(alloc, out, named, at, name, b"func", term),
        DefKind::Package(path) => put_imported(alloc, out, at, name, path),
    }
}

// A constant, with its type and its value.
fn put_const(
    alloc: Global,
    out: &mut Vec<u8>,
    named: &Names,
    at: &At,
    name: &Name,
    term: &Term,
    value: &Value,
) -> Result<(), AllocError>
    ensures { OnOk result (out.new.items ≡ out.old.items ++ line_text (what_fields (map named_view named.now) at.now (defined name.now (constant (type_of term.now) value.now)))) }
{
    let at = place_text(alloc, at)?;
    let term = type_text(alloc, named, term)?;
    let value = value_bytes(alloc, value)?;
    let fields = [
        b"def",
        at.as_bytes(),
        name.as_bytes(),
        b"const",
        term.as_slice(),
        value.as_slice(),
    ];
    put_line(out, &fields)
}

// A defined type, with its type and that behind its name.
fn put_defined(
    alloc: Global,
    out: &mut Vec<u8>,
    named: &Names,
    at: &At,
    name: &Name,
    term: &Term,
    right: &Term,
) -> Result<(), AllocError>
    ensures { OnOk result (out.new.items ≡ out.old.items ++ line_text (what_fields (map named_view named.now) at.now (defined name.now (definition (type_of term.now) (type_of right.now))))) }
{
    let at = place_text(alloc, at)?;
    let term = type_text(alloc, named, term)?;
    let right = type_text(alloc, named, right)?;
    let fields = [
        b"def",
        at.as_bytes(),
        name.as_bytes(),
        b"type",
        term.as_slice(),
        right.as_slice(),
    ];
    put_line(out, &fields)
}

// What is declared as this word says, with its type.
fn put_typed(
    alloc: Global,
    out: &mut Vec<u8>,
    named: &Names,
    at: &At,
    name: &Name,
    word: &[u8],
    term: &Term,
) -> Result<(), AllocError>
    ensures { OnOk result (out.new.items ≡ out.old.items ++ line_text (codes "def" ∷ place_text at.now ∷ name.now ∷ word.now ∷ type_text (map named_view named.now) (type_of term.now) ∷ [])) }
{
    let at = place_text(alloc, at)?;
    let term = type_text(alloc, named, term)?;
    let fields = [
        b"def",
        at.as_bytes(),
        name.as_bytes(),
        word,
        term.as_slice(),
    ];
    put_line(out, &fields)
}

// The name of an import, with the path of its package.
fn put_imported(
    alloc: Global,
    out: &mut Vec<u8>,
    at: &At,
    name: &Name,
    path: &Name,
) -> Result<(), AllocError>
    ensures { OnOk result (out.new.items ≡ out.old.items ++ line_text (what_fields [] at.now (defined name.now (imported path.now)))) }
{
    let at = place_text(alloc, at)?;
    let fields = [
        b"def",
        at.as_bytes(),
        name.as_bytes(),
        b"package",
        path.as_bytes(),
    ];
    put_line(out, &fields)
}

// A name that denotes an object.
fn put_use(
    alloc: Global,
    out: &mut Vec<u8>,
    at: &At,
    name: &Name,
    declared: &Option<At>,
) -> Result<(), AllocError>
    ensures { OnOk result (out.new.items ≡ out.old.items ++ line_text (what_fields [] at.now (used name.now declared.now))) }
{
    let at = place_text(alloc, at)?;
    let declared = declared_text(alloc, declared)?;
    put_line(
        out,
        &[b"use", at.as_bytes(), name.as_bytes(), declared.as_bytes()],
    )
}

// The fields that each expression has.
fn put_expr_fields(
    alloc: Global,
    out: &mut Vec<u8>,
    at: &At,
    end: LineCol,
    mode: Mode,
) -> Result<(), AllocError>
    ensures { OnOk result (out.new.items ≡ out.old.items ++ join_with_byte 9 (codes "expr" ∷ place_text at.now ∷ end_text end ∷ mode_text mode ∷ [])) }
{
    let at = place_text(alloc, at)?;
    let end = end_text(alloc, end)?;
    put_fields(
        out,
        &[b"expr", at.as_bytes(), end.as_bytes(), mode_text(mode)],
    )
}

fn mode_text(mode: Mode) -> &'static [u8]
    ensures { result.now ≡ mode_text mode }
{
    match mode {
        Mode::NoValue => b"novalue",
        Mode::Builtin => b"builtin",
        Mode::IsType => b"type",
        Mode::Const => b"const",
        Mode::Var => b"var",
        Mode::MapIndex => b"mapindex",
        Mode::Value => b"value",
        Mode::Nil => b"nil",
        Mode::CommaOk => b"commaok",
    }
}

fn put_type_field(
    alloc: Global,
    out: &mut Vec<u8>,
    named: &Names,
    term: &Option<Term>,
) -> Result<(), AllocError>
    ensures { OnOk result (out.new.items ≡ out.old.items ++ flat_map (λ field. 9 ∷ field) (type_fields (map named_view named.now) (option_map type_of term.now))) }
{
    match term {
        None => Ok(()),
        Some(term) => {
            let text = type_text(alloc, named, term)?;
            put_field(out, text.as_slice())
        }
    }
}

fn put_value_field(
    alloc: Global,
    out: &mut Vec<u8>,
    value: &Option<Value>,
) -> Result<(), AllocError>
    ensures { OnOk result (out.new.items ≡ out.old.items ++ flat_map (λ field. 9 ∷ field) (value_fields value.now)) }
{
    match value {
        None => Ok(()),
        Some(value) => {
            let text = value_bytes(alloc, value)?;
            put_field(out, text.as_slice())
        }
    }
}

// The text of a value. The error is want of memory, which this crate tells as `AllocError`.
fn value_bytes(alloc: Global, value: &Value) -> Result<Vec<u8>, AllocError>
    ensures { IfOk result (λ text. text.items ≡ texts.value_text value.now) }
{
    let text = value_text(alloc, value).map_err(|_| AllocError)?;
    Ok(text.into_vec())
}
