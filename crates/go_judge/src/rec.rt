// Records: what is known of an expression.
ghost use Rattle.std.specs.Prelude.{◌≡◌, IfOk};
ghost use Rattle.std.specs.Option.{option_map};
ghost use Rattle.go_term.specs.View.{type_of};
ghost use Rattle.go_judge.specs.Records.{rec_view};

use crate::value::copy_of;
use go_module::ObjId;
use go_num::Value;
use go_term::Ty;
use std::alloc::AllocError;

/// What an expression stands for (Go specification, "Expressions").
#[derive(Clone, Copy, Debug, PartialEq, Eq)]
pub enum Mode {
    /// a call without results
    NoValue,
    /// a built-in function
    Builtin,
    /// a type
    IsType,
    /// a constant
    Const,
    /// a variable, or what else can be addressed
    Var,
    /// an element of a map
    MapIndex,
    /// any other value
    Value,
    /// `nil`
    Nil,
    /// a receive or a type assertion, which can give a second value
    CommaOk,
}

/// The record of an expression: what it stands for, its type, its value where it is a constant, the object
/// that it denotes where it is a name or a qualified identifier, parentheses aside, and, of an untyped integer
/// or rune that is no constant, the least and the greatest constant in it whose final type is that of the
/// whole.
#[derive(Debug, Drop)]
pub struct Rec {
    pub mode: Mode,
    pub ty: Option<Ty>,
    pub value: Option<Value>,
    pub object: Option<ObjId>,
    pub span: Option<(i128, i128)>,
}

impl Clone for Rec {
    ghost is_clone = { λ rec copy. rec_view copy ≡ rec_view rec };

    /// The record once more. An error is want of memory.
    fn clone(&self) -> Result<Rec, AllocError> {
        Ok(Rec {
            mode: self.mode,
            ty: type_copy(&self.ty)?,
            value: some_copy(&self.value)?,
            object: self.object,
            span: self.span,
        })
    }
}

// The type, if there is one, once more.
fn type_copy(ty: &Option<Ty>) -> Result<Option<Ty>, AllocError>
    ensures { IfOk result (λ copy. option_map type_of copy ≡ option_map type_of ty.now) }
{
    match ty {
        Some(ty) => Ok(Some(ty.clone()?)),
        None => Ok(None),
    }
}

// The value, if there is one, once more.
fn some_copy(value: &Option<Value>) -> Result<Option<Value>, AllocError>
    ensures { IfOk result (λ copy. copy ≡ value.now) }
{
    match value {
        Some(value) => Ok(Some(copy_of(value)?)),
        None => Ok(None),
    }
}
