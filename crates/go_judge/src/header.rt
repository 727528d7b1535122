// Headers: what a declaration tells others.
ghost use Rattle.std.specs.Prelude.{◌≡◌, IfOk, map};
ghost use Rattle.go_judge.specs.Records.{header_view, param_view};

use crate::value::copy_of;
use go_module::{Method, ObjId};
use go_num::Value;
use go_term::Ty;
use std::alloc::AllocError;

/// What a declaration tells others.
#[derive(Debug, Drop)]
pub enum Header {
    /// the type and the value of a constant (Go specification, "Constant declarations")
    Const(Ty, Value),
    /// the type of a variable ("Variable declarations")
    Var(Ty),
    /// the type parameters and the type of a function; a method's type is without its receiver ("Function
    /// declarations", "Method declarations")
    Func(Vec<TypeParam>, Ty),
    /// the type parameters of a defined type, its right side, and its methods ("Type definitions")
    Defined(Vec<TypeParam>, Ty, Vec<Method>),
    /// the type for which an alias stands ("Alias declarations")
    Alias(Ty),
}

/// A type parameter: the object that is declared, and its constraint as an interface ("Type parameter declarations").
#[derive(Debug, Drop)]
pub struct TypeParam {
    pub object: ObjId,
    pub bound: Ty,
}

impl Clone for TypeParam {
    ghost is_clone = { λ param copy. param_view copy ≡ param_view param };

    /// The type parameter once more. An error is want of memory.
    fn clone(&self) -> Result<TypeParam, AllocError> {
        Ok(TypeParam {
            object: self.object,
            bound: self.bound.clone()?,
        })
    }
}

impl Clone for Header {
    ghost is_clone = { λ header copy. header_view copy ≡ header_view header };

    /// The header once more. An error is want of memory.
    fn clone(&self) -> Result<Header, AllocError> {
        Ok(match self {
            Header::Const(ty, value) => Header::Const(ty.clone()?, copy_of(value)?),
            Header::Var(ty) => Header::Var(ty.clone()?),
            Header::Func(params, ty) => Header::Func(copied_params(params)?, ty.clone()?),
            Header::Defined(params, right, methods) => Header::Defined(
                copied_params(params)?,
                right.clone()?,
                copied_methods(methods)?,
            ),
            Header::Alias(ty) => Header::Alias(ty.clone()?),
        })
    }
}

// The type parameters once more.
fn copied_params(params: &Vec<TypeParam>) -> Result<Vec<TypeParam>, AllocError>
    ensures { IfOk result (λ copy. map param_view copy.items ≡ map param_view params.now.items) }
{
    let mut all = Vec::new(*params.allocator());
    for param in params {
        all.push(param.clone()?)?;
    }
    Ok(all)
}

// The methods once more.
fn copied_methods(methods: &Vec<Method>) -> Result<Vec<Method>, AllocError>
    ensures { IfOk result (λ copy. copy.items ≡ methods.now.items) }
{
    let mut all = Vec::new(*methods.allocator());
    for method in methods {
        all.push(copied_method(method)?)?;
    }
    Ok(all)
}

// The method once more.
fn copied_method(method: &Method) -> Result<Method, AllocError>
    ensures { IfOk result (λ copy. copy ≡ method.now) }
{
    Ok(Method {
        object: method.object,
        name: method.name.clone()?,
        package: method.package.clone()?,
        pointer: method.pointer,
    })
}
