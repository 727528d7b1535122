// Types as rows write them: words, each of which takes what it needs from stacks.
use crate::numbers::number;
use crate::row::RowFault;
use go_base::{Bytes, Name, ObjId};
use go_term::{Basic, Dir, ElemTerm, FieldTerm, FuncTerm, Term, UnionTerm};
use std::alloc::{AllocError, Global};
use std::mem;

/// Reads types that words write, in a section at that line. Each field, each method and each type parameter is an object
/// of its own.
#[derive(Drop)]
pub struct Words {
    alloc: Global,
    line: usize,
    objects: usize,
    types: Vec<Term>,
    fields: Vec<FieldTerm>,
    elements: Vec<ElemTerm>,
    terms: Vec<UnionTerm>,
}

impl Words {
    /// Nothing is read.
    pub fn new(alloc: Global, line: usize) -> Words {
        Words {
            alloc,
            line,
            objects: 0,
            types: Vec::new(alloc),
            fields: Vec::new(alloc),
            elements: Vec::new(alloc),
            terms: Vec::new(alloc),
        }
    }

    /// The types that the words of a line leave, and nothing else, within the limits on types.
    pub fn types(&mut self, line: &str) -> Result<Vec<Term>, RowFault> {
        for word in line.split(' ') {
            self.read(word)?;
        }
        if !self.fields.is_empty() || !self.elements.is_empty() || !self.terms.is_empty() {
            return Err(self.unread("a field, an element or a term is in no type"));
        }
        if self.types.iter().any(|ty| ty.size().check().is_err()) {
            return Err(self.unread("a type is past the limits"));
        }
        Ok(mem::replace(&mut self.types, Vec::new(self.alloc)))
    }

    /// The one type that the words of a line leave.
    pub fn one_type(&mut self, line: &str) -> Result<Term, RowFault> {
        let mut types = self.types(line)?;
        match types.pop() {
            Some(ty) if types.is_empty() => Ok(ty),
            _ => Err(self.unread("a line leaves no type or several")),
        }
    }

    /// An object that was not there before.
    pub fn new_object(&mut self) -> ObjId {
        self.objects = self.objects.saturating_add(1);
        ObjId(self.objects)
    }

    /// The object of that number.
    pub fn object(&self, digits: &str) -> Result<ObjId, RowFault> {
        Ok(ObjId(self.number(digits)?))
    }

    /// The number that digits write.
    pub fn number(&self, digits: &str) -> Result<usize, RowFault> {
        number(digits).ok_or(self.unread("a word of a type has no number where one stands"))
    }

    fn unread(&self, why: &'static str) -> RowFault {
        RowFault::unread(self.line, why)
    }

    fn read(&mut self, word: &str) -> Result<(), RowFault> {
        let parts: Vec<&str> = word.split(':').collect(self.alloc)?;
        match parts.as_slice() {
            ["field", name, package] => self.put_field(false, name, package, ""),
            ["field", name, package, tag] => self.put_field(false, name, package, tag),
            ["embedded", name, package] => self.put_field(true, name, package, ""),
            ["embedded", name, package, tag] => self.put_field(true, name, package, tag),
            ["method", name, package, takes, gives] => {
                self.put_method(false, name, package, takes, gives)
            }
            ["variadic-method", name, package, takes, gives] => {
                self.put_method(true, name, package, takes, gives)
            }
            ["term"] => self.put_term(false),
            ["tilde"] => self.put_term(true),
            ["union", count] => self.put_union(count),
            ["embed"] => {
                self.put_term(false)?;
                self.put_union("1")
            }
            parts => {
                let ty = self.type_of(parts)?;
                self.types.push(ty)?;
                Ok(())
            }
        }
    }

    // The type that a word makes of those before it.
    fn type_of(&mut self, parts: &[&str]) -> Result<Term, RowFault> {
        Ok(match parts {
            ["pointer"] => Term::Pointer(self.boxed()?),
            ["slice"] => Term::Slice(self.boxed()?),
            ["array", length] => Term::Array(self.number(length)? as u64, self.boxed()?),
            ["map"] => {
                let value = self.boxed()?;
                Term::Map(self.boxed()?, value)
            }
            ["chan"] => Term::Chan(Dir::Both, self.boxed()?),
            ["receive"] => Term::Chan(Dir::Receive, self.boxed()?),
            ["send"] => Term::Chan(Dir::Send, self.boxed()?),
            ["func", takes, gives] => Term::Func(self.func(false, takes, gives)?),
            ["variadic", takes, gives] => Term::Func(self.func(true, takes, gives)?),
            ["struct", count] => {
                let count = self.number(count)?;
                Term::Struct(taken(self.line, &mut self.fields, count)?)
            }
            ["interface", count] => {
                let count = self.number(count)?;
                Term::Interface(taken(self.line, &mut self.elements, count)?)
            }
            ["tuple", count] => Term::Tuple(self.taken_types(count)?),
            ["type", d, count] => Term::Named(self.object(d)?, self.taken_types(count)?),
            ["param", d, place] => Term::Param(self.object(d)?, self.number(place)?),
            [name] => match basic_of(name) {
                Some(basic) => Term::Basic(basic),
                None => return Err(self.unread("no such word of a type")),
            },
            _ => return Err(self.unread("no such word of a type")),
        })
    }

    fn top(&mut self) -> Result<Term, RowFault> {
        match self.types.pop() {
            Some(ty) => Ok(ty),
            None => Err(self.unread(TOO_FEW)),
        }
    }

    fn boxed(&mut self) -> Result<Box<Term>, RowFault> {
        let ty = self.top()?;
        Ok(Box::new(self.alloc, ty)?)
    }

    fn taken_types(&mut self, count: &str) -> Result<Vec<Term>, RowFault> {
        let count = self.number(count)?;
        taken(self.line, &mut self.types, count)
    }

    // The signature of so many parameters and so many results.
    fn func(&mut self, variadic: bool, takes: &str, gives: &str) -> Result<FuncTerm, RowFault> {
        let results = self.taken_types(gives)?;
        let params = self.taken_types(takes)?;
        if variadic && params.is_empty() {
            return Err(self.unread("a variadic function has no parameter"));
        }
        Ok(FuncTerm {
            params,
            variadic,
            results,
        })
    }

    fn put_field(
        &mut self,
        embedded: bool,
        name: &str,
        package: &str,
        tag: &str,
    ) -> Result<(), RowFault> {
        let field = FieldTerm {
            object: self.new_object(),
            name: name_of(self.alloc, name)?,
            package: name_of(self.alloc, package)?,
            embedded,
            ty: self.top()?,
            tag: Bytes::new(tag.as_bytes().to_vec(self.alloc)?),
        };
        self.fields.push(field)?;
        Ok(())
    }

    fn put_method(
        &mut self,
        variadic: bool,
        name: &str,
        package: &str,
        takes: &str,
        gives: &str,
    ) -> Result<(), RowFault> {
        let func = self.func(variadic, takes, gives)?;
        let object = self.new_object();
        let name = name_of(self.alloc, name)?;
        let package = name_of(self.alloc, package)?;
        self.elements
            .push(ElemTerm::Method(object, name, package, func))?;
        Ok(())
    }

    fn put_term(&mut self, tilde: bool) -> Result<(), RowFault> {
        let ty = self.top()?;
        self.terms.push(UnionTerm { tilde, ty })?;
        Ok(())
    }

    fn put_union(&mut self, count: &str) -> Result<(), RowFault> {
        let count = self.number(count)?;
        let terms = taken(self.line, &mut self.terms, count)?;
        self.elements.push(ElemTerm::Union(terms))?;
        Ok(())
    }
}

const TOO_FEW: &str = "a word takes more than stands before it";

// The last of a stack, so many.
fn taken<T: Drop>(line: usize, stack: &mut Vec<T>, count: usize) -> Result<Vec<T>, RowFault> {
    match stack.len().checked_sub(count) {
        Some(from) => Ok(stack.split_off(from)?),
        None => Err(RowFault::unread(line, TOO_FEW)),
    }
}

fn name_of(alloc: Global, text: &str) -> Result<Name, AllocError> {
    Ok(Name::new(String::from_str(alloc, text)?))
}

fn basic_of(name: &str) -> Option<Basic> {
    Some(match name {
        "bool" => Basic::Bool,
        "comparable" => Basic::Comparable,
        "complex64" => Basic::Complex64,
        "complex128" => Basic::Complex128,
        "error" => Basic::Error,
        "float32" => Basic::Float32,
        "float64" => Basic::Float64,
        "int" => Basic::Int,
        "int8" => Basic::Int8,
        "int16" => Basic::Int16,
        "int32" => Basic::Int32,
        "int64" => Basic::Int64,
        "string" => Basic::String,
        "uint" => Basic::Uint,
        "uint8" => Basic::Uint8,
        "uint16" => Basic::Uint16,
        "uint32" => Basic::Uint32,
        "uint64" => Basic::Uint64,
        "uintptr" => Basic::Uintptr,
        _ => return None,
    })
}
