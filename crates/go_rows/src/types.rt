// What the rulebook says of types, over the headers that a row declares beside them.
use crate::head::Asked;
use crate::row::RowFault;
use crate::type_words::Words;
use go_base::{Name, ObjId};
use go_check::Rulebook;
use go_model::{Answer, Ask, Form, Forms, Header, Rules, Same, TypeParam};
use go_module::Module;
use go_term::Term;
use std::alloc::{AllocError, Global};

/// What is said of the types of a text, in whose row something is wanted at that line; None for what is not said of
/// types.
pub fn types_answer(
    alloc: Global,
    line: usize,
    text: &[u8],
    asked: Asked,
    wanted: &[u8],
) -> Result<Option<Vec<u8>>, RowFault> {
    let module = no_packages(alloc)?;
    let mut row = TypeRow {
        alloc,
        line,
        words: Words::new(alloc, line),
        book: Rulebook::new(alloc, &module, &[]),
    };
    let types = row.told_types(text)?;
    match (asked, types.as_slice()) {
        (Asked::Identical, [a, b]) => Ok(Some(row.identity_line(a, b)?)),
        (Asked::Underlying, [ty]) => Ok(Some(row.underlying_line(ty, wanted)?)),
        (Asked::Identical | Asked::Underlying, _) => {
            Err(RowFault::unread(line, "the row has too few types or too many"))
        }
        _ => Ok(None),
    }
}

// A module without packages.
fn no_packages(alloc: Global) -> Result<Module, AllocError> {
    Ok(Module {
        path: Name::new(String::from_str(alloc, "m")?),
        version: 21,
        packages: Vec::new(alloc),
    })
}

// The types of a row: who reads them, and who is told their headers and asked.
#[derive(Drop)]
struct TypeRow<'a> {
    alloc: Global,
    line: usize,
    words: Words,
    book: Rulebook<'a>,
}

impl TypeRow<'_> {
    // Tells the headers of the lines that declare, and gives the types of the others.
    fn told_types(&mut self, text: &[u8]) -> Result<Vec<Term>, RowFault> {
        let mut types = Vec::new(self.alloc);
        for text in self.read_text(text)?.split('\n') {
            match text.split_once(" = ") {
                Some((head, right)) => self.tell(head, right)?,
                None => types.push(self.words.one_type(text)?)?,
            }
        }
        Ok(types)
    }

    fn read_text<'b>(&self, text: &'b [u8]) -> Result<&'b str, RowFault> {
        match str::from_utf8(text) {
            Ok(text) => Ok(text),
            Err(_) => Err(RowFault::unread(self.line, "the types are not UTF-8")),
        }
    }

    // Tells the header of a declaration, which has none.
    fn tell(&mut self, head: &str, right: &str) -> Result<(), RowFault> {
        let (head, is_func) = match head.strip_prefix("func ") {
            Some(head) => (head, true),
            None => (head, false),
        };
        let Some((d, count)) = head.split_once(':') else {
            return Err(RowFault::unread(
                self.line,
                "a declaration has no number of type parameters",
            ));
        };
        let d = self.words.object(d)?;
        let count = self.words.number(count)?;
        let (params, right) = self.params_and_right(count, right)?;
        let header = if is_func {
            Header::Func(params, right)
        } else {
            Header::Defined(params, right, Vec::new(self.alloc))
        };
        match self.book.ask(d)? {
            None => Ok(self.book.learn(d, &header)?),
            Some(_) => Err(RowFault::unread(self.line, "two declarations have one number")),
        }
    }

    // So many type parameters by their constraints, and the type behind these.
    fn params_and_right(
        &mut self,
        count: usize,
        text: &str,
    ) -> Result<(Vec<TypeParam>, Term), RowFault> {
        let mut bounds = self.words.types(text)?;
        match bounds.pop() {
            Some(right) if bounds.len() == count => {
                let mut params = Vec::new(self.alloc);
                for bound in bounds {
                    let object = self.words.new_object();
                    params.push(TypeParam { object, bound })?;
                }
                Ok((params, right))
            }
            _ => Err(RowFault::unread(self.line, "a declaration has other types than it should")),
        }
    }

    // The line of whether two types are identical.
    fn identity_line(&mut self, a: &Term, b: &Term) -> Result<Vec<u8>, RowFault> {
        match self.book.identical(self.alloc, a, b)? {
            Answer::Yes => Ok(b"yes\n".to_vec(self.alloc)?),
            Answer::No => Ok(b"no\n".to_vec(self.alloc)?),
            Answer::Unknown(d) => Ok(lacks_line(self.alloc, d)?),
        }
    }

    // The line of the underlying type: that which is wanted, where it writes an identical type.
    fn underlying_line(&mut self, ty: &Term, wanted: &[u8]) -> Result<Vec<u8>, RowFault> {
        match self.book.underlying(self.alloc, ty)? {
            Form::Absent => Ok(b"none\n".to_vec(self.alloc)?),
            Form::Unknown(d) => Ok(lacks_line(self.alloc, d)?),
            Form::Is(found) => {
                if let Some(other) = self.wanted_type(wanted)?
                    && self.book.identical(self.alloc, &found, &other)? == Answer::Yes
                {
                    return Ok(wanted.to_vec(self.alloc)?);
                }
                Ok(format!(in self.alloc; "{found:?}\n")?.into_bytes())
            }
        }
    }

    // The underlying type that is wanted; None where none is.
    fn wanted_type(&mut self, wanted: &[u8]) -> Result<Option<Term>, RowFault> {
        let text = self.read_text(wanted)?;
        if text == "none\n" || text.starts_with("lacks ") {
            return Ok(None);
        }
        let line = text.strip_suffix('\n').unwrap_or(text);
        Ok(Some(self.words.one_type(line)?))
    }
}

fn lacks_line(alloc: Global, d: ObjId) -> Result<Vec<u8>, AllocError> {
    let number = d.0;
    Ok(format!(in alloc; "lacks {number}\n")?.into_bytes())
}
