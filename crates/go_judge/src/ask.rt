// Maps of headers that can be asked (Go specification, "Declarations and scope").
ghost use Rattle.std.specs.Prelude.{◌≡◌, Bool, false, IfOk, IfSome};
ghost use Rattle.std.specs.Option.{option_map};
ghost use Rattle.go_judge.specs.Records.{header_as};
ghost use Rattle.go_judge.specs.Headers.{Headers, Outcomes};
ghost use Rattle.go_judge.specs.Types.Own.{IsOwnHeader, KeepsTypes};
ghost use Rattle.go_judge.specs.Naming.{Naming};
ghost use Rattle.go_term.specs.Types.{TypeData};
ghost use Rattle.go_term.specs.View.{type_of};
ghost use Rattle.go_term.specs.declared.term.Term.{Term};

use crate::header::Header;
use go_base::NoMemory;
use go_module::ObjId;

/// A map of headers that can be asked.
pub trait Ask {
    /// What the map has for each declaration, by its number.
    ghost headers: { Self → Headers };

    /// What identifiers denote in the package whose expressions are judged, and the objects there; nothing where the
    /// map knows no identifiers. It stands here, since a call of `ask` keeps it.
    ghost names: { Self → Naming };

    /// The outcomes that walks over expressions left, by the numbers of nodes; nothing where no walk keeps any. They
    /// stand here, since a call of `ask` keeps them.
    ghost outcomes: { Self → Outcomes };

    /// Whether want of memory was met while a header was told: then each call that can answer it does.
    ghost is_spent: { Self → Bool };

    /// What stays while headers are asked and told: its type.
    ghost World: { Type 0 };

    /// What stays while headers are asked and told.
    ghost world: { Self → World };

    /// Which types are its own: it gave them, or was given them as its own. They stand here, since a call of `ask` keeps
    /// them.
    ghost is_type: { Self → Term → Type 0 };

    /// What a type of its own stands for.
    ghost tree: { Self → Term → TypeData };

    /// The header of a declaration, None exactly where the map has none; its types are of the map's own. An error is want
    /// of memory. The map, the names, the outcomes, its types, and what else stays are as before, also on an error.
    fn ask(&mut self, d: ObjId) -> Result<Option<Header>, NoMemory>
        ensures answer { IfOk result (λ header. option_map (header_as (tree self.new)) header ≡ headers self.old d.0) }
        ensures own { IfOk result (λ header. IfSome header (IsOwnHeader (is_type self.new))) }
        ensures same { headers self.new ≡ headers self.old }
        ensures names { names self.new ≡ names self.old }
        ensures outcomes { outcomes self.new ≡ outcomes self.old }
        ensures unspent { IfOk result (λ header. is_spent self.old ≡ false) }
        ensures spent { is_spent self.new ≡ is_spent self.old }
        ensures world { world self.new ≡ world self.old }
        ensures types { KeepsTypes (is_type self.old) (is_type self.new) (tree self.old) (tree self.new) };

    /// A type once more is its own, and stands for what the type stands for.
    ghost copies: { (asked : Self) (t copy : Term) → type_of copy ≡ type_of t → is_type asked t
        → is_type asked copy × (tree asked copy ≡ tree asked t) };

    /// As long as types are terms, a type of its own stands for the term that it is.
    ghost plain: { (asked : Self) (t : Term) → is_type asked t → tree asked t ≡ type_of t };
}
