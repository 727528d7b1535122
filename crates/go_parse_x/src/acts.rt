// What acts make of the open nodes.
ghost use Rattle.std.specs.Prelude.{◌≡◌, ℕ, ◌∷◌, [], List, Some, None, IfOk, OnOk, MatchBool};
ghost use Rattle.go_tree.specs.declared.token.Token.{Token as TokenOf};
ghost use Rattle.go_tree.specs.Grammar.Trees.Reading.{acted, next_start, reopen as reopened_so, adopt as adopted_so, close_last, ends_in_type as ends_so};
ghost use Rattle.go_parse_x.specs.Tables.Opened.{frames, numbers, Rises};
ghost use Rattle.go_parse_x.specs.Tables.Shapes.{act_of};
ghost use Rattle.go_parse_x.specs.Machine.Turns.{at};

use crate::closing::close;
use crate::line::Act;
use crate::opened::{OpenNode, adopt, open, reopen};
use crate::type_tree::ends_in_type;
use go_base::NoMemory;
use std::alloc::Global;

/// Where an act is made: where the next token starts, where the last one ended, and the text.
#[derive(Clone, Copy, Debug)]
pub struct Here<'a> {
    pub bytes: &'a [u8],
    pub start: usize,
    pub last: usize,
}

/// Makes an act; whether it is possible.
pub fn act(
    alloc: Global,
    here: Here,
    number: &mut usize,
    opened: &mut Vec<OpenNode>,
    act: Act,
) -> Result<bool, NoMemory>
    ensures acted { IfOk result (λ made. MatchBool made
        ((ts : List TokenOf) → next_start here.entry.last ts ≡ here.entry.start → acted here.entry.bytes.now (act_of act) (at here.entry.last ts (frames opened.old.items)) ≡ Some (at here.entry.last ts (frames opened.new.items)))
        ((ts : List TokenOf) → acted here.entry.bytes.now (act_of act) (at here.entry.last ts (frames opened.old.items)) ≡ None)) }
    ensures numbers { OnOk result ((low : ℕ) → Rises low (numbers opened.old.items) number.old → Rises low (numbers opened.new.items) number.new) }
{
    match act {
        Act::Open => {
            open(alloc, opened, here.start)?;
            Ok(true)
        }
        Act::Reopen => {
            reopen(alloc, opened)?;
            Ok(true)
        }
        Act::Adopt => {
            adopt(opened)?;
            Ok(true)
        }
        Act::CheckType => Ok(ends_in_type(opened)),
        Act::Close(kind) => {
            close(alloc, here.bytes, opened, kind, here.last, number)?;
            Ok(true)
        }
    }
}
