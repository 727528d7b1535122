// The height at the last token, kept up token by token.
ghost use Rattle.std.specs.Prelude.{◌≡◌, ◌↔◌, ℕ, ◌+◌, List, [], ◌∷◌, ◌++◌, length, OnOk, IfOk, IsTrue};
ghost use Rattle.go_tree.specs.declared.token.Token.{Token};
ghost use Rattle.go_tree.specs.declared.production.Production.TheVariants.{Block};
ghost use Rattle.go_tree.specs.declared.token_height.Role.TheVariants.{Opens, Closes, Separates, CountsOn, Counts as CountsSo};
ghost use Rattle.go_tree.specs.Height.{Mark, Passing, height_of, marks_behind};
ghost use Rattle.go_tree.specs.Grammar.Trees.Sentence.{IsA};
ghost use Rattle.go_parse_x.specs.Machine.Heights.{AreLevels, Counts, HasRoom, enclosing, level_in};

use go_base::NoMemory;
use go_tree::{Role, TokenKind, role_behind};
use std::alloc::Global;

/// How many tokens count behind the tokens of a piece so far. A level is kept for each open bracket, so
/// that one more token takes a few steps. After an error nothing is known of them.
#[derive(Debug, Drop)]
pub struct Heights {
    levels: Levels,
    last: Option<TokenKind>,
    // what it is matters only behind an identifier
    before: Option<TokenKind>,
}

impl Heights {
    /// Behind no token.
    pub fn new(alloc: Global) -> Heights
        ensures { Counts result [] }
    {
        Heights {
            levels: Levels {
                outer: Vec::new(alloc),
                inner: NO_LEVEL,
                total: 0,
            },
            last: None,
            before: None,
        }
    }

    /// The height at the last token; 0 before the first.
    pub fn total(&self) -> usize
        ensures { (ts : List Token) → Counts self.now ts → result ≡ height_of ts }
    {
        self.levels.total
    }

    /// One more token of that kind.
    pub fn take(&mut self, kind: TokenKind) -> Result<(), NoMemory>
        ensures { OnOk result ((ts : List Token) (t : Token) → t.kind ≡ kind → Counts self.old ts → Counts self.new (ts ++ t ∷ [])) }
    {
        let role = role_behind(kind, self.last, self.before);
        self.levels.take(role)?;
        self.before = self.last;
        self.last = Some(kind);
        Ok(())
    }

    /// Whether the tokens of a whole block more can be counted.
    pub fn has_room(&self) -> bool
        ensures { IsTrue result ↔ HasRoom self.now.levels }
    {
        self.levels.has_room()
    }

    /// The tokens of a whole block more.
    pub fn block(&mut self)
        requires { HasRoom self.old.levels }
        ensures { (bytes : List ℕ) (ts bs : List Token) → IsA bytes Block bs → Counts self.old ts → Counts self.new (ts ++ bs) }
    {
        self.levels.braces();
        self.last = Some(TokenKind::RightBrace);
        self.before = None;
    }
}

/// How many lasting and how many passing tokens count since a bracket.
#[derive(Clone, Copy, Debug, PartialEq, Eq)]
struct Level {
    lasting: usize,
    passing: usize,
}

const NO_LEVEL: Level = Level {
    lasting: 0,
    passing: 0,
};

/// The levels of the open brackets: the innermost, and those around it, the outermost first. And how
/// many tokens count in all.
#[derive(Debug, Drop)]
struct Levels {
    outer: Vec<Level>,
    inner: Level,
    total: usize,
}

impl Levels {
    // One more token of that role.
    fn take(&mut self, role: Role) -> Result<(), NoMemory>
        ensures { OnOk result ((ms : List Mark) → AreLevels self.old ms → AreLevels self.new (marks_behind ms role)) }
    {
        match role {
            Role::Opens => self.opens(),
            Role::Closes => self.closes(),
            Role::Separates => {
                self.separates();
                Ok(())
            }
            Role::CountsOn => self.counts_on(),
            Role::Counts => self.counts(),
        }
    }

    fn opens(&mut self) -> Result<(), NoMemory>
        ensures { OnOk result ((ms : List Mark) → AreLevels self.old ms → AreLevels self.new (marks_behind ms Opens)) }
    {
        let total = sum(self.total, 1)?;
        self.outer.push(self.inner)?;
        self.inner = NO_LEVEL;
        self.total = total;
        Ok(())
    }

    fn closes(&mut self) -> Result<(), NoMemory>
        ensures { OnOk result ((ms : List Mark) → AreLevels self.old ms → AreLevels self.new (marks_behind ms Closes)) }
    {
        match self.outer.pop() {
            Some(level) => self.leaves(level),
            None => {
                self.inner = Level {
                    lasting: 0,
                    passing: 1,
                };
                self.total = 1;
                Ok(())
            }
        }
    }

    // The innermost bracket is closed, and that level is behind the one around it.
    fn leaves(&mut self, level: Level) -> Result<(), NoMemory>
        ensures { OnOk result ((ms : List Mark) → self.old.outer.items ++ level ∷ [] ≡ enclosing ms → self.old.inner ≡ level_in ms → self.old.total ≡ length ms → AreLevels self.new (marks_behind ms Closes)) }
    {
        let others = self
            .total
            .saturating_sub(self.inner.lasting)
            .saturating_sub(self.inner.passing);
        let total = sum(others, 1)?;
        let passing = sum(level.passing, 2)?;
        self.inner = Level {
            lasting: level.lasting,
            passing,
        };
        self.total = total;
        Ok(())
    }

    // Whether two passing tokens more can be counted.
    fn has_room(&self) -> bool
        ensures { IsTrue result ↔ HasRoom self.now }
    {
        self.total <= usize::MAX - 2 && self.inner.passing <= usize::MAX - 2
    }

    // Two passing tokens more.
    fn braces(&mut self)
        requires { HasRoom self.old }
        ensures { (ms : List Mark) → AreLevels self.old ms → AreLevels self.new (Passing ∷ (Passing ∷ ms)) }
    {
        self.total += 2;
        self.inner.passing += 2;
    }

    fn separates(&mut self)
        ensures { (ms : List Mark) → AreLevels self.old ms → AreLevels self.new (marks_behind ms Separates) }
    {
        self.total = self.total.saturating_sub(self.inner.passing);
        self.inner.passing = 0;
    }

    fn counts_on(&mut self) -> Result<(), NoMemory>
        ensures { OnOk result ((ms : List Mark) → AreLevels self.old ms → AreLevels self.new (marks_behind ms CountsOn)) }
    {
        let total = sum(self.total, 1)?;
        self.inner.lasting = sum(self.inner.lasting, 1)?;
        self.total = total;
        Ok(())
    }

    fn counts(&mut self) -> Result<(), NoMemory>
        ensures { OnOk result ((ms : List Mark) → AreLevels self.old ms → AreLevels self.new (marks_behind ms CountsSo)) }
    {
        let total = sum(self.total, 1)?;
        self.inner.passing = sum(self.inner.passing, 1)?;
        self.total = total;
        Ok(())
    }
}

// A sum that does not fit is want of memory: so many tokens fit none.
fn sum(a: usize, b: usize) -> Result<usize, NoMemory>
    ensures { IfOk result (λ n. n ≡ a + b) }
{
    a.checked_add(b).ok_or(NoMemory)
}
