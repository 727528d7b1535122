// Places of the grammar: each stands for a right side.
ghost use Rattle.std.specs.Prelude.{◌≡◌, ◌<◌, ◌+◌, length, slice_get, true};
ghost use Rattle.go_tree.specs.Grammar.Trees.Sentence.{production};
ghost use Rattle.go_parse_x.specs.Tables.Leads.{all_led};
ghost use Rattle.go_parse_x.specs.Tables.Lines.{side};

use crate::line::Step;
use crate::lines::line_of;
use go_tree::Production;
use std::marker::Model;

/// A place in the right side of a production.
#[derive(Debug, Drop)]
pub struct Place {
    line: &'static [Step],
    at: usize,
}

impl Model for Place {
    ghost use Rattle.std.specs.Prelude.{ℕ, List, ◌≡◌, true};
    ghost use Rattle.go_parse_x.specs.declared.line.Step.{Step};
    ghost use Rattle.go_parse_x.specs.Tables.Leads.{all_led};

    // a line and where in it; which right side that is: `side`
    ghost Value = { List Step × ℕ };

    ghost view = { λ p. (p.line.now, p.at) };

    // the sets beside the steps of the line are right
    ghost invariant = { λ p. all_led p.line.now ≡ true };
}

impl Place {
    /// Where a production is called.
    pub fn start(n: Production) -> Place
        ensures { side result ≡ production n }
    {
        Place {
            line: line_of(n),
            at: 0,
        }
    }

    /// The step that stands here, if one does.
    pub fn step(&self) -> Option<Step>
        ensures step { result ≡ slice_get self.now.0 self.now.1 }
        ensures led { all_led self.now.0 ≡ true }
    {
        self.line.get(self.at).copied()
    }

    /// The place so many steps behind the next one.
    pub fn behind(&self, further: u16) -> Place
        requires { self.now.1 < length self.now.0 }
        ensures { result ≡ (self.now.0, self.now.1 + 1 + further) }
    {
        Place {
            line: self.line,
            at: self.at + 1 + usize::from(further),
        }
    }
}
