// How far the question whether two types are identical may go (Go specification, "Type identity").
ghost use Rattle.std.specs.Prelude.{◌≡◌, ◌+◌, IfNone, IfSome, true, false, nat_le, not};
ghost use Rattle.go_judge.specs.Types.Forms.{answer_as};
ghost use Rattle.go_judge.specs.Quests.{Decided};

use go_judge::Answer;

/// How many interfaces may still be met within one another, how many names may still be opened, and whether the question
/// is a premise. Where these run short the answer is No, and in a premise Yes of types that fit.
#[derive(Clone, Copy, Debug)]
pub(crate) struct Bounds {
    pub levels: u32,
    pub left: u32,
    pub short: bool,
}

impl Bounds {
    /// The bounds behind so many names that are opened, None where fewer may be.
    pub fn behind(self, opened: u64) -> Option<Bounds>
        ensures levels { IfSome result (λ inner. inner.levels ≡ self.levels) }
        ensures short { IfSome result (λ inner. inner.short ≡ self.short) }
        ensures left { IfSome result (λ inner. inner.left + opened ≡ self.left) }
        ensures none { IfNone result (nat_le opened self.left ≡ false) }
    {
        if opened > self.left as u64 {
            return None;
        }
        Some(Bounds {
            left: self.left - opened as u32,
            ..self
        })
    }

    /// The bounds of a premise, in which the answer where they run short is the other.
    pub fn of_premise(self) -> Bounds
        ensures levels { result.levels ≡ self.levels }
        ensures left { result.left ≡ self.left }
        ensures short { result.short ≡ not self.short }
    {
        Bounds {
            short: !self.short,
            ..self
        }
    }

    /// Whether these are the other bounds.
    pub fn is(self, other: Bounds) -> bool
        ensures { result ≡ true → self ≡ other }
    {
        self.levels == other.levels && self.left == other.left && self.short == other.short
    }
}

/// Yes or No.
pub(crate) fn answer(yes: bool) -> Answer
    ensures { answer_as result ≡ Decided yes }
{
    if yes { Answer::Yes } else { Answer::No }
}
