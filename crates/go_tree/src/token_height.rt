// The height at a token. It is counted from the last token back, and so without a list: which tokens
// count no longer is known by those behind them.
ghost use Rattle.std.specs.Prelude.{◌≡◌, ◌+◌, ◌<◌, ◌≤◌, ◌^◌, List, length, take, if◌then◌else◌};
ghost use Rattle.go_tree.specs.declared.token_height.Role.TheVariants.{Opens};
ghost use Rattle.go_tree.specs.Height.{Mark, counted, height_of, before_label, role_of, marks_behind, left};

use crate::token::{Token, TokenKind};

/// The height at the last of these tokens; 0 where there is none.
pub fn height(tokens: &[Token]) -> usize
    ensures { result ≡ height_of tokens.now }
{
    let mut behind = Behind {
        count: 0,
        closed: 0,
        separated: false,
    };
    let mut i = tokens.len();
    while i > 0 {
        i -= 1;
        behind = one_more(behind, role_at(tokens, i));
    }
    behind.count
}

/// What a token does to the tokens that count.
#[derive(Clone, Copy, Debug, PartialEq, Eq)]
pub enum Role {
    Opens,
    Closes,
    Separates,
    CountsOn,
    Counts,
}

/// What is known of the tokens behind a place: how many of them count, how many brackets that stand
/// before it are closed, and whether a `,` or `;` stands behind the innermost of the others.
#[derive(Clone, Copy, Debug, PartialEq, Eq)]
struct Behind {
    count: usize,
    closed: usize,
    separated: bool,
}

// One token further back.
fn one_more(behind: Behind, role: Role) -> Behind
    requires count { behind.count + 1 < 2 ^ 64 }
    requires closed { behind.closed + 1 < 2 ^ 64 }
    ensures same { (ms : List Mark) → result.count + left result.closed result.separated ms ≡ behind.count + left behind.closed behind.separated (marks_behind ms role) }
    ensures count { result.count ≤ behind.count + 1 }
    ensures closed { result.closed ≤ behind.closed + 1 }
{
    if behind.closed > 0 {
        within(behind, role)
    } else {
        innermost(behind, role)
    }
}

// Inside brackets that are closed behind it.
#[tactic(auto, using(crate::proofs::HeightLemmas::within_opens, crate::proofs::HeightLemmas::within_opened, crate::proofs::HeightLemmas::within_closes, crate::proofs::HeightLemmas::within_separates, crate::proofs::HeightLemmas::within_counts_on, crate::proofs::HeightLemmas::within_counts))]
fn within(behind: Behind, role: Role) -> Behind
    requires count { behind.count + 1 < 2 ^ 64 }
    requires closed { behind.closed + 1 < 2 ^ 64 }
    requires inside { 0 < behind.closed }
    ensures same { (ms : List Mark) → result.count + left result.closed result.separated ms ≡ behind.count + left behind.closed behind.separated (marks_behind ms role) }
    ensures count { result.count ≤ behind.count + 1 }
    ensures closed { result.closed ≤ behind.closed + 1 }
{
    match role {
        Role::Opens => opened(behind),
        Role::Closes => Behind {
            count: behind.count,
            closed: behind.closed + 1,
            separated: behind.separated,
        },
        Role::Separates => behind,
        Role::CountsOn => behind,
        Role::Counts => behind,
    }
}

// An open bracket that is closed behind it, and the outermost such one counts.
#[tactic(auto, using(crate::proofs::HeightLemmas::within_opens, crate::proofs::HeightLemmas::within_opened))]
fn opened(behind: Behind) -> Behind
    requires count { behind.count + 1 < 2 ^ 64 }
    requires inside { 0 < behind.closed }
    ensures same { (ms : List Mark) → result.count + left result.closed result.separated ms ≡ behind.count + left behind.closed behind.separated (marks_behind ms Opens) }
    ensures count { result.count ≤ behind.count + 1 }
    ensures closed { result.closed ≤ behind.closed }
{
    if behind.closed > 1 {
        return Behind {
            count: behind.count,
            closed: behind.closed - 1,
            separated: behind.separated,
        };
    }
    Behind {
        count: count_passing(behind),
        closed: 0,
        separated: behind.separated,
    }
}

// Behind the innermost bracket that is open, or behind the start.
#[tactic(auto, using(crate::proofs::HeightLemmas::innermost_opens, crate::proofs::HeightLemmas::innermost_closes, crate::proofs::HeightLemmas::innermost_separates, crate::proofs::HeightLemmas::innermost_counts_on, crate::proofs::HeightLemmas::innermost_counts))]
fn innermost(behind: Behind, role: Role) -> Behind
    requires count { behind.count + 1 < 2 ^ 64 }
    requires outside { behind.closed ≡ 0 }
    ensures same { (ms : List Mark) → result.count + left result.closed result.separated ms ≡ behind.count + left behind.closed behind.separated (marks_behind ms role) }
    ensures count { result.count ≤ behind.count + 1 }
    ensures closed { result.closed ≤ 1 }
{
    match role {
        Role::Opens => Behind {
            count: behind.count + 1,
            closed: 0,
            separated: false,
        },
        Role::Closes => Behind {
            count: count_passing(behind),
            closed: 1,
            separated: behind.separated,
        },
        Role::Separates => Behind {
            count: behind.count,
            closed: 0,
            separated: true,
        },
        Role::CountsOn => Behind {
            count: behind.count + 1,
            closed: 0,
            separated: behind.separated,
        },
        Role::Counts => Behind {
            count: count_passing(behind),
            closed: 0,
            separated: behind.separated,
        },
    }
}

// The count with a token that a `,` or `;` ends.
fn count_passing(behind: Behind) -> usize
    requires count { behind.count + 1 < 2 ^ 64 }
    ensures { result ≡ (if behind.separated then behind.count else behind.count + 1) }
{
    if behind.separated {
        behind.count
    } else {
        behind.count + 1
    }
}

fn role_at(tokens: &[Token], i: usize) -> Role
    requires { i < length tokens.now }
    ensures { (counted (take (i + 1) tokens.now)).marks ≡ marks_behind (counted (take i tokens.now)).marks result }
{
    role_behind(tokens[i].kind, last_kind(tokens, i), kind_before(tokens, i))
}

// The kind of the last of the first `end` tokens, and that of the one before it.
fn last_kind(tokens: &[Token], end: usize) -> Option<TokenKind>
    requires { end ≤ length tokens.now }
    ensures { result ≡ (counted (take end tokens.now)).last }
{
    if end > 0 {
        Some(tokens[end - 1].kind)
    } else {
        None
    }
}

fn kind_before(tokens: &[Token], end: usize) -> Option<TokenKind>
    requires { end ≤ length tokens.now }
    ensures { result ≡ (counted (take end tokens.now)).before }
{
    if end > 0 {
        last_kind(tokens, end - 1)
    } else {
        None
    }
}

/// What a token of that kind does to the heights of those behind it, where these kinds stand directly before
/// it: `last`, and `before` in front of that.
pub fn role_behind(kind: TokenKind, last: Option<TokenKind>, before: Option<TokenKind>) -> Role
    ensures { result ≡ role_of kind last before }
{
    match kind {
        TokenKind::LeftParen | TokenKind::LeftBracket | TokenKind::LeftBrace => Role::Opens,
        TokenKind::RightParen | TokenKind::RightBracket | TokenKind::RightBrace => Role::Closes,
        TokenKind::Comma | TokenKind::Semicolon | TokenKind::InsertedSemicolon => Role::Separates,
        TokenKind::KwElse => Role::CountsOn,
        TokenKind::Colon => match (last, before) {
            (Some(TokenKind::Ident), Some(kind)) if can_stand_before_label(kind) => Role::CountsOn,
            _ => Role::Counts,
        },
        _ => Role::Counts,
    }
}

fn can_stand_before_label(kind: TokenKind) -> bool
    ensures { result ≡ before_label kind }
{
    matches!(
        kind,
        TokenKind::LeftBrace
            | TokenKind::Semicolon
            | TokenKind::InsertedSemicolon
            | TokenKind::Colon
    )
}
