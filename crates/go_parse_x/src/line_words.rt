// Words that write lines of steps, as in `line![Or 3 [Comma], Seq 1, Pass Comma, Call Name]`.

macro_rules! line {
    ($($word:ident $($name:ident)* $($first:literal $($set:ident)?)? $([$($kind:ident)*])?),* $(,)?) => {
        &[$(crate::line_words::step!($word $($name)* $($first $($set)?)? $([$($kind)*])?)),*]
    };
}

macro_rules! step {
    (Pass $kind:ident) => { Step::Pass(TokenKind::$kind) };
    (Close $kind:ident) => { Step::Close(NodeKind::$kind) };
    (Call $name:ident) => { Step::Call(Production::$name) };
    (Call More $of:ident) => { Step::Call(Production::More(Items::$of)) };
    (Call $name:ident Plain) => { Step::Call(Production::$name(Form::Plain)) };
    (Call $name:ident Header) => { Step::Call(Production::$name(Form::Header)) };
    (Call $name:ident $of:ident) => { Step::Call(Production::$name(Clauses::$of)) };
    (When $asked:ident $first:literal) => { Step::When(Asked::$asked, $first) };
    (Seq $first:literal) => { Step::Seq($first) };
    (Or $first:literal $set:ident) => { Step::Or($first, $set) };
    (Or $first:literal [$($kind:ident)*]) => { Step::Or($first, crate::kind_sets::kinds![$($kind)*]) };
    (Many $set:ident) => { Step::Many($set) };
    (Many [$($kind:ident)*]) => { Step::Many(crate::kind_sets::kinds![$($kind)*]) };
    ($word:ident) => { Step::$word };
}

pub(crate) use line;
pub(crate) use step;
