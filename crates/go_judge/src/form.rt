// Answers to questions about underlying types (Go specification, "Underlying types").
use go_module::ObjId;
use go_term::Ty;

/// The underlying type of a type; Absent where the chain of right sides returns or leads to a type that is too deep or
/// too large; Unknown with the first header that is lacking.
#[derive(Debug, Drop)]
pub enum Form {
    Is(Ty),
    Absent,
    Unknown(ObjId),
}

/// Where the chain of right sides from a type leads: to the underlying type; back to a declaration; Unknown with the
/// first header that is lacking.
#[derive(Debug, Drop)]
pub enum Reached {
    Is(Ty),
    Cycle,
    Unknown(ObjId),
}
