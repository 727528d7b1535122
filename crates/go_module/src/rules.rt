// The rules that several phases tell.
use go_base::{Family, Rule};

/// A form that is not built yet: broken where a file has a form that this version does not check.
pub const UNBUILT_FORM: Rule = Rule {
    family: Family::U,
    number: 0,
};
