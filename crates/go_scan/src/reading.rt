// What a comment, a rune literal or a string literal reads to.

/// Where reading is stuck: it could go on at this offset, but not with what stands there.
#[derive(Clone, Copy, Debug, PartialEq, Eq)]
pub(crate) struct Stuck {
    pub(crate) at: usize,
}
