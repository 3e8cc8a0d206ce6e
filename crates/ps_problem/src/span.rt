//! Parts of a list of marks.

/// Where the marks of a formula begin, and where they have ended.
#[derive(Clone, Copy, Debug, PartialEq, Eq)]
pub(crate) struct Span {
    pub(crate) start: usize,
    pub(crate) end: usize,
}
