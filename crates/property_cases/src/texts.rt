//! Texts for the tests.
use std::alloc::{AllocError, Global};

/// A text: its front, a piece so many times over, and its back.
#[derive(Clone, Copy)]
pub(crate) struct Text(
    pub(crate) &'static str,
    pub(crate) &'static str,
    pub(crate) usize,
    pub(crate) &'static str,
);

impl Text {
    pub(crate) fn made(self, heap: Global) -> Result<String, AllocError> {
        let Text(front, piece, times, back) = self;
        let middle = piece.repeat(heap, times)?;
        format!(in heap; "{front}{middle}{back}")
    }
}
