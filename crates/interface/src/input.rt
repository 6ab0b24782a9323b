//! Bytes that are read from the first to the last.

/// The bytes that are not yet read.
#[derive(Drop)]
pub(crate) struct Input<'a> {
    pub(crate) rest: &'a [u8],
}
