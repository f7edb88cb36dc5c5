//! Ranges of a memory's bytes.

/// The bytes of a memory from an address on, so many. The range may pass the memory's end.
#[derive(Clone, Copy, Debug, PartialEq, Eq)]
pub struct ByteRange {
    pub from: u32,
    pub len: u32,
}
