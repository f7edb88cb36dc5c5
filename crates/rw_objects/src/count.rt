//! How often an object was written and read.

/// The version of an object and its read total (LeBlanc and Mellor-Crummey 1987).
#[derive(Clone, Copy, Debug, PartialEq, Eq, Default)]
pub struct Count {
    /// How often the object was written.
    pub version: u64,
    /// How often it was read since it was last written.
    pub reads: u64,
}
