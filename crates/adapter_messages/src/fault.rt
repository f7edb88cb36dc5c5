//! Why a frame is not read.

/// Why a frame is not read.
#[derive(Clone, Copy, Debug, PartialEq, Eq)]
pub enum FrameFault {
    /// The source failed.
    SourceFailed,
    /// The source ended within the frame.
    Ended,
    /// A line of the header is no field, or the length of the content is missing, given twice, or no number.
    Broken,
    /// A line of the header, or the content, has more bytes than are taken.
    TooLong,
    /// There was no memory for the content.
    NoMemory,
}
