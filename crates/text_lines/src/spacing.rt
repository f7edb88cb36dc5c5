//! Lines that are no words with single spaces between them.

/// Why a line is no words between which single spaces stand.
#[derive(Clone, Copy, Debug, PartialEq, Eq)]
pub enum SpacingFault {
    /// It is empty.
    Empty,
    /// It ends in a carriage return.
    CarriageReturn,
    /// It begins with a space.
    FirstSpace,
    /// It ends in a space.
    LastSpace,
    /// Two spaces stand side by side in it.
    TwoSpaces,
}

/// The first of these faults, in their order, that a line has; None where it has none.
pub fn spacing_fault(line: &[u8]) -> Option<SpacingFault> {
    match line {
        [] => Some(SpacingFault::Empty),
        [.., b'\r'] => Some(SpacingFault::CarriageReturn),
        [b' ', ..] => Some(SpacingFault::FirstSpace),
        [.., b' '] => Some(SpacingFault::LastSpace),
        _ if has_two_spaces(line) => Some(SpacingFault::TwoSpaces),
        _ => None,
    }
}

// Whether two spaces stand side by side.
fn has_two_spaces(line: &[u8]) -> bool {
    line.windows(2).any(|pair| matches!(pair, [b' ', b' ']))
}
