//! Words of faults in the spaces of a line.

use text_lines::SpacingFault;

/// Why a line is no words between which single spaces stand.
pub(crate) fn spacing_words(fault: SpacingFault) -> &'static str {
    match fault {
        SpacingFault::Empty => "the line is empty",
        SpacingFault::CarriageReturn => "the line ends in a carriage return",
        SpacingFault::FirstSpace => "the line begins with a space",
        SpacingFault::LastSpace => "the line ends in a space",
        SpacingFault::TwoSpaces => "two spaces stand side by side",
    }
}
