//! What a byte of a module is part of.

/// What a byte of a module is part of. Sections have their numbers of the binary format.
#[derive(Clone, Copy, Debug, PartialEq, Eq)]
pub enum ModulePart {
    /// The first eight bytes.
    Header,
    /// A section, outside its items.
    Section(u8),
    /// An item of a section, numbered from 0. The section is 0 until it is filled in.
    Item { section: u8, number: u32 },
    /// A function's body, outside its instructions. Functions are numbered from 0.
    Function(u32),
    /// An instruction of a function's body, numbered from 0. The function is 0 until it is filled in.
    Instruction { function: u32, instruction: u32 },
    /// Behind the last section.
    End,
    /// It is not filled in.
    Unknown,
}

impl ModulePart {
    /// The same place, once it is known to be in this section.
    pub(crate) fn in_section(self, section: u8) -> ModulePart {
        match self {
            ModulePart::Unknown => ModulePart::Section(section),
            ModulePart::Item { section: _, number } => ModulePart::Item { section, number },
            other => other,
        }
    }

    /// The same place, once it is known to be in the body of this function.
    pub(crate) fn in_function(self, function: u32) -> ModulePart {
        match self {
            ModulePart::Instruction {
                function: _,
                instruction,
            } => ModulePart::Instruction {
                function,
                instruction,
            },
            _ => ModulePart::Function(function),
        }
    }
}
