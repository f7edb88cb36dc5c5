//! Why bytes are not decoded.

/// Why bytes are refused.
#[derive(Clone, Copy, Debug, PartialEq, Eq)]
pub enum Cause {
    /// They do not begin as a module of the binary format does.
    Header(HeaderFault),
    /// The sections are not those of a module.
    Section(SectionFault),
    /// A number, a name or a content is not spelled there.
    Spelling(SpellingFault),
    /// A type is none of the profile.
    Type(TypeFault),
    /// An item of a section is none of the profile.
    Item(ItemFault),
    /// An instruction is none of the profile, or not there.
    Code(CodeFault),
}

/// What the first eight bytes are.
#[derive(Clone, Copy, Debug, PartialEq, Eq)]
pub enum HeaderFault {
    /// They do not begin with `\0asm`.
    NotBinary,
    /// They begin with a parenthesis, as the text format does.
    TextFormat,
    /// They are those of a component.
    Component,
    /// Their version is another one than 1.
    Version,
}

/// What is wrong with a section.
#[derive(Clone, Copy, Debug, PartialEq, Eq)]
pub enum SectionFault {
    /// No section of the profile has that number.
    Unknown(u8),
    /// It comes behind one of the same number.
    Repeated(u8),
    /// It comes behind one that belongs behind it. That one is 0 until it is filled in.
    Misplaced { section: u8, behind: u8 },
    /// Its length, in bytes, goes past the end of the file, up to which so many are left.
    PastEnd { length: u32, left: u32 },
    /// So many bytes are left in it behind its last item.
    LeftOver(u32),
    /// It has a body for so many functions, and the module has others.
    Bodies { bodies: u32, functions: u32 },
    /// Functions without a code section.
    NoCode(u32),
}

/// How a number is spelled, in LEB128.
#[derive(Clone, Copy, Debug, PartialEq, Eq)]
pub enum Integer {
    Unsigned32,
    Signed32,
    Signed64,
}

/// What is not spelled.
#[derive(Clone, Copy, Debug, PartialEq, Eq)]
pub enum SpellingFault {
    /// A number goes on behind the last byte.
    NumberPastEnd(Integer),
    /// A number has more bits than it may have.
    Number(Integer),
    /// A byte is missing.
    ByteMissing,
    /// A content has more bytes than are left.
    TooLong { length: u32, left: u32 },
    /// A name is not UTF-8.
    NotText,
    /// So many bytes are left over.
    LeftOver(u32),
}

/// A byte that spells no type of the profile.
#[derive(Clone, Copy, Debug, PartialEq, Eq)]
pub enum TypeFault {
    /// A type of the type section is no function type.
    Form(u8),
    /// A value type.
    Value(u8),
    /// The type of a block.
    Block(u8),
    /// The elements of a table.
    Table(u8),
    /// The limits of a table.
    TableLimits(u8),
    /// The limits of a memory.
    MemoryLimits(u8),
    /// Whether a global is mutable.
    Mutability(u8),
}

/// What is wrong with an item of a section.
#[derive(Clone, Copy, Debug, PartialEq, Eq)]
pub enum ItemFault {
    /// An import of something else than a memory: the byte that says of what, and the offset of its two names, which is 0
    /// until it is filled in.
    Import { kind: u8, names: u32 },
    /// An export of something that is not known.
    Export(u8),
    /// An element segment of that number, which is not active.
    Element(u32),
    /// A data segment of that number, which is not active.
    Data(u32),
}

/// What is wrong with an instruction.
#[derive(Clone, Copy, Debug, PartialEq, Eq)]
pub enum CodeFault {
    /// It is outside the profile.
    Outside(OpCode),
    /// It begins a constant expression, and is no integer constant.
    NotConstant(OpCode),
    /// It stands behind the constant of a constant expression, in place of `end`.
    NoConstantEnd(OpCode),
    /// The table of `call_indirect` is not spelled as 0 in one byte.
    TableNumber(u8),
    /// The memory of `memory.size` or `memory.grow` is not spelled as 0 in one byte.
    MemoryNumber(u8),
    /// The byte behind `atomic.fence` is not 0.
    FenceByte(u8),
    /// `else` stands outside the first arm of an `if`.
    Else,
    /// The body is at its end, and blocks are open.
    NoEnd,
}

/// The code of an instruction: its first byte, or the number behind a byte that is a prefix.
#[derive(Clone, Copy, Debug, PartialEq, Eq)]
pub enum OpCode {
    /// One byte.
    Byte(u8),
    /// A number behind `FB`.
    Collected(u32),
    /// A number behind `FC`.
    Bulk(u32),
    /// A number behind `FD`.
    Vector(u32),
    /// A number behind `FE`.
    Atomic(u32),
}

/// A limit that is passed. What passes it is counted beside it.
#[derive(Clone, Copy, Debug, PartialEq, Eq)]
pub enum Limit {
    /// The bytes of the file.
    Bytes,
    /// The pages that a memory has at first.
    Pages,
    /// The elements that a table has at first.
    Elements,
    /// The parameters of a function.
    Parameters,
    /// The parameters and locals of a function, up to the group that passes the limit.
    Locals,
}

/// What a byte of one certain value stands for.
#[derive(Clone, Copy, Debug, PartialEq, Eq)]
pub enum Expected {
    /// A section begins.
    Section,
    /// A type is a function type.
    Form,
    /// A table is one of functions.
    Table,
    /// An import is a memory.
    Memory,
    /// A constant expression ends.
    ConstantEnd,
    /// The table of `call_indirect`.
    TableNumber,
    /// The memory of `memory.size` or `memory.grow`.
    MemoryNumber,
    /// The byte behind `atomic.fence`.
    FenceByte,
}

impl Expected {
    /// What is wrong with another byte in its place, which begins the instruction of this code if it begins one.
    pub(crate) fn cause(self, byte: u8, code: OpCode) -> Cause {
        match self {
            Expected::Section => Cause::Section(SectionFault::Unknown(byte)),
            Expected::Form => Cause::Type(TypeFault::Form(byte)),
            Expected::Table => Cause::Type(TypeFault::Table(byte)),
            Expected::Memory => Cause::Item(ItemFault::Import {
                kind: byte,
                names: 0,
            }),
            Expected::ConstantEnd => Cause::Code(CodeFault::NoConstantEnd(code)),
            Expected::TableNumber => Cause::Code(CodeFault::TableNumber(byte)),
            Expected::MemoryNumber => Cause::Code(CodeFault::MemoryNumber(byte)),
            Expected::FenceByte => Cause::Code(CodeFault::FenceByte(byte)),
        }
    }
}

impl Integer {
    /// The most bytes of the number.
    pub(crate) fn most_bytes(self) -> usize {
        match self {
            Integer::Unsigned32 | Integer::Signed32 => 5,
            Integer::Signed64 => 10,
        }
    }
}
