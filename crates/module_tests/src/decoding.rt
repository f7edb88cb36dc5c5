//! Modules from bytes: their summaries, where others are refused, and the limits. A module begins with a preamble of
//! eight bytes.

use crate::fault_kinds::DecodeKind;
use crate::fault_kinds::DecodeKind::Refused;
use binary_decoder::{DecodeFault, Limit, ModulePart, decode, summary};
use std::alloc::Global;
use std::process::Abort;
use std::test::Fail;
use wasm_types::{Module, NoMemory};

/// Each section once, a branch table among the instructions.
pub(crate) const EACH_SECTION: &str = "\
    0061736d01000000010902\
    60017f017f600000\
    020901016101620201010203\
    0302000104040170000205030100010606017f0141050b07050101660000\
    0801010907010041000b01000a10020b01027e20000e020000000b02000b0b07010041000b012a";

/// A shared memory, and a function that adds twice at address 0: 55 bytes.
const COUNTER: &str =
    "0061736d010000000105016000017f03020100050401030101070501017700000a1501130041004101fe1e02001a41004101fe1e02000b";

pub(crate) const EACH_SUMMARY: &str =
    "types 2\nfunctions 2\ntable 2\nmemory 1 2 unshared\nglobals 1\nexports 1\nstart 1\n";

const COUNTER_SUMMARY: &str =
    "types 1\nfunctions 1\ntable none\nmemory 1 1 shared\nglobals 0\nexports 1\nstart none\n";

const FUNCTION_SUMMARY: &str =
    "types 1\nfunctions 1\ntable none\nmemory none\nglobals 0\nexports 0\nstart none\n";

// The counter with custom sections before the others, behind them, and everywhere.
const CUSTOM_FIRST: &str =
    "0061736d0100000000030178ff0105016000017f03020100050401030101070501017700000a1501130041004101fe1e02001a41004101fe1e02000b";

const CUSTOM_LAST: &str =
    "0061736d010000000105016000017f03020100050401030101070501017700000a1501130041004101fe1e02001a41004101fe1e02000b00030178ff";

const CUSTOM_EVERYWHERE: &str =
    "0061736d010000000105016000017f00030178ff00030178ff03020100050401030101070501017700000a15\
    01130041004101fe1e02001a41004101fe1e02000b00030178ff";

/// Modules with their summaries.
static SUMMARIES: &[(&str, &str)] = &[
    (EACH_SECTION, EACH_SUMMARY),
    // The counter, and a longer spelling of a constant of it.
    (COUNTER, COUNTER_SUMMARY),
    (
        "0061736d010000000105016000017f03020100050401030101070501017700000a160114004180004101fe1e02001a41004101fe1e02000b",
        COUNTER_SUMMARY,
    ),
    // The same with custom sections before, between and behind the others.
    (CUSTOM_FIRST, COUNTER_SUMMARY),
    (CUSTOM_LAST, COUNTER_SUMMARY),
    (CUSTOM_EVERYWHERE, COUNTER_SUMMARY),
    // Beginnings of the counter that are modules.
    (
        "0061736d01000000",
        "types 0\nfunctions 0\ntable none\nmemory none\nglobals 0\nexports 0\nstart none\n",
    ),
    (
        "0061736d010000000105016000017f",
        "types 1\nfunctions 0\ntable none\nmemory none\nglobals 0\nexports 0\nstart none\n",
    ),
    // A function that does nothing.
    (
        "0061736d01000000010401600000030201000a040102000b",
        FUNCTION_SUMMARY,
    ),
    // Limits that are reached: pages, elements, and 1,024 locals of one function, also in groups of 1,023, of none, and
    // of one.
    (
        "0061736d010000000503010011",
        "types 0\nfunctions 0\ntable none\nmemory 17 - unshared\nglobals 0\nexports 0\nstart none\n",
    ),
    (
        "0061736d01000000050401008002",
        "types 0\nfunctions 0\ntable none\nmemory 256 - unshared\nglobals 0\nexports 0\nstart none\n",
    ),
    (
        "0061736d0100000004050170008020",
        "types 0\nfunctions 0\ntable 4096\nmemory none\nglobals 0\nexports 0\nstart none\n",
    ),
    (
        "0061736d01000000010401600000030201000a0701050180087f0b",
        FUNCTION_SUMMARY,
    ),
    (
        "0061736d01000000010401600000030201000a0b010903ff077f007e017e0b",
        FUNCTION_SUMMARY,
    ),
];

const TOO_LARGE: DecodeKind = DecodeKind::TooLarge;

/// Bytes that are no modules, with their faults.
static FAULTS: &[(&str, DecodeKind)] = &[
    // Preambles.
    ("", Refused { offset: 0 }),
    ("0061736e01000000", Refused { offset: 0 }),
    ("0061736d0100", Refused { offset: 4 }),
    ("0061736d02000000", Refused { offset: 4 }),
    // The counter without its last byte, with a section 13 in place of its types, and with a constant of six bytes.
    (
        "0061736d010000000105016000017f03020100050401030101070501017700000a1501130041004101fe1e02001a41004101fe1e0200",
        Refused { offset: 33 },
    ),
    (
        "0061736d010000000d05016000017f03020100050401030101070501017700000a1501130041004101fe1e02001a41004101fe1e02000b",
        Refused { offset: 8 },
    ),
    (
        "0061736d010000000105016000017f03020100050401030101070501017700000a1a01180041808080808000414101fe1e02001a41004101fe1e02000b",
        Refused { offset: 38 },
    ),
    // Numbers, and sizes and counts that pass their end.
    ("0061736d0100000001808080808000", Refused { offset: 9 }),
    ("0061736d01000000010180", Refused { offset: 10 }),
    ("0061736d010000000105", Refused { offset: 9 }),
    ("0061736d0100000007020105", Refused { offset: 11 }),
    // Forms, kinds and types.
    ("0061736d0100000001020161", Refused { offset: 11 }),
    ("0061736d0100000001040160017d", Refused { offset: 13 }),
    ("0061736d01000000020501000002ff", Refused { offset: 14 }),
    ("0061736d01000000020501000000", Refused { offset: 9 }),
    ("0061736d01000000020401000000", Refused { offset: 13 }),
    ("0061736d010000000402016f", Refused { offset: 11 }),
    ("0061736d010000000403017002", Refused { offset: 12 }),
    ("0061736d0100000005020102", Refused { offset: 11 }),
    ("0061736d010000000603017f02", Refused { offset: 12 }),
    ("0061736d010000000604017f0043", Refused { offset: 13 }),
    ("0061736d010000000606017f0041000c", Refused { offset: 15 }),
    ("0061736d010000000703010004", Refused { offset: 12 }),
    // Names.
    ("0061736d0100000007050101ff0000", Refused { offset: 11 }),
    ("0061736d01000000000201ff", Refused { offset: 10 }),
    ("0061736d010000000000", Refused { offset: 10 }),
    // Items that end before their size, and sections in another order.
    ("0061736d0100000001020000", Refused { offset: 11 }),
    ("0061736d010000000301000101000a0100", Refused { offset: 11 }),
    ("0061736d010000000c0100", Refused { offset: 8 }),
    // Functions without bodies, and other counts.
    (
        "0061736d0100000001040160000003020100",
        Refused { offset: 18 },
    ),
    (
        "0061736d0100000001040160000003020100000101",
        Refused { offset: 20 },
    ),
    (
        "0061736d01000000010401600000030201000a0100",
        Refused { offset: 18 },
    ),
    // Bodies of a function of no parameters: the instructions begin at offset 23.
    (
        "0061736d01000000010401600000030201000a050103000101",
        Refused { offset: 25 },
    ),
    (
        "0061736d01000000010401600000030201000a050103000b01",
        Refused { offset: 24 },
    ),
    (
        "0061736d01000000010401600000030201000a05010300060b",
        Refused { offset: 23 },
    ),
    (
        "0061736d01000000010401600000030201000a05010300050b",
        Refused { offset: 23 },
    ),
    (
        "0061736d01000000010401600000030201000a09010700044005050b0b",
        Refused { offset: 26 },
    ),
    (
        "0061736d01000000010401600000030201000a0601040002400b",
        Refused { offset: 26 },
    ),
    (
        "0061736d01000000010401600000030201000a050103000241",
        Refused { offset: 24 },
    ),
    (
        "0061736d01000000010401600000030201000a060104003f010b",
        Refused { offset: 24 },
    ),
    (
        "0061736d01000000010401600000030201000a0601040040010b",
        Refused { offset: 24 },
    ),
    (
        "0061736d01000000010401600000030201000a070105001100010b",
        Refused { offset: 25 },
    ),
    (
        "0061736d01000000010401600000030201000a06010400fe040b",
        Refused { offset: 23 },
    ),
    (
        "0061736d01000000010401600000030201000a0a010800fe80808080800b",
        Refused { offset: 23 },
    ),
    (
        "0061736d01000000010401600000030201000a07010500fe03010b",
        Refused { offset: 25 },
    ),
    (
        "0061736d01000000010401600000030201000a0a0108000e01ffffffffff",
        Refused { offset: 25 },
    ),
    (
        "0061736d01000000010401600000030201000a0a01080041808080808000",
        Refused { offset: 24 },
    ),
    // A limit that is passed, and a fault behind it; a fault, and a limit behind it that would be passed.
    ("0061736d01000000050401008102ff", TOO_LARGE),
    (
        "0061736d01000000010401610000050401008102",
        Refused { offset: 11 },
    ),
    // Limits that are passed: pages, of an import too, elements, and 1,025 locals of one function, also in groups.
    ("0061736d01000000050401008102", TOO_LARGE),
    ("0061736d01000000020701000002008102", TOO_LARGE),
    ("0061736d0100000004050170008120", TOO_LARGE),
    (
        "0061736d01000000010401600000030201000a0701050181087f0b",
        TOO_LARGE,
    ),
    (
        "0061736d01000000010401600000030201000a0b010903ff077f007e027e0b",
        TOO_LARGE,
    ),
    // Two groups of 2^32 - 1 locals.
    (
        "0061736d01000000010401600000030201000a10010e02ffffffff0f7fffffffff0f7f0b",
        TOO_LARGE,
    ),
];

/// The module that these digits spell. Where a growth of the test's own is refused it is answered as one of `decode`
/// is.
pub(crate) fn module_of(alloc: Global, digits: &str) -> Result<Module, DecodeFault> {
    match hex::decode(alloc, digits) {
        Ok(bytes) => decode(alloc, &bytes),
        Err(_) => Err(DecodeFault::NoMemory),
    }
}

fn is_summed_up(alloc: Global, module: &Module, wanted: &str) -> Result<bool, DecodeFault> {
    match summary(alloc, module) {
        Ok(text) => Ok(text.as_slice() == wanted.as_bytes()),
        Err(NoMemory) => Err(DecodeFault::NoMemory),
    }
}

/// Whether the module that these digits spell has this summary.
pub(crate) fn has_summary(alloc: Global, digits: &str, wanted: &str) -> Result<bool, DecodeFault> {
    let module = module_of(alloc, digits)?;
    is_summed_up(alloc, &module, wanted)
}

fn same(
    rt: &impl Abort,
    found: Result<bool, DecodeFault>,
    want: Result<bool, DecodeKind>,
    digits: &str,
) {
    let found = match found {
        Ok(found) => Ok(found),
        Err(fault) => Err(DecodeKind::of(fault)),
    };
    assert_eq!(rt; found, want, "{digits}");
}

#[test]
fn modules_are_read_or_refused_at_their_first_fault(rt: HostRuntime) {
    let summaries = SUMMARIES;
    for (digits, wanted) in summaries {
        same(
            &rt,
            has_summary(rt.alloc(), digits, wanted),
            Ok(true),
            digits,
        );
    }
    let faults = FAULTS;
    for (digits, fault) in faults {
        same(
            &rt,
            has_summary(rt.alloc(), digits, ""),
            Err(*fault),
            digits,
        );
    }
}

/// All that a module has but the bytes that spell it.
fn all_but_source(alloc: Global, digits: &str) -> Result<String, Fail> {
    let m = module_of(alloc, digits)?;
    let mut text = format!(in alloc;
        "{:?} {:?} {:?} {:?}",
        m.types, m.imports, m.functions, m.tables
    )?;
    write!(
        text,
        " {:?} {:?} {:?} {:?}",
        m.memories, m.globals, m.exports, m.start
    )?;
    write!(text, " {:?} {:?} {:?}", m.elements, m.bodies, m.data)?;
    Ok(text)
}

/// A custom section changes the bytes of a module, and nothing else of it.
#[test]
fn custom_sections_change_the_bytes_alone(rt: HostRuntime) -> Result<(), Fail> {
    let plain = all_but_source(rt.alloc(), COUNTER)?;
    for digits in [CUSTOM_FIRST, CUSTOM_LAST, CUSTOM_EVERYWHERE] {
        let found = all_but_source(rt.alloc(), digits)?;
        assert_eq!(rt; found.as_str(), plain.as_str(), "{digits}");
    }
    Ok(())
}

/// The preamble, and the head of a custom section that ends with byte 1,048,576.
static LARGEST: [u8; 13] = [
    0x00, 0x61, 0x73, 0x6D, 0x01, 0x00, 0x00, 0x00, 0x00, 0xF4, 0xFF, 0x3F, 0x00,
];

/// Whether just the beginnings of these lengths are modules, and all others are refused as none.
fn only_these_decode(alloc: Global, digits: &str, lengths: &[usize]) -> Result<bool, Fail> {
    let bytes = hex::decode(alloc, digits)?;
    for len in 0..=bytes.len() {
        let is_refused = matches!(
            decode(alloc, &bytes[..len]),
            Err(DecodeFault::Refused { .. })
        );
        if is_refused == lengths.contains(&len) {
            return Ok(false);
        }
    }
    Ok(true)
}

/// Those that end behind the preamble and behind the types, and the whole.
#[test]
fn beginnings_of_a_module_are_refused(rt: HostRuntime) -> Result<(), Fail> {
    assert!(rt; only_these_decode(rt.alloc(), COUNTER, &[8, 15, 55])?);
    Ok(())
}

#[test]
fn a_module_has_at_most_1_048_576_bytes(rt: HostRuntime) -> Result<(), Fail> {
    let mut bytes = Vec::from_slice(rt.alloc(), &LARGEST)?;
    bytes.resize(1_048_576, 0)?;
    assert!(rt; decode(rt.alloc(), &bytes).is_ok());
    bytes.push(0)?;
    assert!(rt;
        matches!(
            decode(rt.alloc(), &bytes),
            Err(DecodeFault::TooLarge {
                limit: Limit::Bytes,
                count: 1_048_577,
                place: ModulePart::End,
            })
        )
    );
    Ok(())
}
