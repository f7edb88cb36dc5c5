//! Plans, of small modules in hex.

use crate::plans::Refusal::{BadLine, NoExport, NotShared, SegmentOutOfBounds, WrongArguments};
use crate::validation::valid_of;
use std::alloc::Global;
use std::process::Abort;
use thread_plan::{Plan, PlanFault};
use validator::Valid;
use wasm_types::Value;

/// A shared memory `m`, and functions: `i` takes an i32, `l` an i64, `two` both; one that takes nothing has the empty
/// name, `zwölf`, and a name with a carriage return.
pub(crate) const FUNCTIONS: &str = "\
    0061736d01000000\
    01110460017f0060017e0060000060027f7e00\
    03050400010203050401030101\
    07250701690000016c0001000002067a77c3b66c66000203610d6200020374776f0003016d0200\
    0a0d0402000b02000b02000b02000b";

/// The counter: a shared memory, and a function `w` that takes nothing.
const COUNTER: &str = "\
    0061736d01000000\
    0105016000017f0302010005040103010107050101770000\
    0a1501130041004101fe1e02001a41004101fe1e02000b";

/// A function `f` that takes nothing, and no memory.
const NO_MEMORY: &str = "0061736d0100000001040160000003020100070501016600000a040102000b";

/// The same with a memory, imported or its own, shared or not.
const IMPORTED: &str =
    "0061736d010000000104016000000208010161016202000103020100070501016600000a040102000b";

const IMPORTED_SHARED: &str =
    "0061736d01000000010401600000020901016101620203010103020100070501016600000a040102000b";

const UNSHARED: &str = "0061736d01000000010401600000030201000503010001070501016600000a040102000b";

const SHARED: &str = "0061736d0100000001040160000003020100050401030101070501016600000a040102000b";

/// The same with a memory that is not shared, and a byte behind its first page.
const UNSHARED_PAST: &str =
    "0061736d01000000010401600000030201000503010001070501016600000a040102000b0b090100418080040b0178";

/// The functions of a plan's threads, with their arguments.
type Threads<'a> = &'a [(u32, &'a [Value])];

const ONE: Threads<'static> = &[(0, &[])];

const TWO: Threads<'static> = &[(0, &[]), (0, &[])];

const SIXTEEN: Threads<'static> = &[
    (2, &[]),
    (2, &[]),
    (2, &[]),
    (2, &[]),
    (2, &[]),
    (2, &[]),
    (2, &[]),
    (2, &[]),
    (2, &[]),
    (2, &[]),
    (2, &[]),
    (2, &[]),
    (2, &[]),
    (2, &[]),
    (2, &[]),
    (2, &[]),
];

/// Plans of modules.
static PLANS: &[(&str, &str, Threads<'static>)] = &[
    (
        FUNCTIONS,
        "wreplay plan 1\nthread two 7 -1\nthread \nthread zwölf\nthread a\rb\nthread l 0",
        &[
            (3, &[Value::I32(7), Value::I64(u64::MAX)]),
            (2, &[]),
            (2, &[]),
            (2, &[]),
            (1, &[Value::I64(0)]),
        ],
    ),
    (FUNCTIONS, "wreplay plan 1\nthread \n", &[(2, &[])]),
    (
        FUNCTIONS,
        "wreplay plan 1\nthread i 7",
        &[(0, &[Value::I32(7)])],
    ),
    // The counter runs by two threads.
    (COUNTER, "wreplay plan 1\nthread w\nthread w\n", TWO),
    // Arguments have the range of both readings.
    (
        FUNCTIONS,
        "wreplay plan 1\nthread i 0",
        &[(0, &[Value::I32(0)])],
    ),
    (
        FUNCTIONS,
        "wreplay plan 1\nthread i -1",
        &[(0, &[Value::I32(u32::MAX)])],
    ),
    (
        FUNCTIONS,
        "wreplay plan 1\nthread i -2147483648",
        &[(0, &[Value::I32(0x8000_0000)])],
    ),
    (
        FUNCTIONS,
        "wreplay plan 1\nthread i 2147483648",
        &[(0, &[Value::I32(0x8000_0000)])],
    ),
    (
        FUNCTIONS,
        "wreplay plan 1\nthread i 4294967295",
        &[(0, &[Value::I32(u32::MAX)])],
    ),
    (
        FUNCTIONS,
        "wreplay plan 1\nthread l -9223372036854775808",
        &[(1, &[Value::I64(0x8000_0000_0000_0000)])],
    ),
    (
        FUNCTIONS,
        "wreplay plan 1\nthread l 18446744073709551615",
        &[(1, &[Value::I64(u64::MAX)])],
    ),
    // Sixteen threads.
    (
        FUNCTIONS,
        "wreplay plan 1\n\
        thread \nthread \nthread \nthread \nthread \nthread \nthread \nthread \n\
        thread \nthread \nthread \nthread \nthread \nthread \nthread \nthread ",
        SIXTEEN,
    ),
    // One thread wants no shared memory, and several want one if there is one.
    (NO_MEMORY, "wreplay plan 1\nthread f", ONE),
    (IMPORTED, "wreplay plan 1\nthread f", ONE),
    (IMPORTED_SHARED, "wreplay plan 1\nthread f", ONE),
    (UNSHARED, "wreplay plan 1\nthread f", ONE),
    (SHARED, "wreplay plan 1\nthread f", ONE),
    (NO_MEMORY, "wreplay plan 1\nthread f\nthread f", TWO),
    (IMPORTED_SHARED, "wreplay plan 1\nthread f\nthread f", TWO),
    (SHARED, "wreplay plan 1\nthread f\nthread f", TWO),
    // The last byte of a memory; nothing behind it; the same of a memory that is imported.
    (
        "0061736d0100000001040160000003020100050401030101070501016600000a040102000b0b09010041ffff030b0178",
        "wreplay plan 1\nthread f",
        ONE,
    ),
    (
        "0061736d0100000001040160000003020100050401030101070501016600000a040102000b0b080100418080040b00",
        "wreplay plan 1\nthread f",
        ONE,
    ),
    (
        "0061736d010000000104016000000208010161016202000103020100070501016600000a040102000b0b09010041ffff030b0178",
        "wreplay plan 1\nthread f",
        ONE,
    ),
    (
        "0061736d010000000104016000000208010161016202000103020100070501016600000a040102000b0b080100418080040b00",
        "wreplay plan 1\nthread f",
        ONE,
    ),
    // The last element of a table; nothing behind it.
    (
        "0061736d0100000001040160000003020100040401700002070501016600000907010041010b01000a040102000b",
        "wreplay plan 1\nthread f",
        ONE,
    ),
    (
        "0061736d0100000001040160000003020100040401700002070501016600000906010041020b000a040102000b",
        "wreplay plan 1\nthread f",
        ONE,
    ),
];

/// Why a plan is refused, whatever is wrong in the line.
#[derive(Clone, Copy, Debug, PartialEq, Eq)]
enum Refusal {
    BadLine { line: u64 },
    NoExport { line: u64 },
    WrongArguments { line: u64 },
    NotShared,
    SegmentOutOfBounds,
    NoMemory,
}

fn refusal_of(fault: PlanFault) -> Refusal {
    match fault {
        PlanFault::BadLine { line, .. } => BadLine { line },
        PlanFault::NoExport { line, .. } => NoExport { line },
        PlanFault::WrongArguments { line, .. } => WrongArguments { line },
        PlanFault::NotShared => NotShared,
        PlanFault::SegmentOutOfBounds => SegmentOutOfBounds,
        PlanFault::NoMemory => Refusal::NoMemory,
    }
}

/// Texts that are no plans of modules, with their faults.
static FAULTS: &[(&str, &str, Refusal)] = &[
    // Other first lines, and none behind it.
    (FUNCTIONS, "", BadLine { line: 1 }),
    (FUNCTIONS, "\n", BadLine { line: 1 }),
    (FUNCTIONS, "wreplay plan 1", BadLine { line: 2 }),
    (FUNCTIONS, "wreplay plan 1\n", BadLine { line: 2 }),
    (FUNCTIONS, "wreplay plan 2\nthread \n", BadLine { line: 1 }),
    (FUNCTIONS, "wreplay plan 1 \nthread \n", BadLine { line: 1 }),
    (
        FUNCTIONS,
        "wreplay plan 1\r\nthread \n",
        BadLine { line: 1 },
    ),
    (
        FUNCTIONS,
        "\nwreplay plan 1\nthread \n",
        BadLine { line: 1 },
    ),
    // Other lines.
    (FUNCTIONS, "wreplay plan 1\n\n", BadLine { line: 2 }),
    (FUNCTIONS, "wreplay plan 1\nthread", BadLine { line: 2 }),
    (FUNCTIONS, "wreplay plan 1\nthreads ", BadLine { line: 2 }),
    (FUNCTIONS, "wreplay plan 1\n thread ", BadLine { line: 2 }),
    (FUNCTIONS, "wreplay plan 1\nThread ", BadLine { line: 2 }),
    (FUNCTIONS, "wreplay plan 1\nthread\t", BadLine { line: 2 }),
    (FUNCTIONS, "wreplay plan 1\nthread i ", BadLine { line: 2 }),
    (
        FUNCTIONS,
        "wreplay plan 1\nthread i 1 ",
        BadLine { line: 2 },
    ),
    (
        FUNCTIONS,
        "wreplay plan 1\nthread i  1",
        BadLine { line: 2 },
    ),
    (
        FUNCTIONS,
        "wreplay plan 1\nthread i 1\r",
        BadLine { line: 2 },
    ),
    // Other arguments.
    (
        FUNCTIONS,
        "wreplay plan 1\nthread i -0",
        BadLine { line: 2 },
    ),
    (
        FUNCTIONS,
        "wreplay plan 1\nthread i 00",
        BadLine { line: 2 },
    ),
    (
        FUNCTIONS,
        "wreplay plan 1\nthread i 01",
        BadLine { line: 2 },
    ),
    (
        FUNCTIONS,
        "wreplay plan 1\nthread i -01",
        BadLine { line: 2 },
    ),
    (
        FUNCTIONS,
        "wreplay plan 1\nthread i +1",
        BadLine { line: 2 },
    ),
    (FUNCTIONS, "wreplay plan 1\nthread i -", BadLine { line: 2 }),
    (
        FUNCTIONS,
        "wreplay plan 1\nthread i --1",
        BadLine { line: 2 },
    ),
    (
        FUNCTIONS,
        "wreplay plan 1\nthread i 1-",
        BadLine { line: 2 },
    ),
    (
        FUNCTIONS,
        "wreplay plan 1\nthread i 1a",
        BadLine { line: 2 },
    ),
    (
        FUNCTIONS,
        "wreplay plan 1\nthread i 0x1",
        BadLine { line: 2 },
    ),
    (
        FUNCTIONS,
        "wreplay plan 1\nthread i 1\t",
        BadLine { line: 2 },
    ),
    // Names of no function.
    (FUNCTIONS, "wreplay plan 1\nthread x", NoExport { line: 2 }),
    (FUNCTIONS, "wreplay plan 1\nthread m", NoExport { line: 2 }),
    (FUNCTIONS, "wreplay plan 1\nthread \r", NoExport { line: 2 }),
    (
        FUNCTIONS,
        "wreplay plan 1\nthread I 1",
        NoExport { line: 2 },
    ),
    // Two spaces stand round an empty name, which no function of the counter has; `f` is no number.
    (
        COUNTER,
        "wreplay plan 1\nthread  f 1\n",
        BadLine { line: 2 },
    ),
    (COUNTER, "wreplay plan 1\nthread  1\n", NoExport { line: 2 }),
    // Other numbers of arguments, and the limits of an i64 for an i32.
    (
        FUNCTIONS,
        "wreplay plan 1\nthread i",
        WrongArguments { line: 2 },
    ),
    (
        FUNCTIONS,
        "wreplay plan 1\nthread i 1 2",
        WrongArguments { line: 2 },
    ),
    (
        FUNCTIONS,
        "wreplay plan 1\nthread  0",
        WrongArguments { line: 2 },
    ),
    (
        FUNCTIONS,
        "wreplay plan 1\nthread two 1",
        WrongArguments { line: 2 },
    ),
    (
        FUNCTIONS,
        "wreplay plan 1\nthread two 4294967296 0",
        WrongArguments { line: 2 },
    ),
    (
        FUNCTIONS,
        "wreplay plan 1\nthread two 0 18446744073709551616",
        WrongArguments { line: 2 },
    ),
    (
        FUNCTIONS,
        "wreplay plan 1\nthread i -2147483648 4294967295",
        WrongArguments { line: 2 },
    ),
    // Arguments out of their range.
    (
        FUNCTIONS,
        "wreplay plan 1\nthread i 4294967296",
        WrongArguments { line: 2 },
    ),
    (
        FUNCTIONS,
        "wreplay plan 1\nthread i -2147483649",
        WrongArguments { line: 2 },
    ),
    (
        FUNCTIONS,
        "wreplay plan 1\nthread l 18446744073709551616",
        WrongArguments { line: 2 },
    ),
    (
        FUNCTIONS,
        "wreplay plan 1\nthread l -9223372036854775809",
        WrongArguments { line: 2 },
    ),
    (
        FUNCTIONS,
        "wreplay plan 1\nthread i 99999999999999999999999999999999999999999999",
        WrongArguments { line: 2 },
    ),
    (
        FUNCTIONS,
        "wreplay plan 1\nthread l -99999999999999999999999999999999999999999999",
        WrongArguments { line: 2 },
    ),
    // The first faulty line, and its form, its name and its arguments in that order.
    (
        FUNCTIONS,
        "wreplay plan 1\nthread \nthread \n\n",
        BadLine { line: 4 },
    ),
    (
        FUNCTIONS,
        "wreplay plan 1\nthread x 01",
        BadLine { line: 2 },
    ),
    (
        FUNCTIONS,
        "wreplay plan 1\nthread i 4294967296 01",
        BadLine { line: 2 },
    ),
    (
        FUNCTIONS,
        "wreplay plan 1\nthread x 4294967296",
        NoExport { line: 2 },
    ),
    (
        FUNCTIONS,
        "wreplay plan 1\nthread x\nthread",
        NoExport { line: 2 },
    ),
    (
        FUNCTIONS,
        "wreplay plan 1\nthread i\nthread\nthread x",
        WrongArguments { line: 2 },
    ),
    (
        FUNCTIONS,
        "wreplay plan 1\nthread \nthread i\nthread x",
        WrongArguments { line: 3 },
    ),
    // More than sixteen threads.
    (
        FUNCTIONS,
        "wreplay plan 1\n\
        thread \nthread \nthread \nthread \nthread \nthread \nthread \nthread \n\
        thread \nthread \nthread \nthread \nthread \nthread \nthread \nthread \nthread ",
        BadLine { line: 18 },
    ),
    (
        FUNCTIONS,
        "wreplay plan 1\n\
        thread \nthread \nthread \nthread \nthread \nthread \nthread \nthread \n\
        thread \nthread \nthread \nthread \nthread \nthread \nthread \nthread \nthread x",
        BadLine { line: 18 },
    ),
    (
        FUNCTIONS,
        "wreplay plan 1\n\
        thread \nthread \nthread \nthread \nthread \nthread \nthread \nthread \n\
        thread \nthread \nthread \nthread \nthread \nthread \nthread \nthread x\nthread",
        NoExport { line: 17 },
    ),
    // Several threads, and a memory that is not shared.
    (IMPORTED, "wreplay plan 1\nthread f\nthread f", NotShared),
    (UNSHARED, "wreplay plan 1\nthread f\nthread f", NotShared),
    // Lines go before the memory, and the memory before segments.
    (
        UNSHARED_PAST,
        "wreplay plan 1\nthread f\nthread",
        BadLine { line: 3 },
    ),
    (
        UNSHARED_PAST,
        "wreplay plan 1\nthread f\nthread f",
        NotShared,
    ),
    (
        UNSHARED_PAST,
        "wreplay plan 1\nthread f",
        SegmentOutOfBounds,
    ),
    // A byte behind the memory; nothing at the greatest offset; the same of a memory that is imported.
    (
        "0061736d0100000001040160000003020100050401030101070501016600000a040102000b0b090100418080040b0178",
        "wreplay plan 1\nthread f",
        SegmentOutOfBounds,
    ),
    (
        "0061736d0100000001040160000003020100050401030101070501016600000a040102000b0b060100417f0b00",
        "wreplay plan 1\nthread f",
        SegmentOutOfBounds,
    ),
    (
        "0061736d010000000104016000000208010161016202000103020100070501016600000a040102000b0b090100418080040b0178",
        "wreplay plan 1\nthread f",
        SegmentOutOfBounds,
    ),
    (
        "0061736d010000000104016000000208010161016202000103020100070501016600000a040102000b0b060100417f0b00",
        "wreplay plan 1\nthread f",
        SegmentOutOfBounds,
    ),
    // An element behind the table.
    (
        "0061736d0100000001040160000003020100040401700002070501016600000907010041020b01000a040102000b",
        "wreplay plan 1\nthread f",
        SegmentOutOfBounds,
    ),
];

fn is_as_wanted(plan: &Plan, text: &[u8], wanted: Threads<'_>) -> bool {
    let mut same = plan.bytes() == text && plan.threads() as usize == wanted.len();
    for (number, (function, arguments)) in (0u32..).zip(wanted) {
        same &= match plan.thread(number) {
            Some(thread) => {
                thread.function == *function && thread.arguments.as_slice() == *arguments
            }
            None => false,
        };
    }
    same
}

fn is_read(
    alloc: Global,
    text: &[u8],
    valid: &Valid,
    wanted: Threads<'_>,
) -> Result<bool, PlanFault> {
    let plan = Plan::read(alloc, text, valid)?;
    Ok(is_as_wanted(&plan, text, wanted))
}

/// Whether a text is a plan that keeps its bytes and has these threads, for the module that these digits spell. Where a
/// growth of the test's own is refused it is answered as one of `read` is.
pub(crate) fn is_plan(
    alloc: Global,
    digits: &str,
    text: &[u8],
    wanted: Threads<'_>,
) -> Result<bool, PlanFault> {
    let Ok(valid) = valid_of(alloc, digits) else {
        return Err(PlanFault::NoMemory);
    };
    is_read(alloc, text, &valid, wanted)
}

fn same(rt: &impl Abort, found: Result<bool, PlanFault>, want: Result<bool, Refusal>, text: &str) {
    let found = match found {
        Ok(read) => Ok(read),
        Err(fault) => Err(refusal_of(fault)),
    };
    assert_eq!(rt; found, want, "{text}");
}

#[test]
fn plans_are_read_or_refused_at_their_first_fault(rt: HostRuntime) {
    let plans = PLANS;
    for (digits, text, wanted) in plans {
        let found = is_plan(rt.alloc(), digits, text.as_bytes(), wanted);
        same(&rt, found, Ok(true), text);
    }
    let faults = FAULTS;
    for (digits, text, fault) in faults {
        let found = is_plan(rt.alloc(), digits, text.as_bytes(), &[]);
        same(&rt, found, Err(*fault), text);
    }
    // A name is UTF-8.
    let found = is_plan(rt.alloc(), FUNCTIONS, b"wreplay plan 1\nthread \xff\n", &[]);
    same(&rt, found, Err(BadLine { line: 2 }), "UTF-8");
}
