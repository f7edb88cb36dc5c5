//! Why lines of plans are refused.

use binary_decoder::decode;
use commands::plan_quote;
use explanations::plan_words;
use std::alloc::Global;
use std::process::Abort;
use std::test::Fail;
use thread_plan::{Plan, PlanFault};
use validator::{Valid, validate};

// A shared memory `m`, and functions: `i` takes an i32, `l` an i64, `two` both; one that takes nothing has the empty
// name, `zwölf`, and a name with a carriage return.
const MODULE: &str = "\
    0061736d01000000\
    01110460017f0060017e0060000060027f7e00\
    03050400010203050401030101\
    07250701690000016c0001000002067a77c3b66c66000203610d6200020374776f0003016d0200\
    0a0d0402000b02000b02000b02000b";

fn valid(alloc: Global) -> Result<Valid, Fail> {
    let bytes = hex::decode(alloc, MODULE)?;
    Ok(validate(alloc, decode(alloc, &bytes)?)?)
}

// Why a text is refused for a module, or that it is a plan.
fn told_over(alloc: Global, text: &[u8], valid: &Valid) -> Result<String, Fail> {
    match Plan::read(alloc, text, valid) {
        Ok(_) => Ok(format!(in alloc; "a plan")?),
        Err(fault) => {
            let words = plan_words(alloc, &fault, plan_quote(text, &fault).as_str())?;
            Ok(format!(in alloc; "{fault}: {words}")?)
        }
    }
}

// The same for the module of above. It alone owns a module.
fn told(alloc: Global, text: &[u8]) -> Result<String, Fail> {
    let valid = valid(alloc)?;
    told_over(alloc, text, &valid)
}

// A text, and the words of its fault and of its reason.
type Row = (&'static [u8], &'static str);

// Each of these texts is refused so.
fn all_told(rt: &impl Abort, alloc: Global, rows: &[Row]) -> Result<(), Fail> {
    for (text, words) in rows {
        let found = told(alloc, text)?;
        assert_eq!(rt; found.as_str(), *words);
    }
    Ok(())
}

// Texts with a line that is none of a plan.
static FORMS: &[Row] = &[
    (
        b"",
        "line 1 is no line of a plan: the first line is empty, and not `wreplay plan 1`",
    ),
    (
        b"wreplay plan 2\nthread i 0\n",
        "line 1 is no line of a plan: the first line is `wreplay plan 2`, and not `wreplay plan 1`",
    ),
    (
        b"wreplay plan 1\r\nthread i 0\r\n",
        "line 1 is no line of a plan: the line ends in a carriage return",
    ),
    (
        b"wreplay plan 1\n",
        "line 2 is no line of a plan: no line `thread NAME ARG ..` stands in the plan",
    ),
    (
        b"wreplay plan 1\n\n",
        "line 2 is no line of a plan: the line is empty",
    ),
    (
        b"wreplay plan 1\nthread i 0\n\n",
        "line 3 is no line of a plan: the line is empty",
    ),
    (
        b"wreplay plan 1\nthread i 0\r\n",
        "line 2 is no line of a plan: the line ends in a carriage return",
    ),
    (
        b"wreplay plan 1\n thread i 0\n",
        "line 2 is no line of a plan: the line begins with a space",
    ),
    (
        b"wreplay plan 1\nthread i 0 \n",
        "line 2 is no line of a plan: the line ends in a space",
    ),
    (
        b"wreplay plan 1\nthread two 0  7\n",
        "line 2 is no line of a plan: two spaces stand side by side",
    ),
    (
        b"wreplay plan 1\nthreads i 0\n",
        "line 2 is no line of a plan: the first word is `threads`, and not `thread`",
    ),
    (
        b"wreplay plan 1\nthread\n",
        "line 2 is no line of a plan: no name of a function stands behind `thread`",
    ),
    (
        b"wreplay plan 1\nthread a\xffb 0\n",
        "line 2 is no line of a plan: the name `a?b` is not in utf-8",
    ),
    (
        b"wreplay plan 1\nthread two 0 x1\n",
        "line 2 is no line of a plan: argument 2, `x1`, is no integer in decimal",
    ),
    (
        b"wreplay plan 1\nthread i 00",
        "line 2 is no line of a plan: argument 1, `00`, is no integer in decimal",
    ),
    (
        b"wreplay plan 1\nthread  i 0\n",
        "line 2 is no line of a plan: two spaces stand side by side",
    ),
    (
        b"\0\x1b[31m\x7f",
        "line 1 is no line of a plan: the first line is `??[31m?`, and not `wreplay plan 1`",
    ),
    (
        b"0123456789012345678901234567890123456789x",
        "line 1 is no line of a plan: the first line is `0123456789012345678901234567890123456789..`, and not `wreplay plan 1`",
    ),
];

#[test]
fn lines_that_are_none_of_a_plan_are_told(rt: HostRuntime) -> Result<(), Fail> {
    all_told(&rt, rt.alloc(), FORMS)
}

// Texts that name no function in line 2.
static NAMES: &[Row] = &[
    (
        b"wreplay plan 1\nthread j 0\n",
        "line 2 names no exported function: the module exports no function with the name `j`",
    ),
    (
        b"wreplay plan 1\nthread m\n",
        "line 2 names no exported function: the module exports no function with the name `m`",
    ),
    (
        b"wreplay plan 1\nthread i\r\n",
        "line 2 names no exported function: the line ends in a carriage return",
    ),
];

#[test]
fn names_of_no_function_are_told(rt: HostRuntime) -> Result<(), Fail> {
    all_told(&rt, rt.alloc(), NAMES)
}

// Texts of wrong arguments in line 2.
static ARGUMENTS: &[Row] = &[
    (
        b"wreplay plan 1\nthread i\n",
        "line 2 has other arguments than the function takes: the number of arguments that the function takes is 1, and that of the line is 0",
    ),
    (
        b"wreplay plan 1\nthread two 1 2 3\n",
        "line 2 has other arguments than the function takes: the number of arguments that the function takes is 2, and that of the line is 3",
    ),
    (
        b"wreplay plan 1\nthread i 4294967296\n",
        "line 2 has other arguments than the function takes: argument 1, `4294967296`, is not from -2147483648 to 4294967295, as an i32 is",
    ),
    (
        b"wreplay plan 1\nthread two 0 -9223372036854775809\n",
        "line 2 has other arguments than the function takes: argument 2, `-9223372036854775809`, is not from -9223372036854775808 to 18446744073709551615, as an i64 is",
    ),
];

#[test]
fn wrong_arguments_are_told(rt: HostRuntime) -> Result<(), Fail> {
    all_told(&rt, rt.alloc(), ARGUMENTS)
}

// A plan of so many threads.
fn threads(alloc: Global, count: u32) -> Result<String, Fail> {
    let mut text = String::from_str(alloc, "wreplay plan 1\n")?;
    for _ in 0..count {
        text.push_str("thread i 0\n")?;
    }
    Ok(text)
}

#[test]
fn a_seventeenth_thread_is_told(rt: HostRuntime) -> Result<(), Fail> {
    let text = threads(rt.alloc(), 17)?;
    let found = told(rt.alloc(), text.as_bytes())?;
    assert_eq!(rt;
        found.as_str(),
        "line 18 is no line of a plan: a plan has no more than 16 threads"
    );
    Ok(())
}

#[test]
fn faults_of_no_line_keep_their_words(rt: HostRuntime) -> Result<(), Fail> {
    let text = plan_words(rt.alloc(), &PlanFault::NotShared, "")?;
    assert_eq!(rt; text.as_str(), "the memory is not shared");
    Ok(())
}
