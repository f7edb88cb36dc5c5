//! Name sections that were spelled by hand.

use binary_decoder::{FunctionNames, fits_line};
use std::alloc::Global;
use std::test::Fail;

/// What is left of a module without any section.
const NO_SECTION: &[u8] = b"\0asm\x01\0\0\0";

/// A custom section `x`, then a name section: the module's name, `add` for function 0 and `go` for function 2.
const TWO_NAMES: &[u8] =
    b"\0asm\x01\0\0\0\0\x02\x01x\0\x15\x04name\0\x02\x01m\x01\x0a\x02\0\x03add\x02\x02go";

/// The same map, which says that it has three entries.
const THIRD_MISSING: &[u8] = b"\0asm\x01\0\0\0\0\x11\x04name\x01\x0a\x03\0\x03add\x02\x02go";

/// The second name is no UTF-8.
const NO_TEXT: &[u8] = b"\0asm\x01\0\0\0\0\x11\x04name\x01\x0a\x02\0\x03add\x02\x02g\xff";

/// The name section is longer than the module.
const TOO_LONG: &[u8] = b"\0asm\x01\0\0\0\0\x12\x04name\x01\x0a\x02\0\x03add\x02\x02go";

/// Two functions have the same name, and one has two names.
const TWICE: &[u8] = b"\0asm\x01\0\0\0\0\x15\x04name\x01\x0e\x03\0\x03add\x02\x03add\0\x01b";

/// A module's bytes, and the names of functions 0, 1 and 2.
static ROWS: &[(&[u8], &str)] = &[
    (b"", "0 1 2"),
    (NO_SECTION, "0 1 2"),
    (TWO_NAMES, "add 1 go"),
    (THIRD_MISSING, "add 1 go"),
    (NO_TEXT, "add 1 2"),
    (TOO_LONG, "0 1 2"),
    (TWICE, "b 1 add"),
];

// The name of a function, or its number where it has none.
fn title(alloc: Global, names: &FunctionNames, function: u32) -> Result<String, Fail> {
    match names.get(function) {
        Some(name) => Ok(String::from_str(alloc, name)?),
        None => Ok(format!(in alloc; "{function}")?),
    }
}

// The names of functions 0, 1 and 2.
fn titles(alloc: Global, bytes: &[u8]) -> Result<String, Fail> {
    let names = FunctionNames::new(alloc, bytes)?;
    let first = title(alloc, &names, 0)?;
    let second = title(alloc, &names, 1)?;
    let third = title(alloc, &names, 2)?;
    Ok(format!(in alloc; "{first} {second} {third}")?)
}

#[test]
fn functions_have_the_names_before_the_damage(rt: HostRuntime) -> Result<(), Fail> {
    for (bytes, want) in ROWS {
        let text = titles(rt.alloc(), bytes)?;
        assert_eq!(rt; text.as_str(), *want);
    }
    Ok(())
}

/// Names, and whether they stand in one line, in one direction.
static LINES: &[(&str, bool)] = &[
    ("", true),
    ("add", true),
    ("größer als", true),
    ("\u{A0}\u{200D}\u{202F}\u{FEFF}", true),
    ("a\nb", false),
    ("a\u{7F}", false),
    ("a\u{85}", false),
    ("\u{61C}a", false),
    ("a\u{200E}", false),
    ("a\u{2028}b", false),
    ("a\u{2029}b", false),
    ("a\u{202E}b", false),
    ("a\u{2067}b", false),
];

#[test]
fn names_of_one_line_and_direction_fit(rt: HostRuntime) {
    for (name, want) in LINES {
        assert_eq!(rt; fits_line(name), *want, "{name:?}");
    }
}
