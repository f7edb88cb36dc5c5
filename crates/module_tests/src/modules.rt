//! What no command line shows of the reasons of modules.

use binary_decoder::{DecodeFault, ModulePart, decode};
use commands::import_names;
use explanations::decode_words;
use std::alloc::Global;
use std::test::Fail;

/// A module with a section of each kind.
const WHOLE: &[u8] =
    b"\0asm\x01\0\0\0\x01\x04\x01`\0\0\x02\x08\x01\x01e\x01m\x02\0\x01\x03\x02\x01\0\x04\x04\x01p\0\x01\x05\x04\x01\x03\x01\x01\x06\x06\x01\x7f\0A\0\x0b\x07\x05\x01\x01f\0\0\x08\x01\0\x09\x07\x01\0A\0\x0b\x01\0\n\x15\x01\x13\x01\x01~A\0\x04@\x05\x0bA\0(\x02\0\x1a\xfe\x03\0\x0b\x0b\x09\x01\0A\0\x0b\x03abc\0\x03\x01nx";

// Whether the bytes are a module, or it is known where they are none.
fn is_known(alloc: Global, bytes: &[u8]) -> bool {
    match decode(alloc, bytes) {
        Err(DecodeFault::Refused { place, .. }) => place != ModulePart::Unknown,
        Err(DecodeFault::TooLarge { .. }) => false,
        Err(DecodeFault::NoMemory) => false,
        Ok(_) => true,
    }
}

// The words of the fault of a module's bytes.
fn words_of(alloc: Global, bytes: &[u8]) -> Result<String, Fail> {
    match decode(alloc, bytes) {
        Err(fault) => Ok(decode_words(alloc, &fault, &import_names(bytes, &fault))?),
        Ok(_) => Ok(String::new(alloc)),
    }
}

#[test]
fn a_file_that_is_too_large_is_named(rt: HostRuntime) -> Result<(), Fail> {
    let zero = 0u8;
    let bytes = vec![in rt.alloc(); zero; 1_048_577]?;
    let text = words_of(rt.alloc(), bytes.as_slice())?;
    assert_eq!(rt;
        text.as_str(),
        "the file has more than 1048576 bytes, the most that a module may have"
    );
    Ok(())
}

#[test]
fn an_import_is_named(rt: HostRuntime) -> Result<(), Fail> {
    let bytes = b"\0asm\x01\0\0\0\x02\x09\x01\x03env\x01g\x03\x7f";
    let text = words_of(rt.alloc(), bytes)?;
    assert_eq!(rt;
        text.as_str(),
        "import 0: env.g is an imported global: a memory alone may be imported"
    );
    Ok(())
}

#[test]
fn beginnings_of_a_module_have_a_reason(rt: HostRuntime) -> Result<(), Fail> {
    assert!(rt; decode(rt.alloc(), WHOLE).is_ok());
    for length in 0..WHOLE.len() {
        let (beginning, _) = WHOLE.split_at(length);
        assert!(rt; is_known(rt.alloc(), beginning), "{length}");
    }
    Ok(())
}
