//! Sizes of blocks, keys of runs and numbers in LEB128.

use std::test::Fail;
use wasm_types::{Block, Profile, RunKey, leb_signed, leb_unsigned};

#[test]
fn blocks_are_powers_of_two(rt: HostRuntime) {
    for size in [64, 128, 256, 512, 1024, 2048, 4096] {
        assert!(rt; Block::new(size).is_ok());
    }
    for size in [0, 1, 32, 63, 65, 96, 4095, 8192] {
        assert!(rt; Block::new(size).is_err());
    }
}

// SHA-256 of `abc` (FIPS 180-4, example), whichever way it is cut.
#[test]
fn a_key_has_the_digest_of_module_and_plan(rt: HostRuntime) -> Result<(), Fail> {
    for (module, plan) in [("ab", "c"), ("a", "bc")] {
        let key = RunKey::of(module.as_bytes(), plan.as_bytes(), 1, Profile::One);
        let text = format!(in rt.alloc(); "{key}")?;
        let wanted = "ba7816bf8f01cfea414140de5dae2223b00361a396177a9cb410ff61f20015ad:1";
        assert!(rt; text.as_str() == wanted);
    }
    Ok(())
}

fn are_read(bytes: &[u8]) -> bool {
    leb_unsigned(bytes, 1, 32) == Some((624485, 4))
        && leb_signed(bytes, 4, 32) == Some((-1, 6))
        && leb_signed(bytes, 4, 64) == Some((-1, 6))
        && leb_unsigned(bytes, 6, 64).is_none()
        && leb_signed(bytes, 10, 32).is_none()
}

#[test]
fn numbers_are_read_at_a_place(rt: HostRuntime) {
    let bytes: [u8; 9] = [0x41, 0xE5, 0x8E, 0x26, 0xFF, 0x7F, 0x80, 0x80, 0x80];
    assert!(rt; are_read(&bytes));
}
