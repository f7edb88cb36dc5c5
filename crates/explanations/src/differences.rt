//! In which parts the keys of two runs differ.

ghost use Rattle.std.specs.Prelude.{◌≡◌, IfOk, string_bytes};
ghost use Rattle.explanations.specs.Differences.{digest_part, number_part, block_part, profile_part, differences, other_line, other_run};

use std::alloc::Global;
use wasm_types::{Block, NoMemory, Profile, RunKey};

/// What is said of two digests.
fn digest_part(first: &[u8; 32], second: &[u8; 32]) -> &'static str
    ensures { result.now ≡ digest_part first.now second.now }
{
    if first == second {
        ""
    } else {
        "; the digest of module and plan differs"
    }
}

/// What is said of two run numbers.
fn number_part(alloc: Global, first: u64, second: u64) -> Result<String, NoMemory>
    ensures { IfOk result (λ text. string_bytes text ≡ number_part first second) }
{
    if first == second {
        return Ok(String::new(alloc));
    }
    Ok(format!(in alloc; "; the run number differs: {first} and {second}")?)
}

/// What is said of two sizes of blocks.
fn block_part(alloc: Global, first: &Block, second: &Block) -> Result<String, NoMemory>
    ensures { IfOk result (λ text. string_bytes text ≡ block_part first.now second.now) }
{
    if first.power() == second.power() {
        return Ok(String::new(alloc));
    }
    let (first, second) = (first.size(), second.size());
    Ok(format!(in alloc; "; the block size differs: {first} and {second}")?)
}

/// What is said of two profiles.
fn profile_part(alloc: Global, first: &Profile, second: &Profile) -> Result<String, NoMemory>
    ensures { IfOk result (λ text. string_bytes text ≡ profile_part first.now second.now) }
{
    match first {
        Profile::One => match second {
            Profile::One => Ok(String::new(alloc)),
            Profile::Two(_) => Ok(format!(in alloc; "; the profile differs: 1 and 2")?),
        },
        Profile::Two(block) => match second {
            Profile::One => Ok(format!(in alloc; "; the profile differs: 2 and 1")?),
            Profile::Two(other) => block_part(alloc, block, other),
        },
    }
}

/// The parts in which two keys differ, each behind `; `.
fn differences(alloc: Global, first: &RunKey, second: &RunKey) -> Result<String, NoMemory>
    ensures { IfOk result (λ text. string_bytes text ≡ differences first.now second.now) }
{
    let digest = digest_part(&first.digest, &second.digest);
    let number = number_part(alloc, first.run, second.run)?;
    let profile = profile_part(alloc, &first.profile, &second.profile)?;
    Ok(format!(in alloc; "{digest}{number}{profile}")?)
}

/// Why the piece of a line, which has the first of these keys, does not belong to that of line 1, in words: the parts
/// in which their keys differ.
pub(crate) fn other_line_words(
    alloc: Global,
    own: &RunKey,
    first: &RunKey,
) -> Result<String, NoMemory>
    ensures { IfOk result (λ text. string_bytes text ≡ other_line own.now first.now) }
{
    let differences = differences(alloc, own, first)?;
    Ok(format!(in alloc; "its piece is of another run than that of line 1{differences}")?)
}

/// Whose pieces a log has, which has the first of these keys, and whose it should have, in words, and in which parts
/// the keys differ.
pub(crate) fn other_run_words(alloc: Global, log: &RunKey, own: &RunKey) -> Result<String, NoMemory>
    ensures { IfOk result (λ text. string_bytes text ≡ other_run log.now own.now) }
{
    let differences = differences(alloc, log, own)?;
    Ok(format!(in alloc;
        "the pieces are of run {log}, of another module or plan: that run of these has {own}{differences}"
    )?)
}
