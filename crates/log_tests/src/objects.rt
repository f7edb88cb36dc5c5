//! Listings that tell which bytes the objects of their entries are.

use crate::checks::check;
use crate::contradictions::is_text_listed;
use log_pieces::{Entry, Few, Found, Kind, Piece, line};
use replica::ListingForm;
use std::alloc::Global;
use std::test::Fail;
use wasm_types::{Block, Profile, RunKey};

/// An entry that reads the length and a block and writes a queue.
fn entry_of_three(alloc: Global) -> Entry {
    let mut found = Few::new(alloc);
    found.push(Found::Read {
        object: 0,
        version: 0,
    });
    found.push(Found::Read {
        object: 1,
        version: 7,
    });
    found.push(Found::Write {
        object: 4,
        version: 2,
        reads: 1,
    });
    Entry {
        kind: Kind::Access,
        found,
    }
}

/// A piece of that entry.
fn three_objects(alloc: Global, profile: Profile) -> Result<Piece, Fail> {
    let key = RunKey {
        digest: [0xaa; 32],
        run: 1,
        profile,
    };
    let mut entries = Vec::new(alloc);
    entries.push(entry_of_three(alloc))?;
    Ok(Piece::new(key, 0, 0, entries, None)?)
}

/// Whether the listing of that piece is the wanted one.
fn is_listed(
    alloc: Global,
    profile: Profile,
    form: ListingForm,
    wanted: &[u8],
) -> Result<bool, Fail> {
    let text = line(alloc, &three_objects(alloc, profile)?)?;
    Ok(is_text_listed(alloc, &text, false, form, wanted))
}

#[test]
fn objects_are_told_where_the_form_asks(rt: HostRuntime) -> Result<(), Fail> {
    let alloc = rt.alloc();
    let with_objects = ListingForm {
        objects: true,
        ..ListingForm::default()
    };
    let plain = b"\
run aaaaaaaaaaaaaaaaaaaaaaaaaaaaaaaaaaaaaaaaaaaaaaaaaaaaaaaaaaaaaaaa:1
0.0 access r0@0 r1@7 w4@2/1
ends 0 missing 0 strays 0 clashes 0
";
    let is_so = is_listed(alloc, Profile::One, ListingForm::default(), plain)?;
    check(&rt, is_so, "without objects");
    let told = b"\
run aaaaaaaaaaaaaaaaaaaaaaaaaaaaaaaaaaaaaaaaaaaaaaaaaaaaaaaaaaaaaaaa:1
0.0 access r0@0 r1@7 w4@2/1; 0: length; 1: bytes 0..63; 4: waiters 64..127
ends 0 missing 0 strays 0 clashes 0
";
    let is_so = is_listed(alloc, Profile::One, with_objects, told)?;
    check(&rt, is_so, "with objects");
    let larger = b"\
run aaaaaaaaaaaaaaaaaaaaaaaaaaaaaaaaaaaaaaaaaaaaaaaaaaaaaaaaaaaaaaaa:1:4096
0.0 access r0@0 r1@7 w4@2/1; 0: length; 1: bytes 0..4095; 4: waiters 4096..8191
ends 0 missing 0 strays 0 clashes 0
";
    let profile = Profile::Two(Block::new(4096)?);
    let is_so = is_listed(alloc, profile, with_objects, larger)?;
    check(&rt, is_so, "with objects of larger blocks");
    Ok(())
}
