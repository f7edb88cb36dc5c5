//! Contradictions of logs that were gathered from few pieces, and the lines that listings have for them.

use crate::checks::{check, compare};
use crate::replicas::delivered;
use crate::skipping::{run_in_form, working};
use replica::{Diverging, EventAt, ListingForm, Skipped, divergence};
use std::alloc::Global;
use std::test::Fail;
use wasm_types::NoMemory;

// The first entry of thread 0, which writes version 0 of object 1.
const FIRST: &str = "\
    49525001aaaaaaaaaaaaaaaaaaaaaaaaaaaaaaaaaaaaaaaaaaaaaaaaaaaaaaaaaaaaaaaa0100000000000000000000\
    00000100000001010000000100000000000000000000000000000000";

// Another one, which writes version 5.
const OTHER_FIRST: &str = "\
    49525001aaaaaaaaaaaaaaaaaaaaaaaaaaaaaaaaaaaaaaaaaaaaaaaaaaaaaaaaaaaaaaaa0100000000000000000000\
    00000100000001010000000105000000000000000000000000000000";

// The second entry of thread 0, which writes version 1, and its end.
const SECOND: &str = "\
    49525001aaaaaaaaaaaaaaaaaaaaaaaaaaaaaaaaaaaaaaaaaaaaaaaaaaaaaaaaaaaaaaaa0100000000000000000100\
    0000010001000101000000010100000000000000000000000000000008000000020000000301000000";

// Another end of thread 0.
const OTHER_END: &str = "\
    49525001aaaaaaaaaaaaaaaaaaaaaaaaaaaaaaaaaaaaaaaaaaaaaaaaaaaaaaaaaaaaaaaa0100000000000000000000\
    000000000109000000020000000301000000";

// The first entry of thread 1, which writes version 0 too.
const THIRD: &str = "\
    49525001aaaaaaaaaaaaaaaaaaaaaaaaaaaaaaaaaaaaaaaaaaaaaaaaaaaaaaaaaaaaaaaa0100000000000000010000\
    00000100000001010000000100000000000000000000000000000000";

// Its second entry, which writes version 1 too, and its end.
const FOURTH: &str = "\
    49525001aaaaaaaaaaaaaaaaaaaaaaaaaaaaaaaaaaaaaaaaaaaaaaaaaaaaaaaaaaaaaaaa0100000000000000010100\
    0000010001000101000000010100000000000000000000000000000008000000020000000303000000";

fn gathered(alloc: Global, lines: &[&str]) -> Result<Vec<Diverging>, Fail> {
    let replica = delivered(alloc, lines)?;
    Ok(divergence(alloc, replica.log())?)
}

fn clash(thread: u32, place: Option<u32>) -> Diverging {
    Diverging::Clash { thread, place }
}

fn double(version: u64, first: (u32, u32), second: (u32, u32)) -> Diverging {
    let (thread, place) = first;
    let first = EventAt { thread, place };
    let (thread, place) = second;
    let second = EventAt { thread, place };
    Diverging::DoubleWrite {
        object: 1,
        version,
        first,
        second,
    }
}

#[test]
fn contradictions_come_in_their_order(rt: HostRuntime) -> Result<(), Fail> {
    let alloc = rt.alloc();
    let first_version = double(0, (0, 0), (1, 0));
    let second_version = double(1, (0, 1), (1, 1));
    let rows: [(&[&str], &[Diverging]); 5] = [
        (&[], &[]),
        (&[FIRST, SECOND], &[]),
        (&[THIRD, FIRST], &[first_version]),
        (
            CONTRADICTING,
            &[clash(0, None), first_version, second_version],
        ),
        (
            &[THIRD, FIRST, OTHER_END, SECOND, OTHER_FIRST],
            &[clash(0, Some(0)), clash(0, None)],
        ),
    ];
    for (lines, want) in rows {
        let found = gathered(alloc, lines)?;
        compare(&rt, &found.as_slice(), &want, "contradictions");
    }
    Ok(())
}

/// A listing that tells the contradictions of its log.
pub(crate) const TELLING: ListingForm = ListingForm {
    objects: false,
    contradictions: true,
};

/// The pieces of two threads, which claim the end of thread 0 differently, and both writes of object 1 twice.
pub(crate) const CONTRADICTING: &[&str] = &[FOURTH, THIRD, SECOND, FIRST, OTHER_END];

/// Their listing, without its contradictions.
const CONTRADICTING_LISTED: &str = "\
run aaaaaaaaaaaaaaaaaaaaaaaaaaaaaaaaaaaaaaaaaaaaaaaaaaaaaaaaaaaaaaaa:1
0.0 access w1@0/0
0.1 access w1@1/0
0 end clash
1.0 access w1@0/0
1.1 access w1@1/0
1 end steps=8 places=2 i32 3
ends 1 missing 0 strays 0 clashes 1
";

/// Their listing.
pub(crate) const CONTRADICTING_TOLD: &str = "\
run aaaaaaaaaaaaaaaaaaaaaaaaaaaaaaaaaaaaaaaaaaaaaaaaaaaaaaaaaaaaaaaa:1
0.0 access w1@0/0
0.1 access w1@1/0
0 end clash
1.0 access w1@0/0
1.1 access w1@1/0
1 end steps=8 places=2 i32 3
ends 1 missing 0 strays 0 clashes 1
clash 0 end
double w1@0 0.0 1.0
double w1@1 0.1 1.1
";

/// The listing of pieces that claim the first entry and the end of thread 0 differently.
const CLASHES_TOLD: &str = "\
run aaaaaaaaaaaaaaaaaaaaaaaaaaaaaaaaaaaaaaaaaaaaaaaaaaaaaaaaaaaaaaaa:1
0.0 clash
0.1 access w1@1/0
0 end clash
1.0 access w1@0/0
ends 0 missing 0 strays 0 clashes 2
clash 0.0
clash 0 end
";

/// The same, and behind its one entry that is no clash which bytes its object is.
const CLASHES_TOLD_WITH_OBJECTS: &str = "\
run aaaaaaaaaaaaaaaaaaaaaaaaaaaaaaaaaaaaaaaaaaaaaaaaaaaaaaaaaaaaaaaa:1
0.0 clash
0.1 access w1@1/0; 1: bytes 0..63
0 end clash
1.0 access w1@0/0; 1: bytes 0..63
ends 0 missing 0 strays 0 clashes 2
clash 0.0
clash 0 end
";

/// The listing of pieces that claim one write twice and nothing else.
const DOUBLE_TOLD: &str = "\
run aaaaaaaaaaaaaaaaaaaaaaaaaaaaaaaaaaaaaaaaaaaaaaaaaaaaaaaaaaaaaaaa:1
0.0 access w1@0/0
1.0 access w1@0/0
ends 0 missing 0 strays 0 clashes 0
double w1@0 0.0 1.0
";

/// The listing of pieces that agree.
const AGREEING_TOLD: &str = "\
run aaaaaaaaaaaaaaaaaaaaaaaaaaaaaaaaaaaaaaaaaaaaaaaaaaaaaaaaaaaaaaaa:1
0.0 access w1@0/0
0.1 access w1@1/0
0 end steps=8 places=2 i32 1
ends 1 missing 0 strays 0 clashes 0
";

/// The listing of no piece.
const NOTHING_TOLD: &str = "run none\nends 0 missing 0 strays 0 clashes 0\n";

/// The text of pieces, a line each.
pub(crate) fn text_of(alloc: Global, lines: &[&str]) -> Result<String, NoMemory> {
    let mut text = String::new(alloc);
    for line in lines {
        text.push_str(line)?;
        text.push_str("\n")?;
    }
    Ok(text)
}

/// Whether a text is listed so, of which no line is passed over.
pub(crate) fn is_text_listed(
    alloc: Global,
    text: &[u8],
    skips: bool,
    form: ListingForm,
    want: &[u8],
) -> bool {
    let found = run_in_form(alloc, text, &working(1000), skips, form);
    found.answer == Ok(Skipped { bad: 0, foreign: 0 }) && found.sink.taken() == want
}

/// Whether pieces are listed so, also where lines that cannot be joined would be passed over.
fn is_listed(
    alloc: Global,
    lines: &[&str],
    form: ListingForm,
    want: &[u8],
) -> Result<bool, NoMemory> {
    let text = text_of(alloc, lines)?;
    let text = text.as_bytes();
    Ok(
        is_text_listed(alloc, text, false, form, want)
            && is_text_listed(alloc, text, true, form, want),
    )
}

/// The pieces that clash, and a listing of all that can be said.
const CLASHING: &[&str] = &[THIRD, FIRST, OTHER_END, SECOND, OTHER_FIRST];

const SAYING_ALL: ListingForm = ListingForm {
    objects: true,
    contradictions: true,
};

const SAYING_NOTHING: ListingForm = ListingForm {
    objects: false,
    contradictions: false,
};

/// Pieces, the form of a listing, and the listing.
static LISTED: &[(&[&str], ListingForm, &str)] = &[
    (CONTRADICTING, TELLING, CONTRADICTING_TOLD),
    (CONTRADICTING, SAYING_NOTHING, CONTRADICTING_LISTED),
    (CLASHING, TELLING, CLASHES_TOLD),
    (CLASHING, SAYING_ALL, CLASHES_TOLD_WITH_OBJECTS),
    (&[THIRD, FIRST], TELLING, DOUBLE_TOLD),
    (&[FIRST, SECOND], TELLING, AGREEING_TOLD),
    (&[], TELLING, NOTHING_TOLD),
];

#[test]
fn listings_tell_contradictions_where_the_form_asks(rt: HostRuntime) -> Result<(), Fail> {
    for (lines, form, want) in LISTED {
        let is_so = is_listed(rt.alloc(), lines, *form, want.as_bytes())?;
        check(&rt, is_so, want);
    }
    Ok(())
}
