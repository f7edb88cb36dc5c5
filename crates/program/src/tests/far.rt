//! How far hunts are, by the records that the program makes of it.

use super::{Case, Done, run_on};
use std::alloc::Global;
use std::sync::Wait;
use std::test::Fail;
use std::thread::Threads;

/// Hunts that make one run after the other, and what their log says of how far they are.
const FAR: &[(&[&str], &str)] = &[
    (
        &[
            "wreplay", "hunt", "m", "p", "--list", "--runs", "3", "--jobs", "1",
        ],
        "0 of 3 runs made=0\n1 of 3 runs made=1\n2 of 3 runs made=2\n3 of 3 runs made=3\nthe hunt is over\n",
    ),
    (
        &["wreplay", "hunt", "w", "a", "--jobs", "1"],
        "0 of 1000 runs made=0\n1 of 1000 runs made=1\nthe hunt is over\n",
    ),
    (
        &["wreplay", "hunt", "m", "p", "--threads", "--runs", "2"],
        "0 of 2 runs made=0\n1 of 2 runs made=1\n2 of 2 runs made=2\nthe hunt is over\n",
    ),
    (
        &["wreplay", "hunt", "m", "p", "--size", "0"],
        "0 of 1000 runs made=0\nthe hunt is over\n",
    ),
    (&["wreplay", "hunt", "m", "s"], ""),
    (
        &[
            "wreplay", "hunt", "m", "p", "--list", "--quiet", "--runs", "3",
        ],
        "",
    ),
    (&["wreplay", "hunt", "w", "a", "--quiet", "--shrink"], ""),
    (
        &[
            "wreplay",
            "hunt",
            "m",
            "p",
            "--quiet",
            "--threads",
            "--runs",
            "2",
        ],
        "",
    ),
];

/// What the program does on these words, where nothing fails.
fn run_on_words<T: Threads + Wait + Sync>(threads: &T, alloc: Global, words: &[&str]) -> Done {
    let case = Case {
        words,
        lines: "",
        read_fails_at: None,
        most: 65536,
        write_fails_at: None,
    };
    run_on(threads, alloc, case)
}

#[test]
fn tells_how_far_a_hunt_is(rt: HostRuntime) {
    let rows = FAR;
    for (words, far) in rows {
        let done = run_on_words(&rt, rt.alloc(), *words);
        assert!(rt; done.far.as_slice() == far.as_bytes(), "{far}");
    }
}

/// Runs at once are counted together, each once.
#[test]
fn tells_how_far_runs_at_once_are(rt: HostRuntime) -> Result<(), Fail> {
    let words = [
        "wreplay", "hunt", "m", "p", "--list", "--runs", "40", "--jobs", "4",
    ];
    let done = run_on_words(&rt, rt.alloc(), words.as_slice());
    let far = str::from_utf8(&done.far).unwrap_or("not UTF-8");
    for made in 1..=40u32 {
        let line = format!(in rt.alloc(); "\n{made} of 40 runs made={made}\n")?;
        assert!(rt; far.contains(line.as_str()), "{line}");
    }
    assert!(rt; far.lines().count() == 42 && far.ends_with("\nthe hunt is over\n"));
    Ok(())
}

/// The runs that make a schedule small are counted apart.
#[test]
fn tells_how_far_a_schedule_is_made_small(rt: HostRuntime) {
    let words = ["wreplay", "hunt", "w", "a", "--shrink", "--jobs", "1"];
    let done = run_on_words(&rt, rt.alloc(), words.as_slice());
    let far = str::from_utf8(&done.far).unwrap_or("not UTF-8");
    let tried = "\n1 of 1000 runs, and 1 to make the schedule small made=2\n";
    assert!(rt; far.contains(tried) && far.ends_with("\nthe hunt is over\n"));
}
