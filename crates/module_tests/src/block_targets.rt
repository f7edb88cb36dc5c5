//! Where blocks end, and where their else is.

use std::test::Fail;
use validator::{Target, Targets};
use wasm_types::{BlockKind, Instr, Plain};

const BLOCK: Instr = Instr::Block(BlockKind::Block, None);

const LOOP: Instr = Instr::Block(BlockKind::Loop, None);

const IF: Instr = Instr::Block(BlockKind::If, None);

const ELSE: Instr = Instr::Plain(Plain::Else);

const END: Instr = Instr::Plain(Plain::End);

const NOP: Instr = Instr::Plain(Plain::Nop);

const TO_5: Option<Target> = Some(Target {
    else_at: None,
    end: 5,
});

const TO_6: Option<Target> = Some(Target {
    else_at: None,
    end: 6,
});

const TO_9: Option<Target> = Some(Target {
    else_at: None,
    end: 9,
});

const TO_10: Option<Target> = Some(Target {
    else_at: None,
    end: 10,
});

static CODE: [Instr; 13] = [
    IF, BLOCK, IF, ELSE, NOP, END, END, ELSE, LOOP, END, END, NOP, END,
];

static TARGETS: [Option<Target>; 13] = [
    Some(Target {
        else_at: Some(7),
        end: 10,
    }),
    TO_6,
    Some(Target {
        else_at: Some(3),
        end: 5,
    }),
    TO_5,
    None,
    None,
    None,
    TO_10,
    TO_9,
    None,
    None,
    None,
    None,
];

/// Blocks that do not nest.
static LISTS: [&[Instr]; 9] = [
    &[],
    &[NOP],
    &[END, NOP],
    &[END, END],
    &[BLOCK, END],
    &[ELSE, END],
    &[BLOCK, ELSE, END, END],
    &[IF, ELSE, ELSE, END, END],
    &[IF, BLOCK, ELSE, END, END, END],
];

#[test]
fn blocks_that_nest_have_their_else_and_their_end(rt: HostRuntime) -> Result<(), Fail> {
    for code in &LISTS {
        assert!(rt; Targets::new(rt.alloc(), code)?.is_none());
    }
    let Some(targets) = Targets::new(rt.alloc(), &CODE)? else {
        return Err(Fail::new("blocks that nest"));
    };
    for (at, want) in (0u32..).zip(&TARGETS) {
        assert!(rt; targets.after(at) == *want, "at {at}");
    }
    assert!(rt; targets.after(13).is_none());
    assert!(rt; targets.after(u32::MAX).is_none());
    Ok(())
}
