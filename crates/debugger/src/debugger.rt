//! A debugger of the replay of a gathered log.

use crate::opening::WasmSession;
use crate::watching::WatchedNumber;
use debug_views::PlaceWriter;
use replay_gate::Break;
use wasm_types::Block;
use wasm_world::{CodePlace, Valid};

/// A debugger of the replay of a gathered log of a module and a plan. Contracts see by `at_of` where it stands.
#[derive(Drop)]
pub struct Debugger<'a> {
    pub(crate) valid: &'a Valid,
    pub(crate) session: WasmSession<'a>,
    pub(crate) places: PlaceWriter<'a>,
    pub(crate) block: Block,
    pub(crate) breaks: Vec<Break>,
    /// The instructions at which there are breaks.
    pub(crate) instructions: Vec<CodePlace>,
    /// The numbers in memory whose changes are breaks.
    pub(crate) watches: Vec<WatchedNumber>,
}
