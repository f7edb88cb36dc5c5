//! The pieces of a recorded run, their lines, and the log that pieces of one run make.
//!
//! `pieces` cuts the log of a run into pieces of it (`pieces`, `of_log`), `write_lines` writes just their lines, or a
//! beginning (`taken`, `begun`). Laws: the joined log of some is below the run's (`joined_logs_are_below`), of pieces
//! that cover it the run's (`covering_pieces_make_the_log`).
#![tactic(auto)]

mod cutting;
mod fault;
mod laws;
mod line_room;
mod line_writing;

pub use byte_streams::{Failed, Sink};
pub use cutting::pieces;
pub use fault::PiecesFault;
pub use laws::{
    covering_pieces_make_the_log, cuts_are_pieces, joined_logs_are_below, recorded_runs_keep_rules,
    whole_logs_are_complete,
};
pub use line_room::LineRoom;
pub use line_writing::write_lines;
pub use log_pieces::Piece;
