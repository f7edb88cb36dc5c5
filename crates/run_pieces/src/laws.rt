//! Laws of the pieces of a log.

ghost use Rattle.run_pieces.specs.Laws.{JoinedLogsAreBelow, CoveringPiecesMakeTheLog, CutsArePieces, RecordedRunsKeepRules, WholeLogsAreComplete};

use rw_objects::{Machine, ObjectSpace};

/// The joined log of pieces of a log knows no more than that log.
pub fn joined_logs_are_below()
    ensures { JoinedLogsAreBelow }
{}

/// The joined log of pieces that cover a log is that log.
pub fn covering_pieces_make_the_log()
    ensures { CoveringPiecesMakeTheLog }
{}

/// A gathered log is the whole log of a run of so many threads, as its `complete` answers, exactly where it is complete
/// in the sense of the laws of replay.
pub fn whole_logs_are_complete()
    ensures { WholeLogsAreComplete }
{}

/// What a recorded run is cut into are pieces of its log, whose joined log is that log.
pub fn cuts_are_pieces()
    ensures { CutsArePieces }
{}

/// The recorded log of a run over no more objects than the profile has keeps the rules of pieces.
pub fn recorded_runs_keep_rules<M: Machine<S>, S: ObjectSpace>()
    ensures { RecordedRunsKeepRules S.meaning M.code }
{}
