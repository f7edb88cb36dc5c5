//! The laws of ways, and of runs up to a test.

ghost use Rattle.replay_session.specs.OneWay.{WaysLeadOnce, WaysCountSteps, FirstStepsLead};
ghost use Rattle.replay_session.specs.Pauses.{PausesAsStops};
ghost use Rattle.replay_session.specs.Writers.{VersionsHaveOneWriter};

use rw_objects::{Machine, ObjectSpace};

/// A way leads from a world to one other.
pub fn ways_lead_once<M: Machine<S>, S: ObjectSpace>()
    ensures { WaysLeadOnce S.meaning M.code }
{}

/// A way has as many steps as all threads together make on it.
pub fn ways_count_steps<M: Machine<S>, S: ObjectSpace>()
    ensures { WaysCountSteps S.meaning M.code }
{}

/// Where a way leads from a world to another, so do its first steps.
pub fn first_steps_lead<M: Machine<S>, S: ObjectSpace>()
    ensures { FirstStepsLead S.meaning M.code }
{}

/// At every point of every replay, whoever made the log, no two of the events that the threads made wrote one version of
/// an object, and none wrote a version that the object has not yet.
pub fn versions_have_one_writer<M: Machine<S>, S: ObjectSpace>()
    ensures { VersionsHaveOneWriter S.meaning M.code }
{}

/// Where a test holds in no world, rounds up to a break or this test pause just where they stop at the breaks.
pub fn pauses_as_stops<M: Machine<S>, S: ObjectSpace>()
    ensures { PausesAsStops S.meaning M.code }
{}
