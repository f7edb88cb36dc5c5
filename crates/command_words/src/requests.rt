//! What command lines ask for.

ghost use Rattle.std.specs.Prelude.{◌+◌, ◌<◌, ◌^◌};

use wasm_types::{Block, ByteRange};

/// How the threads of a recording go on.
#[derive(Clone, Copy)]
pub enum RecordOrder<'a> {
    /// By the schedule in the file at this path.
    Schedule(&'a str),
    /// At once, as threads of the system; waits that have a time-out time out at once, or never.
    Threads { times_out: bool },
    /// By a schedule that the number of the run draws; time-outs of waits are drawn too, or none.
    Random { times_out: bool },
}

/// What is written of a recording.
#[derive(Clone, Copy, Debug, PartialEq, Eq)]
pub enum RecordForm {
    /// Its pieces.
    Pieces,
    /// Its report, whether with the functions in which threads stand that have not returned, and whether with the
    /// offsets of instructions in them.
    Report { names: bool, offsets: bool },
}

/// A recording: the files of the module and the plan, how the threads go on, and how it is made and written.
#[derive(Drop)]
pub struct RecordRequest<'a> {
    pub module: &'a str,
    pub plan: &'a str,
    pub order: RecordOrder<'a>,
    /// The number of the run.
    pub run: u64,
    /// The most steps that a thread makes.
    pub steps: u32,
    /// The most entries of a piece.
    pub size: u32,
    pub block: Block,
    pub form: RecordForm,
}

/// Numbers of runs that follow one another, all below 2^64 - 1.
#[derive(Clone, Copy, Debug, PartialEq, Eq)]
pub struct RunRange {
    /// The first number.
    pub from: u64,
    /// How many numbers.
    pub count: u64,
    ghost fits: { from + count < 2 ^ 64 },
}

/// What a hunt writes.
#[derive(Clone, Copy, Debug, PartialEq, Eq)]
pub enum HuntForm {
    /// The pieces of the run that is caught.
    Pieces,
    /// The schedule of the run that is caught.
    Schedule,
    /// A line for each run, and no run is caught.
    List,
}

/// A hunt: the files of the module and the plan, which runs are looked at, what of their reports shows one that is
/// caught, and how they are made and written.
#[derive(Drop)]
pub struct HuntRequest<'a> {
    pub module: &'a str,
    pub plan: &'a str,
    /// A run is caught where a line of its report begins with one of these.
    pub until: Vec<&'a str>,
    /// A run is caught where no line of its report begins with one of these.
    pub unless: Vec<&'a str>,
    /// The numbers of the runs.
    pub range: RunRange,
    /// How many runs are made at once, from 1 to 256; as many as there are processors, where none is named.
    pub jobs: Option<u32>,
    /// Whether time-outs of waits are drawn, too.
    pub times_out: bool,
    /// The most steps that a thread makes.
    pub steps: u32,
    /// The most entries of a piece.
    pub size: u32,
    pub block: Block,
    /// Whether the runs are made by threads at once, one run after the other, in the place of those that numbers draw;
    /// then waits that have a time-out time out at once, or never.
    pub by_threads: bool,
    /// Whether the schedule of the run that is caught is made small.
    pub shrinks: bool,
    pub form: HuntForm,
    /// Whether nothing is said of how far the hunt is while it makes runs.
    pub quiet: bool,
}

/// A replay: the files of the module, the plan and the piece lines, and the threads that take turns first.
#[derive(Drop)]
pub struct ReplayRequest<'a> {
    pub module: &'a str,
    pub plan: &'a str,
    pub pieces: &'a str,
    pub order: Vec<u32>,
}

/// So many events or steps of a thread.
#[derive(Clone, Copy, Debug, PartialEq, Eq)]
pub struct ThreadCount {
    pub thread: u32,
    pub count: u32,
}

/// A view of a replay: where it stops, and which bytes are shown.
#[derive(Drop)]
pub struct ViewRequest<'a> {
    pub replay: ReplayRequest<'a>,
    /// Stop where the thread has made so many events.
    pub place: Option<ThreadCount>,
    /// Stop where the thread has made so many steps.
    pub step: Option<ThreadCount>,
    /// Stop behind a write of a block that holds one of these bytes.
    pub write: Option<ByteRange>,
    /// The bytes that are shown.
    pub range: ByteRange,
    /// Whether the view says in which functions each thread stands.
    pub names: bool,
    /// Whether it says that with the offsets of instructions.
    pub offsets: bool,
}

/// A trace of a replay: which of its events have a line.
#[derive(Drop)]
pub struct TraceRequest<'a> {
    pub replay: ReplayRequest<'a>,
    /// Events of these threads; of all where none is named.
    pub only: Vec<u32>,
    /// Events that touch a byte of one of these ranges; all where there is none.
    pub bytes: Vec<ByteRange>,
    /// From this event of a thread on, by its place.
    pub from: Option<ThreadCount>,
    /// Up to this one.
    pub to: Option<ThreadCount>,
    /// Whether instructions have their offsets beside them.
    pub offsets: bool,
}

/// What is written of a log.
#[derive(Drop)]
pub enum GatherForm {
    /// What each thread did, whether with the bytes that each object is, and whether with what contradicts itself.
    ByThread {
        objects: bool,
        contradictions: bool,
    },
    /// The versions of objects: of these alone, where any is named, and perhaps of those alone that threads share.
    ByObject {
        only: Vec<u32>,
        shared: bool,
    },
    /// A picture of its accesses: of those that touch one of these objects, where any is named, from the event of a
    /// thread at a place on, and up to one.
    Chart {
        only: Vec<u32>,
        from: Option<ThreadCount>,
        to: Option<ThreadCount>,
    },
}

/// What a command line asks for.
#[derive(Drop)]
pub enum Request<'a> {
    /// What is written of the log of piece lines, and whether those that cannot be joined are passed over.
    Gather {
        skips: bool,
        form: GatherForm,
    },
    /// The summary of the module in a file, and hints at what may go wrong with the threads of the plan in another file,
    /// if that is named.
    Check {
        module: &'a str,
        plan: Option<&'a str>,
    },
    /// The pieces or the report of a recording.
    Record(RecordRequest<'a>),
    /// The pieces or the schedule of the first run that is caught, or a line for each run.
    Hunt(HuntRequest<'a>),
    /// The report of a replay, whose threads take turns, or replay at once, as threads of the system; whether with the
    /// functions in which threads stand that have not returned, and whether with the offsets of instructions in them.
    Replay {
        replay: ReplayRequest<'a>,
        by_threads: bool,
        names: bool,
        offsets: bool,
    },
    /// A view of a replay that stops.
    View(ViewRequest<'a>),
    /// A trace of a replay, a line for each event.
    Trace(TraceRequest<'a>),
    /// A replay that goes forward and back as commands say, behind the turns of its order.
    Debug(ReplayRequest<'a>),
    /// The exchange of a debug adapter, whose client names the files.
    Adapter,
}
