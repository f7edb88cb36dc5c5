//! The commands and their arguments.

ghost use Rattle.std.specs.Prelude.{◌≡◌};
ghost use Rattle.clap.specs.Words.{new_app};
ghost use Rattle.command_words.specs.Tables.{name_for, app_for, with_rules};

use crate::help;

/// A command.
#[derive(Clone, Copy)]
pub(crate) enum Subcommand {
    Check,
    Record,
    Hunt,
    Replay,
    View,
    Trace,
    Debug,
    Adapter,
    Gather,
    Chart,
}

/// The commands, in the order of the help.
pub(crate) static SUBCOMMANDS: &[Subcommand] = &[
    Subcommand::Check,
    Subcommand::Record,
    Subcommand::Hunt,
    Subcommand::Replay,
    Subcommand::View,
    Subcommand::Trace,
    Subcommand::Debug,
    Subcommand::Adapter,
    Subcommand::Gather,
    Subcommand::Chart,
];

/// What an argument is, and what it takes.
#[derive(Clone, Copy)]
pub(crate) enum Takes {
    /// A file that has to be named.
    File,
    /// `--NAME VALUE`: what the value is called.
    Value(&'static str),
    /// `--NAME VALUE`, with a default: what the value is called, and the default.
    ValueOr(&'static str, &'static str),
    /// `--NAME VALUE`, any number of times: what a value is called.
    Values(&'static str),
    /// `--NAME`.
    Nothing,
}

/// An argument of a command.
#[derive(Clone, Copy)]
pub(crate) struct ArgumentRow {
    pub(crate) name: &'static str,
    pub(crate) takes: Takes,
    pub(crate) help: &'static str,
}

const MODULE: ArgumentRow = ArgumentRow {
    name: "MODULE",
    takes: Takes::File,
    help: "The file of the module",
};

const PLAN: ArgumentRow = ArgumentRow {
    name: "PLAN",
    takes: Takes::File,
    help: "The file of the plan",
};

const PIECES: ArgumentRow = ArgumentRow {
    name: "PIECES",
    takes: Takes::File,
    help: "The file of the piece lines",
};

const ORDER: ArgumentRow = ArgumentRow {
    name: "order",
    takes: Takes::Value("LIST"),
    help: "Threads that take turns first: numbers joined by commas",
};

const STEPS: ArgumentRow = ArgumentRow {
    name: "steps",
    takes: Takes::ValueOr("N", "1000000"),
    help: "The most steps of a thread, to 1000000000",
};

const SIZE: ArgumentRow = ArgumentRow {
    name: "size",
    takes: Takes::ValueOr("N", "4096"),
    help: "The most entries of a piece, 1 to 4096",
};

const BLOCK: ArgumentRow = ArgumentRow {
    name: "block",
    takes: Takes::ValueOr("N", "64"),
    help: "The bytes of a block: 64, 128, .. 4096",
};

const WHY: ArgumentRow = ArgumentRow {
    name: "why",
    takes: Takes::Nothing,
    help: "Say in a second line of standard error why it is refused",
};

/// The arguments of `check`.
static OF_CHECK: &[ArgumentRow] = &[
    MODULE,
    ArgumentRow {
        name: "threads",
        takes: Takes::Value("PLAN"),
        help: "Hint at what may go wrong with the threads of the plan in PLAN",
    },
    WHY,
];

/// The arguments of `record`.
static OF_RECORD: &[ArgumentRow] = &[
    MODULE,
    PLAN,
    ArgumentRow {
        name: "schedule",
        takes: Takes::Value("FILE"),
        help: "Run the threads by the schedule in FILE",
    },
    ArgumentRow {
        name: "threads",
        takes: Takes::Nothing,
        help: "Run the threads at once, as the system lets them",
    },
    ArgumentRow {
        name: "random",
        takes: Takes::Nothing,
        help: "Run the threads by the random schedule that --run draws",
    },
    ArgumentRow {
        name: "timeouts",
        takes: Takes::ValueOr("WHEN", "never"),
        help: "With --threads or --random: when waits time out, never or now",
    },
    ArgumentRow {
        name: "run",
        takes: Takes::ValueOr("N", "0"),
        help: "The number of the run, below 2^64",
    },
    STEPS,
    SIZE,
    BLOCK,
    ArgumentRow {
        name: "report",
        takes: Takes::Nothing,
        help: "Write what the run came to",
    },
    ArgumentRow {
        name: "names",
        takes: Takes::Nothing,
        help: "With --report: say where each thread trapped, or waits",
    },
    ArgumentRow {
        name: "offsets",
        takes: Takes::Nothing,
        help: "With --report: say it with the offset of each instruction",
    },
    WHY,
];

/// The arguments of `hunt`.
static OF_HUNT: &[ArgumentRow] = &[
    MODULE,
    PLAN,
    ArgumentRow {
        name: "until",
        takes: Takes::Values("TEXT"),
        help: "Catch a run of whose report a line begins with TEXT",
    },
    ArgumentRow {
        name: "unless",
        takes: Takes::Values("TEXT"),
        help: "Catch a run of whose report no line begins with TEXT",
    },
    ArgumentRow {
        name: "from",
        takes: Takes::ValueOr("N", "0"),
        help: "The number of the first run",
    },
    ArgumentRow {
        name: "runs",
        takes: Takes::ValueOr("N", "1000"),
        help: "How many runs, 1 or more",
    },
    ArgumentRow {
        name: "jobs",
        takes: Takes::Value("N"),
        help: "How many runs at once, 1 to 256 [default: the processors]",
    },
    ArgumentRow {
        name: "threads",
        takes: Takes::Nothing,
        help: "Make the runs by threads at once, one after the other",
    },
    ArgumentRow {
        name: "timeouts",
        takes: Takes::ValueOr("WHEN", "never"),
        help: "When waits time out, never or now",
    },
    STEPS,
    SIZE,
    BLOCK,
    ArgumentRow {
        name: "shrink",
        takes: Takes::Nothing,
        help: "Make the schedule of the caught run small",
    },
    ArgumentRow {
        name: "print",
        takes: Takes::ValueOr("WHAT", "pieces"),
        help: "Write the pieces or the schedule of the caught run",
    },
    ArgumentRow {
        name: "list",
        takes: Takes::Nothing,
        help: "Write a line for each run, and catch none",
    },
    ArgumentRow {
        name: "quiet",
        takes: Takes::Nothing,
        help: "Show nothing on a terminal of how far the hunt is",
    },
    WHY,
];

/// The arguments of `replay`.
static OF_REPLAY: &[ArgumentRow] = &[
    MODULE,
    PLAN,
    PIECES,
    ORDER,
    ArgumentRow {
        name: "threads",
        takes: Takes::Nothing,
        help: "Replay the threads at once, as the system lets them",
    },
    ArgumentRow {
        name: "names",
        takes: Takes::Nothing,
        help: "Say where each thread trapped, or waits",
    },
    ArgumentRow {
        name: "offsets",
        takes: Takes::Nothing,
        help: "Say it with the offset of each instruction in the module",
    },
    WHY,
];

/// The arguments of `view`.
static OF_VIEW: &[ArgumentRow] = &[
    MODULE,
    PLAN,
    PIECES,
    ORDER,
    ArgumentRow {
        name: "place",
        takes: Takes::Value("T.P"),
        help: "Stop where thread T has made P accesses",
    },
    ArgumentRow {
        name: "step",
        takes: Takes::Value("T.N"),
        help: "Stop where thread T has made N steps",
    },
    ArgumentRow {
        name: "write",
        takes: Takes::Value("FROM+LEN"),
        help: "Stop behind a write of a block that has one of LEN bytes from FROM on",
    },
    ArgumentRow {
        name: "from",
        takes: Takes::ValueOr("N", "0"),
        help: "The first byte that is shown",
    },
    ArgumentRow {
        name: "len",
        takes: Takes::ValueOr("N", "64"),
        help: "How many bytes are shown",
    },
    ArgumentRow {
        name: "names",
        takes: Takes::Nothing,
        help: "Say in which functions each thread stands",
    },
    ArgumentRow {
        name: "offsets",
        takes: Takes::Nothing,
        help: "Say it with the offset of each instruction in the module",
    },
    WHY,
];

/// The arguments of `trace`.
static OF_TRACE: &[ArgumentRow] = &[
    MODULE,
    PLAN,
    PIECES,
    ORDER,
    ArgumentRow {
        name: "only",
        takes: Takes::Value("LIST"),
        help: "Write lines of these threads alone: numbers joined by commas",
    },
    ArgumentRow {
        name: "bytes",
        takes: Takes::Values("FROM+LEN"),
        help: "Write lines of events alone that touch these bytes; may be repeated",
    },
    ArgumentRow {
        name: "from",
        takes: Takes::Value("T.P"),
        help: "Write lines from the event at place P of thread T on",
    },
    ArgumentRow {
        name: "to",
        takes: Takes::Value("T.P"),
        help: "Stop behind the event at place P of thread T",
    },
    ArgumentRow {
        name: "offsets",
        takes: Takes::Nothing,
        help: "Write the offset of each instruction in the module beside it",
    },
    WHY,
];

/// The arguments of `debug`.
static OF_DEBUG: &[ArgumentRow] = &[MODULE, PLAN, PIECES, ORDER, WHY];

/// The arguments of `dap`.
static OF_ADAPTER: &[ArgumentRow] = &[WHY];

const SKIP: ArgumentRow = ArgumentRow {
    name: "skip",
    takes: Takes::Nothing,
    help: "Pass over lines that cannot be joined, and count them",
};

/// The arguments of `gather`.
static OF_GATHER: &[ArgumentRow] = &[
    SKIP,
    ArgumentRow {
        name: "objects",
        takes: Takes::Nothing,
        help: "Say behind each entry which bytes its objects are",
    },
    ArgumentRow {
        name: "contradictions",
        takes: Takes::Nothing,
        help: "Say behind the counts what contradicts itself, a line each",
    },
    ArgumentRow {
        name: "by-object",
        takes: Takes::Nothing,
        help: "List the versions of each object, with who made and who read each",
    },
    ArgumentRow {
        name: "only",
        takes: Takes::Value("LIST"),
        help: "With --by-object: list these objects alone, as 0,3",
    },
    ArgumentRow {
        name: "shared",
        takes: Takes::Nothing,
        help: "With --by-object: list those alone that threads share, one writing",
    },
    WHY,
];

/// The arguments of `chart`.
static OF_CHART: &[ArgumentRow] = &[
    SKIP,
    ArgumentRow {
        name: "only",
        takes: Takes::Value("LIST"),
        help: "Draw accesses of these objects alone, as 0,3",
    },
    ArgumentRow {
        name: "from",
        takes: Takes::Value("T.P"),
        help: "Draw from the access at place P of thread T on",
    },
    ArgumentRow {
        name: "to",
        takes: Takes::Value("T.P"),
        help: "Draw up to the access at place P of thread T",
    },
    WHY,
];

impl Subcommand {
    /// What it is called.
    pub(crate) fn name<'a>(self) -> &'a str
        ensures { result.now ≡ name_for self }
    {
        match self {
            Subcommand::Check => "check",
            Subcommand::Record => "record",
            Subcommand::Hunt => "hunt",
            Subcommand::Replay => "replay",
            Subcommand::View => "view",
            Subcommand::Trace => "trace",
            Subcommand::Debug => "debug",
            Subcommand::Adapter => "dap",
            Subcommand::Gather => "gather",
            Subcommand::Chart => "chart",
        }
    }

    /// What it does, in a line.
    pub(crate) fn about<'a>(self) -> &'a str {
        match self {
            Subcommand::Check => "Decode and validate a module, and summarize it",
            Subcommand::Record => {
                "Run threads by a schedule, at once or at random, and write the log"
            }
            Subcommand::Hunt => "Make random runs until one shows a fault, and write its log",
            Subcommand::Replay => "Make a recorded run again, and write what it came to",
            Subcommand::View => "Stop a replay where it matters, and show it",
            Subcommand::Trace => "Replay a run, and write a line for each access",
            Subcommand::Debug => "Go forward and back in a recorded run",
            Subcommand::Adapter => "Do so from an editor, by the Debug Adapter Protocol",
            Subcommand::Gather => "Join piece lines into one log, and list it",
            Subcommand::Chart => "Join piece lines into one log, and draw its accesses",
        }
    }

    /// The text at the top of its help.
    pub(crate) fn long_about<'a>(self) -> &'a str {
        match self {
            Subcommand::Check => help::CHECK_ABOUT,
            Subcommand::Record => help::RECORD_ABOUT,
            Subcommand::Hunt => help::HUNT_ABOUT,
            Subcommand::Replay => help::REPLAY_ABOUT,
            Subcommand::View => help::VIEW_ABOUT,
            Subcommand::Trace => help::TRACE_ABOUT,
            Subcommand::Debug => help::DEBUG_ABOUT,
            Subcommand::Adapter => help::ADAPTER_ABOUT,
            Subcommand::Gather => help::GATHER_ABOUT,
            Subcommand::Chart => help::CHART_ABOUT,
        }
    }

    /// The text at the end of its help.
    pub(crate) fn after_help<'a>(self) -> &'a str {
        match self {
            Subcommand::Check => help::CHECK_REFUSALS,
            Subcommand::Record => help::RECORD_REFUSALS,
            Subcommand::Hunt => help::HUNT_REFUSALS,
            Subcommand::Replay => help::REPLAY_REFUSALS,
            Subcommand::View => help::VIEW_REFUSALS,
            Subcommand::Trace => help::TRACE_REFUSALS,
            Subcommand::Debug => help::DEBUG_REFUSALS,
            Subcommand::Adapter => help::ADAPTER_REFUSALS,
            Subcommand::Gather => help::GATHER_REFUSALS,
            Subcommand::Chart => help::CHART_REFUSALS,
        }
    }

    /// Its arguments.
    pub(crate) fn arguments(self) -> &'static [ArgumentRow]
        ensures { with_rules (new_app (name_for self)) result.now ≡ app_for self }
    {
        match self {
            Subcommand::Check => OF_CHECK,
            Subcommand::Record => OF_RECORD,
            Subcommand::Hunt => OF_HUNT,
            Subcommand::Replay => OF_REPLAY,
            Subcommand::View => OF_VIEW,
            Subcommand::Trace => OF_TRACE,
            Subcommand::Debug => OF_DEBUG,
            Subcommand::Adapter => OF_ADAPTER,
            Subcommand::Gather => OF_GATHER,
            Subcommand::Chart => OF_CHART,
        }
    }
}
