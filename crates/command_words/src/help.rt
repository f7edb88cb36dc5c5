//! The texts of help.

/// What the program does, and how runs are recorded and gathered.
pub(crate) const LONG_ABOUT: &str = "\
wreplay records a run of a threaded WebAssembly module, so that a fault that
shows once can be replayed.

A recorder logs, for each access of shared memory, only which version of each
object it met, and writes the log in pieces: lines of hexadecimal digits. The
pieces of one run may come from several machines, in any order, with repeats,
and some may be lost. `wreplay gather` joins them into the one log that they
claim, and `wreplay chart` draws that. `wreplay replay` makes the run again,
`wreplay view` stops it where a thread has come so far, or where a byte is
written, `wreplay trace` writes a line for each access, and `wreplay debug` goes
forward and back in it.";

/// How the program ends.
pub(crate) const STATUSES: &str = "\
Exit status:
  0  done
  1  refused: standard error has one line, `refused`, a number, a name, and
     perhaps numbers that say where; with --why a second line says in words
     which file it is, where, and why
  2  the command line was not understood

Example:
  wreplay record examples/lost.wasm examples/lost.plan \\
      --schedule examples/lost.schedule > pieces.txt";

/// What `gather` reads and writes.
pub(crate) const GATHER_ABOUT: &str = "\
Reads piece lines from standard input and writes the listing of their joined log
to standard output. The order of the lines and repeats make no difference. The
first line names the run.

With --skip, lines that are no piece lines, and piece lines of another run than
the first piece line's, are passed over. Standard error then has the line
`skipped B F`: B lines were no piece lines, F lines were of other runs.

The listing has the run's key, then by rising thread its items by place and its
end, then four counts:

  run KEY:RUN
  0.0 access w1@0/0      thread 0, place 0: a write of object 1, which had
                         version 0 and no reads
  0.1 clash              two pieces claim place 1 differently
  0 end steps=8 places=2 i32 1
  ends 1 missing 0 strays 0 clashes 1

What was done at a place is `access`, or `woken` where a thread that waited went
on because it was notified, or `timedout` where its wait timed out. Behind it
stand the objects that it touched: `rO@V` read object O and found version V;
`wO@V/R` wrote O, and found version V and R reads of that version. Object 0 is
the length of the memory; object 1 + 2B is block B of its bytes, and object
2 + 2B the queue of those who wait in that block. An end says how many steps and
places the thread had, and what it came to: its result or `none`, a trap,
`waiting` where it was not woken, or `running` where it could have gone on.

ends     threads whose end is known
missing  places below a known end that no piece claims
strays   items at or past a known end
clashes  items and ends that two pieces claim differently

With --objects each access says behind its objects what they are: the bytes of
a block, the waiters of a block, or the length of the memory, as in

  0.0 access w1@0/0; 1: bytes 0..63

With --contradictions lines behind the counts say what no one run can have:

  clash 0.1              two pieces claim place 1 of thread 0 differently
  clash 0 end            two pieces claim the end of thread 0 differently
  double w1@0 0.0 1.2    place 0 of thread 0 and place 2 of thread 1 both claim
                         the write of object 1 that found version 0

With --by-object the log is listed by its objects in place of its threads: for
each which bytes it is, and by rising version who made it and who read it, as in

  object 1: bytes 0..63
  1@0 read by 0.0 1.0
  1@1 written by 0.1
  1@2 written by 1.1 unread read by 2.0

A write is `unread` where its thread had neither read nor made the version that
it wrote over, but for version 0, which no thread made: what another thread
wrote there may be lost. A read-modify-write counts as a write alone, as the log
does not tell it from a store. --only lists these objects alone, and --shared
those alone that two threads or more touched, one of them by a write.

A whole log has as many ends as the run has threads, and 0 in the other counts.";

/// How `gather` refuses.
pub(crate) const GATHER_REFUSALS: &str = "\
Refusals (exit status 1):
  refused 41 OtherRun N    line N is of another run than the lines before it,
                           without --skip
  refused 42 NoMemory      the log does not fit into memory
  refused 43 BadLine N     line N is no piece line, without --skip
  refused 44 SourceFailed  reading failed; nothing was written
  refused 45 SinkFailed    writing failed; a beginning of the listing was
                           written

Example:
  wreplay gather < examples/pieces.txt
  wreplay gather --by-object --shared < examples/lost.pieces";

/// What `chart` reads and writes.
pub(crate) const CHART_ABOUT: &str = "\
Reads piece lines from standard input, as `wreplay gather` does, and writes a
picture of their joined log to standard output, as SVG, which browsers show: a
column for each thread, and downwards its accesses, one in each line, in an
order that the versions allow. At each access stands what the log says of it, as
in

  1.12 write 33@6        place 12 of thread 1: the write that made version 6
                         of object 33
  0.11 read 33@5         a read of version 5

A full dot is a write, an empty one reads alone. An arrow leads from a write to
each access of another thread that read the version it made, or wrote over it. A
write is red, with the word `unread`, where its thread had neither read nor made
the version that it wrote over, but for version 0, which no thread made.

Accesses that no order allows, since entries are missing or contradict each
other, are counted at the bottom. --from and --to leave out what stands above
the line of an access, or below it; --only leaves out accesses that touch none
of these objects.";

/// How `chart` refuses.
pub(crate) const CHART_REFUSALS: &str = "\
Refusals (exit status 1):
  refused 41 to 44         the piece lines, as `wreplay gather` refuses them
  refused 42 NoMemory      the log or its picture does not fit into memory
  refused 45 SinkFailed    writing failed; a beginning of the picture was
                           written

Example:
  wreplay chart < examples/lost.pieces > lost.svg";

/// What `check` reads and writes.
pub(crate) const CHECK_ABOUT: &str = "\
Reads a WebAssembly module and says whether it can be recorded: its bytes are of
the integer profile, within the limits, and it is well typed. Then it writes the
summary of the module:

  types 1
  functions 1
  table none
  memory 1 1 shared      the minimum and the maximum in pages; `-` where there
                         is no maximum
  globals 0
  exports 1
  start none
  valid

The integer profile is WebAssembly Core 1.0 without floats, with the atomic
instructions of the threads proposal and the five sign extensions. Of imports it
has one, a memory.

With --threads the plan in PLAN is read as `wreplay record` reads it, and behind
`valid` stand hints at what goes wrong now and then, and without a word, where
its threads run. They refuse nothing, and there may be none.

  warning: threads 0 1 begin with the same value of global 0, which ..

Each thread has globals of its own, and they begin alike. C keeps its stack
pointer in a mutable global of type i32, so threads share one stack unless each
sets the pointer to a stack of its own first. Named are the threads in whose
function an instruction reads such a global, or calls, before the first
`global.set` of it.

  warning: the memory is shared, and no instruction is atomic

A compiler without its option for threads (clang: -matomics) makes plain loads
and stores of atomic ones.";

/// How `check` refuses.
pub(crate) const CHECK_REFUSALS: &str = "\
Refusals (exit status 1):
  refused 1 Refused N        the bytes spell no module of the profile, from
                             byte N on
  refused 2 TooLarge         more than 1,048,576 bytes, 256 pages or 4,096
                             elements at first, or 1,024 locals
  refused 3 NoMemory         the module does not fit into memory
  refused 11 Invalid F I     function F is not well typed at instruction I,
                             both numbered from 0
  refused 11 Invalid module  a rule outside the functions is broken
  refused 12 NoMemory        the types do not fit into memory
  refused 13 to 17           PLAN, as `wreplay record` refuses it
  refused 23 NoMemory        a file or the text does not fit into memory
  refused 44 SourceFailed    a file can't be read
  refused 45 SinkFailed      writing failed; a beginning was written

Example:
  wreplay check examples/counter.wasm
  wreplay check examples/lost.wasm --threads examples/lost.plan";

/// What `record` reads and writes.
pub(crate) const RECORD_ABOUT: &str = "\
Runs the threads of a plan, by a schedule, at once or at random, and writes the
log of that run as lines of pieces, which `wreplay gather` lists and `wreplay
replay` replays. With --report it writes what the run came to: the pages of
memory, each 16 bytes that are not all zero, and how each thread ended.

MODULE is a WebAssembly module, as `wreplay check` takes it. PLAN says which
exported functions run as threads, numbered from 0, with their arguments:

  wreplay plan 1
  thread add
  thread add

The schedule says in which order the threads go on:

  go 0 3    thread 0 makes 3 steps; a step is one instruction
  out 1     the wait of thread 1 times out

A step that its thread cannot make is passed over: the thread is done, or sleeps
and was not woken, or made as many steps as --steps lets it.

With --threads each thread of the plan is a thread of the system, and they run
at once: each run may come out otherwise, and each can be replayed. Whatever can
still go on when they have ended goes on. `--timeouts now` lets each wait that
has a time-out time out at once.

With --random the number of the run draws the schedule: which thread goes on,
and for how many accesses, until no thread can go on. The same number makes the
same run on every machine, so a loop over --run tries many schedules, and a run
that shows a fault is named by its number. `--timeouts now` draws time-outs of
waits too.

With --names the report says of each thread that has not returned where it
stands, as `wreplay view --help` says it: where it trapped, or what comes next,
as in

  thread 1 trap 4 out of bounds at put+17 from main+3

With --offsets, which needs no --names, the offset of each instruction in the
bytes of the module stands behind its number: `put+17 0x19e`.

With --why standard error has the line `threads stopped at --steps N: T ..`
where threads T were still running when they had made N steps.";

/// How `record` refuses.
pub(crate) const RECORD_REFUSALS: &str = "\
Refusals (exit status 1), the first of them in this order:
  refused 1, 2, 3, 11, 12          MODULE, as `wreplay check` refuses it
  refused 13 BadLine N             line N is no line of a plan
  refused 14 NoExport N            line N of PLAN names no exported function
  refused 15 WrongArguments N      line N of PLAN has other arguments than its
                                   function takes
  refused 16 NotShared             two threads or more need a shared memory
  refused 17 SegmentOutOfBounds    a segment does not fit the memory or table
  refused 18 BadSchedule N         line N of FILE is no line of a schedule
  refused 31 Empty                 --size is 0
  refused 32 TooMany               --size is above 4096
  refused 12 or 23 NoMemory        the run or its text does not fit into memory
  refused 44 SourceFailed          a file can't be read
  refused 45 SinkFailed            writing failed; a beginning was written

Example:
  wreplay record examples/lost.wasm examples/lost.plan \\
      --schedule examples/lost.schedule > pieces.txt
  wreplay record examples/lost.wasm examples/lost.plan --threads > pieces.txt
  wreplay record examples/lost.wasm examples/lost.plan --random --run 7 --report";

/// What `hunt` makes and writes.
pub(crate) const HUNT_ABOUT: &str = "\
Makes runs of the threads of a plan by random schedules, as `wreplay record
--random` does, until one is caught, and writes the log of that run as lines of
pieces. Standard error says `caught N`, the number of the run, and behind it the
lines of its report that caught it. `wreplay record --random --run N` is the
same run, on every machine.

A run is caught where a line of its report begins with the TEXT of an --until,
or where no line of its report begins with the TEXT of an --unless; with
neither, where a thread trapped, or waits at its end. Lines of a report are

  pages 1                                    the length of the memory
  00000010 0a000000000000000000000000000000  16 bytes that are not all zero
  thread 0 i32 10                            a result
  thread 1 trap 4 out of bounds
  thread 2 waiting                           or none, running

Of the numbers --from on, --runs of them, the least is taken whose run is
caught, whatever --jobs is.

With --shrink the schedule of that run is made small: changes of thread are
taken out as long as the run is still caught, so that few are left; without any
one of the stretches of steps that are left the run is not caught. It is another
run than the number draws, so keep its pieces apart from those of
`wreplay record --random --run N`. With `--print schedule` the schedule is
written in place of the pieces, as `wreplay record --schedule` takes it.

With --threads each run is made by threads at once, as `wreplay record
--threads` does: real threads meet where the machine pleases, and a number is
then only that of the run whose pieces are written.

With --list it catches none, and writes a line for each run: its number, and
what each thread came to, as in

  17 i32 10, i32 10, trap 4 out of bounds

so that other programs can judge what no line alone tells. On many machines,
each takes numbers of its own by --from and --runs, and a run that is caught is
named by its number alone.

Where standard error is a terminal, it shows from two seconds on how many runs
were made, and how many a second, until the hunt is over; --quiet leaves that
out.";

/// How `hunt` refuses.
pub(crate) const HUNT_REFUSALS: &str = "\
Refusals (exit status 1), the first of them in this order:
  refused 1, 2, 3, 11, 12          MODULE, as `wreplay check` refuses it
  refused 12 to 17                 PLAN, as `wreplay record` refuses it
  refused 31 Empty                 --size is 0
  refused 32 TooMany               --size is above 4096
  refused 71 NotCaught             no run of these numbers is caught
  refused 72 TooLong               with --shrink or `--print schedule`: the run
                                   has more than 1,000,000 steps and time-outs
  refused 12 or 23 NoMemory        the runs or a text do not fit into memory
  refused 44 SourceFailed          a file can't be read
  refused 45 SinkFailed            writing failed; a beginning was written

Example:
  wreplay hunt examples/lost.wasm examples/lost.plan \\
      --unless '00000000 02' > pieces.txt
  wreplay hunt examples/lost.wasm examples/lost.plan \\
      --unless '00000000 02' --shrink --print schedule > lost.schedule";

/// What `replay` reads and writes.
pub(crate) const REPLAY_ABOUT: &str = "\
Makes a recorded run again from its log, and writes what it came to: the pages
of memory, each 16 bytes that are not all zero, and how each thread ended.

PIECES has piece lines of one run of MODULE and PLAN, in any order, with
repeats. A file of no bytes is an empty log.

Each thread waits at each access until the objects have the versions that the
log names, so every order gives the same end. --order says which threads take
turns first, one turn for each number; then all threads take turns in rounds.

With --threads each thread of the plan is a thread of the system, and they make
the run again at once. That saves time where threads compute for long between
their accesses and cores are free; beside programs that keep all cores busy it
can take many times as long as a replay in turns. What is written is the same;
where there are several reasons to refuse the replay, it may name another of
them than a replay in turns.

With --names the line of a thread that has not returned ends with where it
stands, as `wreplay view --help` says it: where it trapped, or what comes next,
as in

  thread 1 trap 4 out of bounds at put+17 from main+3

With --offsets, which needs no --names, the offset of each instruction in the
bytes of the module stands behind its number: `put+17 0x19e`.";

/// How `replay` refuses.
pub(crate) const REPLAY_REFUSALS: &str = "\
Refusals (exit status 1), the first of them in this order:
  refused 1, 2, 3, 11, 12      MODULE, as `wreplay check` refuses it
  refused 12 to 17             PLAN, as `wreplay record` refuses it
  refused 41 OtherRun N        line N of PIECES is of another run
  refused 42 NoMemory          the log does not fit into memory
  refused 43 BadLine N         line N of PIECES is no piece line
  refused 51 OtherRun          the log is of another module or plan
  refused 58 OldProfile        the module has no runs of the log's profile
  refused 52 Clash T P         two pieces claim place P of thread T, or its
                               end, differently
  refused 53 Missing T P       no piece claims place P of thread T, or its end
  refused 55 Diverged T P      thread T cannot do what the log says at place P
  refused 56 NoMemory          the replay does not fit into memory
  refused 57 Stuck             no thread can go on, and not all are done
  refused 23 NoMemory          a file or the text does not fit into memory
  refused 44 SourceFailed      a file can't be read
  refused 45 SinkFailed        writing failed; a beginning was written

Example:
  wreplay record examples/lost.wasm examples/lost.plan \\
      --schedule examples/lost.schedule > pieces.txt
  wreplay replay examples/lost.wasm examples/lost.plan pieces.txt --order 1,0,1
  wreplay replay examples/lost.wasm examples/lost.plan pieces.txt --threads";

/// What `view` reads and writes.
pub(crate) const VIEW_ABOUT: &str = "\
Replays a run as `wreplay replay` does, stops where a break holds, and shows
what stands there: why it stopped, how far each thread is, the version and the
reads of each block of 64 bytes or more that is shown, and its bytes.

Breaks are tested behind each step, in the order place, step, write. Without a
break, or where none holds, the view is of the replay's end, or of where no
thread can go on: entries that are missing or clash are passed over.

With --names the line of a thread ends with where it stands: the function by its
name in the module's name section, or by its number, `+`, and the instruction,
numbered from 0; then its callers, as in

  thread 0 steps 5 places 1 running at bump+5 from main+3

The instruction is the one that comes next, or of a thread that trapped the one
that trapped.

With --offsets, which needs no --names, the offset of each instruction in the
bytes of the module stands behind its number, as engines print it: `bump+5
0x4b`. Tools that know the lines of C count from the beginning of the code
section; examples/lines.py puts what llvm-symbolizer finds behind each offset.";

/// How `view` refuses.
pub(crate) const VIEW_REFUSALS: &str = "\
Refusals (exit status 1), the first of them in this order:
  refused 1, 2, 3, 11, 12      MODULE, as `wreplay check` refuses it
  refused 12 to 17             PLAN, as `wreplay record` refuses it
  refused 41 to 43, 51, 58     PIECES, as `wreplay replay` refuses them
  refused 55 Diverged T P      thread T cannot do what the log says at place P
  refused 56 NoMemory          the replay does not fit into memory
  refused 61 OutOfView         the memory ends before the bytes that are shown
  refused 62 NoMemory          the view does not fit into memory
  refused 23 NoMemory          a file or the text does not fit into memory
  refused 44 SourceFailed      a file can't be read
  refused 45 SinkFailed        writing failed; a beginning was written

Example:
  wreplay view examples/lost.wasm examples/lost.plan examples/lost.pieces \\
      --place 1.2 --len 16";

/// What `trace` reads and writes.
pub(crate) const TRACE_ABOUT: &str = "\
Replays a run in turns, as `wreplay replay` does, and writes a line for each
access, in the order of the replay, as in

  1.1 bump+5 store 0 i32 0 -> 1

Of `T.P FUNCTION+N WORD ADDRESS TYPE OLD -> NEW` a line has what goes with its
access:

T.P         the thread, and the place of the event in that thread
FUNCTION+N  the function by its name in the module's name section, or by its
            number, and the instruction in it, numbered from 0; with --offsets
            its offset in the bytes of the module, as `bump+5 0x4b`: `wreplay
            view --help` says how lines of C are found by it
WORD        what was done: load, store, add, sub, and, or, xor, xchg, cmpxchg
            or wait
ADDRESS     where
TYPE        how wide: i8, i16, i32 or i64
OLD         the number that stood there
NEW         the number that stands there then, where it was written

Numbers of 65,536 and more are in hexadecimal. A cmpxchg or a wait that found
another number than it looked for ends with `not` and that one, a wait that
sleeps with `waiting`, an access that traps with the trap. Other lines have
`notify ADDRESS COUNT`, `size PAGES`, `grow BY OLD -> NEW`, or of a thread that
goes on behind a wait `woken ADDRESS` or `timed out ADDRESS`.

Behind the lines stands what `wreplay view --names` shows of the threads where
the replay stops: at its end, or where no thread can go on, as entries that are
missing or clash are passed over.

With `--to T.P` it stops behind that event. `--from T.P` leaves out the lines
before that event, --only those of other threads, and --bytes those of events
that touch none of the bytes (of any --bytes, where there are several); the
replay is the same.";

/// How `trace` refuses.
pub(crate) const TRACE_REFUSALS: &str = "\
Refusals (exit status 1), the first of them in this order:
  refused 1, 2, 3, 11, 12      MODULE, as `wreplay check` refuses it
  refused 12 to 17             PLAN, as `wreplay record` refuses it
  refused 41 to 43, 51, 58     PIECES, as `wreplay replay` refuses them
  refused 55 Diverged T P      thread T cannot do what the log says at place P
  refused 56 NoMemory          the replay does not fit into memory
  refused 23 NoMemory          a file or the text does not fit into memory
  refused 44 SourceFailed      a file can't be read
  refused 45 SinkFailed        writing failed; a beginning was written

Example:
  wreplay trace examples/lost.wasm examples/lost.plan examples/lost.pieces
  wreplay trace examples/lost.wasm examples/lost.plan examples/lost.pieces \\
      --bytes 0+4 --from 1.1 --to 0.1";

/// What `debug` reads and writes.
pub(crate) const DEBUG_ABOUT: &str = "\
Opens the replay of a log, as `wreplay replay` makes it, reads commands from
standard input, one in each line, and answers each on standard output:

  step T [N]      go on with thread T alone, by N steps, or by 1
  event T [N]     go on with thread T alone, up to behind its Nth event, or 1st
  finish T        go on with thread T alone, until its function returns
  continue        go on with all threads, up to a break
  again N         go on with all threads, past N breaks and up to the next
  back [N]        go back by N steps, or by 1, of whichever threads made them
  reverse         go back to the break before, or to the beginning
  goto T P        go to where thread T has made P events, from the beginning
  writer! FROM    go to behind the event that wrote the block of this byte last
  break F [N]     break where a thread comes to instruction N (0) of function F
  place T P       break behind the event of thread T after which it has made P
  write FROM LEN  break behind a write of a block that holds one of these bytes
  watch FROM LEN  break where the number in these 1, 2, 4 or 8 bytes changes;
        [N]       with N, where it comes to be N or is N no more
  delete          forget all breaks
  threads         how each thread stands, and where
  where T         how thread T stands, and where
  locals T [N]    the locals of the function that it runs, or of its Nth caller
  stack T [N]     its operands, the topmost first
  waits T         which events must come before the next event of thread T
  bytes FROM LEN  these bytes, and the versions of their blocks
  around T [N]    the last N events of thread T (5), and its next, as listed
  object O        which bytes object O is, its version, who wrote and read that
  writer FROM     which event wrote the block of this byte last, as T.P
  readers FROM    which events have read what was written there last
  way             the steps made so far, from the beginning on
  order           the same as a schedule, by which `wreplay record` comes here
  help            these commands
  quit            end; so does the end of the input

--order says which threads take turns before the first command, one turn for
each number, as for `wreplay replay`.

A step is one instruction. A thread waits at each access until the objects have
the versions that the log names, so where it cannot go on other threads have to
go on before: `waits` says up to which events. The same steps lead to the same
state, however often they are made. T.P is event P of thread T, counted from 0,
as `wreplay gather` lists it. What is watched changes where it is other than it
was where `continue`, `again` or `reverse` began, so `reverse` stops before the
write that made it what it is.";

/// How `debug` refuses.
pub(crate) const DEBUG_REFUSALS: &str = "\
Refusals (exit status 1), the first of them in this order:
  refused 1, 2, 3, 11, 12      MODULE, as `wreplay check` refuses it
  refused 12 to 17             PLAN, as `wreplay record` refuses it
  refused 41 to 43, 51, 58     PIECES, as `wreplay replay` refuses them
  refused 56 NoMemory          the replay does not fit into memory
  refused 23 NoMemory          a file does not fit into memory
  refused 44 SourceFailed      a file or the commands can't be read
  refused 45 SinkFailed        writing failed; a beginning was written

Example:
  printf 'goto 1 2\\nwriter 0\\nback 2\\n' | wreplay debug examples/lost.wasm \\
      examples/lost.plan examples/lost.pieces";

/// What `dap` reads and writes.
pub(crate) const ADAPTER_ABOUT: &str = "\
Answers an editor: reads requests of the Debug Adapter Protocol from standard
input and writes responses and events to standard output, each message behind a
line `Content-Length: N` and an empty one. The folder editors/vscode has what
makes an editor start it.

The editor's `launch` names the files, as the arguments of `wreplay debug` do:

  module                 the file of the module
  plan                   the file of the plan
  pieces                 a list with one name, the file of the pieces

The threads are those of the run, with numbers from 1 on; a frame of a stack is
a function and an instruction in it, which is its offset in the module, as in
0x1f. Its scopes are its locals, its operands, and the versions of the objects
that the next event of its thread touches, beside those for which it waits. The
memory's reference is `memory`.

  next, stepIn           go on with this thread alone, by a step
  stepOut                go on with this thread alone, until its function returns
  continue               go on with all threads, up to a break
  stepBack               go back by a step, of whichever thread made it
  reverseContinue        go back to the break before, or to the beginning
  function breakpoints   where a thread comes to the first instruction
  instruction            where a thread comes to the instruction at an offset
  data breakpoints       behind a write, of bytes that are named as in
                         write 0 4
  disassemble            instructions of a function, around one of them
  evaluate               any command of `wreplay debug` but `quit`, answered as
                         there

A request that can't be done is answered with a line that says why, and changes
nothing. `disconnect` and `terminate` end, and so does the end of the input.";

/// How `dap` refuses.
pub(crate) const ADAPTER_REFUSALS: &str = "\
Refusals (exit status 1):
  refused 44 SourceFailed  the input can't be read
  refused 45 SinkFailed    writing failed; a beginning was written
  refused 23 NoMemory      a message does not fit into memory
  refused 73 BadFrame      the input is no message of the protocol

What `launch` names may be refused, too, as `wreplay debug` refuses it: the
response says so, in such a line, and the exchange goes on, but no further
launch is taken.

Example:
  wreplay dap < examples/lost.requests > lost.responses";
