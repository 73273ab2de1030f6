//! What the help of the program says.

/// What the help of a subcommand shows below its usage, named by the subcommand.
#[derive(Clone, Copy)]
pub(crate) enum Page {
    Step,
    Check,
    Upgrade,
    Summary,
    Open,
    Resume,
    Chart,
    Trace,
    Page,
    Replay,
    Run,
    Explore,
}

impl Page {
    pub(crate) fn text(self) -> &'static str {
        match self {
            Page::Step => CALLS_HELP,
            Page::Check => HISTORY_HELP,
            Page::Upgrade => FORMER_HELP,
            Page::Summary => FIGURES_HELP,
            Page::Open => STANDING_HELP,
            Page::Resume => RESUME_HELP,
            Page::Chart => PICTURE_HELP,
            Page::Trace => TRACE_HELP,
            Page::Page => PAGE_HELP,
            Page::Replay => SCENARIO_HELP,
            Page::Run => SCRIPT_HELP,
            Page::Explore => EXPLORE_HELP,
        }
    }
}

/// What the help of a subcommand says of its file.
pub(crate) const FILE_HELP: &str = "The file to read; standard input if it is `-` or left out";

/// What the help of a word says of its flag that explains.
pub(crate) const EXPLAIN_HELP: &str =
    "Tells one line more of an input that is refused: where, what stands there, what is expected, and what was likely \
    meant";

/// What the help of a word says of its flag for a history whose writing was cut off.
pub(crate) const FRONT_HELP: &str =
    "Reads the whole lines that are there: an unfinished last line is left out, which a line on \
    standard error says, and `end` may be missing";

/// What the help of a word says of its option of names.
pub(crate) const NAMES_HELP: &str =
    "Shows the names of items, queues and callers that this script gives, in place of their numbers";

/// What the help of `resume` says of its option of items.
pub(crate) const LEAVE_OUT_HELP: &str =
    "Does not queue the runs of these items again that were broken off: their numbers, with commas between them";

/// What the help of `step` shows below its usage.
const CALLS_HELP: &str =
    r"The input is a line for the shape, one for each queue, and then calls, each with who makes it:

  shape 1 2 1 3 100
  wq 1 -
  c0 queue 0 0 0
  w0n0 take
  w0n0 finish

A shape is the numbers of CPUs, of workers in each pool, of callers and of items, and the room in entries. A queue is
its max_active and its flags: `-`, or some of h (high priority), i (CPU intensive) and f (freezable). Callers are c0,
c1, ..; w0n1 is worker 1 of CPU 0's normal pool, and w0h1 that of its pool of high priority. Calls of callers and of
workers:

  queue <item> <queue> <cpu>         delay <item> <queue> <cpu> <ticks>     modify <item> <queue> <cpu> <ticks>
  cancel <item>
Calls of callers alone:
  tick <n>               fire                   flush <queue>          flush_item <item>      flush_delayed <item>
  cancel_sync <item>     drain <queue>          destroy <queue>        end <ticket>
  set_max <queue> <n>    freeze                 thaw
Calls of workers alone:
  take                   finish                 sleep                  wake                   retire

With a first line `calls 3` the limits are those of histories of format 3, in which the answer is then.";

/// What the help of `check` shows below its usage.
const HISTORY_HELP: &str =
    r"A history is what `step` and `run` write: a line for its format, the shape, the queues, and a line for each
entry, who made it, its serial, the call and the reply:

  history 2
  shape 1 2 1 3 100
  wq 1 -
  c0 0 queue 0 0 0 = yes 0
  w0n0 0 take = started 0 enlist 1
  w0n0 1 finish = finished 0

gives `legal 3`. One of format 3 begins with `history 3`, ends with `end 3` for three entries, and has greater limits;
one without a first line is of format 1.";

/// What the help of `upgrade` shows below its usage.
const FORMER_HELP: &str = r"A history of format 1 has no line for its format:

  shape 1 2 1 3 100
  wq 1 -
  c0 0 queue 0 0 0 = yes 0

is written with the line `history 2` before it; one of format 2 or 3 as it is. Of an illegal history nothing is
written, and the verdict goes to standard error.";

/// What the help of `summary` shows below its usage.
const FIGURES_HELP: &str =
    r"The input is a legal history of any format. Its figures are told line by line, and a line that has nothing to
tell is left out:

  entries 3, ticks 0
  call queue: 1                      how many calls of each kind
  reply yes: 1                       and replies, by their first word
  queue 0 on CPU 0: queueings 1, starts 1, cancelled 0, width 1, most open 1, most active 1, ..
  worker w0n0: runs 1, awake 1 entries and 0 ticks, asleep 0 entries and 0 ticks
  item 0: runs 1, cancels 0
  caller c0: calls 1, tickets 0, longest wait -

The width is that at the end; the most that were open and active at once is told of all entries. A queueing is
cancelled that ends before it starts, and one that starts has waited from the entry that opened it; a caller waits
from the entry that gives it a ticket until an end of that is answered `done`. How long they waited, and how long a
worker's runs were awake or asleep, is counted in the entries that came meanwhile, and in the ticks that these let go
by; a mean is rounded down. Of an illegal history nothing is written, and the verdict goes to standard error.";

/// What the help of `open` shows below its usage.
const STANDING_HELP: &str =
    r"The input is a legal history of any format, or with `--front` one whose writing was cut off. What is still going
on at its end is told line by line:

  entries 9, ticks 4
  queue 0: width 2                 each queue, and whether it is frozen, draining or gone
  queues 1 to 7 idle
  worker w0n0 runs item 2, queueing 1, queue 0 on CPU 0, since entry 2 at tick 0
  pending item 2, queueing 4, queue 0 on CPU 0, since tick 0, active: its item runs
  booked item 1, due 9, queue 0 on CPU 0, since entry 6 at tick 4
  caller c0: ticket 7, flush 0, since tick 4, waits for queueing 1

A queueing has the number of the entry that opened it, and a ticket that of the entry that gave it. A queueing that
has not started says why. A run that sleeps says since when, and by which caller it waits, if the history shows that. A
wait that nothing holds up says `may end`. Of an illegal history nothing is written, and the verdict goes to standard
error.";

/// What the help of `resume` shows below its usage.
const RESUME_HELP: &str =
    r"The input is a legal history of any format, or with `--front` one whose writing was cut off:

  history 2
  shape 1 2 1 3 100
  wq 1 -
  c0 0 queue 0 0 0 = yes 0
  w0n0 0 take = started 0 enlist 1
  c0 1 delay 1 0 0 9 = booked 9

gives the calls by which a new history takes over what was left, which `step` reads:

  shape 1 2 1 3 100
  wq 1 -
  c0 queue 0 0 0
  c0 delay 1 0 0 9

They are, in this order: `set_max` where the width is not that of the shape; `destroy` and `end` of each queue that is
gone; `freeze`; `queue` of what ran, and then of what was pending; `delay` by one tick of what was due, and `tick 1`;
`delay` by the ticks that were left of what was booked for later. Standard error has a line for each run that was broken
off, and says what becomes of it, and one for each wait, which is over. Of an illegal history nothing is written, and
the verdict goes to standard error.";

/// What the help of `chart` shows below its usage.
const PICTURE_HELP: &str = r"A history of any format, as `step` and `run` write it:

  history 2
  shape 1 2 1 3 100
  wq 1 -
  c0 0 queue 0 0 0 = yes 0
  w0n0 0 take = started 0 enlist 1
  w0n0 1 finish = finished 0

gives an SVG, which a browser shows: a row for each caller, with a mark for each of its entries and its waits below
it; a row for each worker, and in it a bar for each of its runs, from the entry that started it to the one that
finished it; and below them a row for each queue on each CPU where it had queueings, with how many are open and active
as steps, and its width as a dashed line. Long histories go on in further bands down the page. More than 20,000 entries
are shown with `--all` only; `page` shows a million. Of an illegal history nothing is written, and the verdict goes to
standard error.";

/// What the help of `trace` shows below its usage.
const TRACE_HELP: &str = r"A history of any format, as `step` and `run` write it:

  history 2
  shape 1 2 1 3 100
  wq 1 -
  c0 0 queue 0 0 0 = yes 0
  w0n0 0 take = started 0 enlist 1
  w0n0 1 finish = finished 0

gives the events of a trace as JSON, which Perfetto and chrome://tracing show: a process for each pool, a thread for
each worker, and on it each of its runs and sleeps; and for each queue on each CPU where it had queueings a counter of
how many are open and active, and of its width. The time is the number of the entry. Of an illegal history nothing is
written, and the verdict goes to standard error.";

/// What the help of `page` shows below its usage.
const PAGE_HELP: &str = r"A history of any format, as `step` and `run` write it:

  history 2
  shape 1 2 1 3 100
  wq 1 -
  c0 0 queue 0 0 0 = yes 0
  w0n0 0 take = started 0 enlist 1
  w0n0 1 finish = finished 0

gives one HTML file, which any browser shows, and which loads nothing from elsewhere. It has the rows of `chart`: marks
and waits of callers, runs and sleeps of workers, and how many are open and active of each queue on each CPU. The wheel
and the keys zoom and move, a click tells the line of an entry, filters show what is of one item, queue or caller, and
tables have the same for screen readers. A million entries make a file of about 40 MB. Of an illegal history nothing is
written, and the verdict goes to standard error.";

/// What the help of `replay` shows below its usage.
const SCENARIO_HELP: &str =
    r#"A scenario says which items are queued at 0 ms on one CPU, in this order, and of each how long it burns CPU,
sleeps, burns CPU, .. in turn:

  {"queues":[{"name":"q0","max_active":2,"intensive":false}],
   "items":[{"name":"w0","queue":"q0","ms":[5,10,5]},
            {"name":"w1","queue":"q0","ms":[5,10]}]}

There are 1 to 8 queues and up to 8 items. A name has 1 to 16 letters, digits and _; no two queues share one, and no
two items. max_active is how many items of a queue may have begun and not ended at a time: 0 stands for 256, and more
than 512 for 512. While an item of a queue that isn't CPU intensive burns or waits for the CPU, no other item starts.
An item has 1 to 8 parts of 1 to 1000 ms."#;

/// What the help of `run` shows below its usage.
const SCRIPT_HELP: &str =
    r#"A script says what each item does when it runs, and what each caller does, one after the other, in a thread of
its own:

  {"cpus":1,"workers":2,"room":100,
   "queues":[{"name":"q0","max_active":2,"high":false,"intensive":false}],
   "items":[{"name":"A","does":[["sleep_at","g"]]},
            {"name":"B","does":[["open","g"]]}],
   "callers":[[["queue","A","q0",0],["queue","B","q0",0],["flush","q0"]]]}

There are 1 to 4 CPUs, 1 to 8 workers in each of their two pools, room for up to 1,000,000 entries, 1 to 64 queues, 1 to
256 items of up to 64 actions, and 1 to 64 callers of up to 1,000 actions. Names are as in `replay`; a queue may say
"freezable":true. Calls:

  ["queue",item,queue,cpu]           ["cancel",item]          ["flush",queue]          ["set_max",queue,n]
  ["delay",item,queue,cpu,ticks]     ["cancel_sync",item]     ["flush_item",item]      ["freeze"]
  ["modify",item,queue,cpu,ticks]    ["tick",n]               ["flush_delayed",item]   ["thaw"]
                                     ["drain",queue]          ["destroy",queue]

An action of a caller is a call, or ["open",gate], ["wait",gate], ["lock",lock] or ["unlock",lock]. One of an item is
queue, delay, modify or cancel, or ["open",gate], ["sleep_at",gate], ["lock",lock] or ["unlock",lock]: the run sleeps
until the gate is open, or the lock is free. There are at most 16 gates and 16 locks, and a name makes one. An action of
an item may also be flush_item, flush_delayed, cancel_sync, flush or drain: the run sleeps until that has ended. One run
may do so at a time, or as many as "waits":n says. A wait that could never end is refused, and one without room is left
out; both are told. The output is the history of this one run, which `check` accepts.

These are not refused, and may wait for ever:

  a call or a wait for what a freeze holds back: it ends only if another caller thaws it
  a drain or a destroy of a queue whose runs go on queueing items there
  a wait that could end when it began, and cannot since max_active was made smaller or a freeze came
  what waits at a gate that nobody opens or for a lock that nobody lets go: `run` lets it go on after some seconds

With "format":3 beside "room" it is of format 3, and there may be 1 to 64 CPUs and workers in a pool, 1 to 255 queues
and callers, 1 to 65,535 items, and room for up to 4,611,686,018,427,387,904 entries. With "journal":64 it is written
as it is made too, and so many entries are kept at a time."#;

/// What the help of `explore` shows below its usage.
const EXPLORE_HELP: &str =
    r#"The input is a script, as `run` reads one. Its schedules are played in one thread: a seed chooses who moves next,
or all choices are tried. A move is an action of a caller, the end of a wait, or what a worker does next.

  cmwq explore --seed 7 SCRIPT       the history of one schedule, always the same
  cmwq explore --times 1000 SCRIPT   how many of the schedules of the seeds 0 to 999 ended, and how many got stuck
  cmwq explore --all SCRIPT          whether all schedules end

A schedule is stuck if nobody may move, and yet a call, a wait, a run or an active queueing is left. Of the shortest
schedule that got stuck, it writes the seed or the moves, what everybody waits for, and the history. The status is 7
if a schedule got stuck, and 8 if none did but not all was tried."#;
