//! `cmwq`: answers calls of a workqueue runtime, judges and shows its histories, replays scenarios, and runs scripts on
//! threads or plays their schedules in one. It reads a file or standard input, and writes standard output.
#![tactic(auto)]

mod leave_out;
mod lines;
mod noticing;
mod packed;

use crate::leave_out::{NoItems, left_out};
use crate::lines::{Failures, Lines};
use crate::noticing::{Noticing, Reason};
use crate::packed::packer_of;
use clap::error::ErrorKind;
use cmwq_base::{BufferedSink, FromStd, NoMemory, Sink, Source};
use cmwq_cli::{Asked, Schedules, Word, word_of};
use cmwq_cmd_explore::{Seeding, Task, run_explore, run_follow, run_path};
use cmwq_cmd_history::{run_step, run_step_live};
use cmwq_cmd_resume::run_resume;
use cmwq_cmd_run::run_run;
use cmwq_explain::{Kept, explain_calls, explain_history, explain_unkept};
use cmwq_explain_json::{explain_scenario, explain_script};
use cmwq_history::{run_check, run_front_check, run_upgrade};
use cmwq_io::{flush_all, tell, write_all};
use cmwq_json::{Fault, fault_status, read_value};
use cmwq_names::{Form, named, with_script};
use cmwq_replay::run_replay;
use cmwq_views::{Window, run_chart, run_open, run_page, run_summary, run_trace};
use either::Either::{self, Left, Right};
use serde_json::Value;
use std::alloc::{AllocError, Global};
use std::fmt::{self, Debug, Display, Formatter};
use std::fs::File;
use std::io::{self, IsTerminal, Stderr, Stdin, Stdout};
use std::process::ExitCode;
use std::sync::Wait;
use std::thread::{self, Builder, Threads};
use std::time::Clock;

/// The exit status of input that is refused.
const REFUSED_INPUT: u8 = 1;

/// The exit status of a wrong use.
const WRONG_USE: u8 = 2;

/// The exit status where memory runs out.
const OUT_OF_MEMORY: u8 = 4;

/// The bytes of a stack on which a search of schedules goes as deep as its longest schedule. Only what is used of it
/// takes memory.
const DEEP_STACK: usize = 1 << 28;

/// Tells that memory ran out. A failing standard error changes no status.
fn no_memory(rt: &impl Eprint) -> u8 {
    let _ = rt.eprintln("cmwq: no memory");
    OUT_OF_MEMORY
}

/// Prints what clap has to say: help and the version that were asked for, or a wrong use.
fn told<R: Print + Eprint>(rt: &R, error: &clap::Error) -> u8 {
    if matches!(error.kind(), ErrorKind::OutOfMemory) {
        return no_memory(rt);
    }
    let _ = error.print(rt);
    if error.use_stderr() { WRONG_USE } else { 0 }
}

/// The arguments as texts, of which the first is the program's name.
fn texts(alloc: Global, args: &[String]) -> Result<Vec<&str>, AllocError> {
    let mut words = Vec::new(alloc);
    for arg in args {
        words.push(arg.as_str())?;
    }
    Ok(words)
}

/// What is asked of schedules, unless a file says it.
fn task_of(schedules: Schedules) -> Option<Task> {
    Some(match schedules {
        Schedules::OfSeed { seed, pct, moves } => Task::OfSeed {
            seed,
            seeding: Seeding { pct, moves },
        },
        Schedules::OfSeeds {
            from,
            times,
            pct,
            moves,
        } => Task::OfSeeds {
            first: from,
            times,
            seeding: Seeding { pct, moves },
        },
        Schedules::All {
            moves,
            plain,
            first,
        } => Task::All {
            moves,
            is_plain: plain,
            is_first: first,
        },
        Schedules::Histories { moves } => Task::Histories { moves },
        Schedules::Path | Schedules::Follow { .. } => return None,
    })
}

/// The window from one entry up to another, or of the whole history where these are not given.
fn window(from: Option<u64>, to: Option<u64>) -> Window {
    Window {
        from: from.unwrap_or(0),
        to: to.unwrap_or(u64::MAX),
    }
}

/// Does what a word says, and shows how far it is if that goes to a terminal. A run's threads are made by the last
/// handle, which `main` alone can give.
fn run<S: Source, P: Source, O: Sink, E: Sink, T: Threads + Wait + Clock + Sync>(
    alloc: Global,
    asked: Asked,
    input: &mut S,
    other: &mut P,
    output: &mut O,
    errors: &mut E,
    is_terminal: bool,
    threads: &T,
) -> u8 {
    let clock = if is_terminal { Some(threads) } else { None };
    match asked.word {
        Word::Step { live: false } => run_step(alloc, input, output, errors),
        Word::Step { live: true } => run_step_live(alloc, input, output, errors),
        Word::Check { front: false } => run_check(alloc, input, output, errors),
        Word::Check { front: true } => run_front_check(alloc, input, output, errors),
        Word::Upgrade => run_upgrade(alloc, input, output, errors),
        Word::Summary => run_summary(alloc, input, output, errors),
        Word::Open { front } => run_open(alloc, input, output, errors, front),
        Word::Resume { front } => match left_out(alloc, asked.leave_out) {
            Ok(left_out) => run_resume(alloc, input, output, errors, front, &left_out),
            Err(NoItems::NoList) => {
                tell(errors, "leave-out: not the numbers of items");
                WRONG_USE
            }
            Err(NoItems::NoMemory) => {
                tell(errors, NoMemory);
                OUT_OF_MEMORY
            }
        },
        Word::Chart { from, to, all } => {
            run_chart(alloc, input, output, errors, window(from, to), all)
        }
        Word::Trace => run_trace(alloc, input, output, errors),
        Word::Page { from, to } => run_page(alloc, input, output, errors, window(from, to)),
        Word::Replay => run_replay(alloc, input, output, errors),
        Word::Run => run_run(threads, alloc, input, output, errors, asked.explain),
        Word::Explore { schedules } => match (task_of(schedules), schedules) {
            (Some(task), _) => run_explore(alloc, input, output, errors, task, clock),
            (None, Schedules::Follow { moves }) => {
                run_follow(alloc, input, other, output, errors, moves)
            }
            (None, _) => run_path(alloc, input, other, output, errors),
        },
    }
}

/// Tells why a word ended with another status than 0, where what it read says so.
fn explain<E: Sink>(alloc: Global, word: Word, status: u8, bytes: &[u8], errors: &mut E) {
    match packer_of(bytes) {
        Some(name) if status == REFUSED_INPUT => {
            tell(
                errors,
                format_args!("the input is compressed by {name}: decompress it first"),
            );
        }
        _ => explain_words(alloc, word, status, bytes, errors),
    }
}

/// Tells the same of an input that is not compressed.
fn explain_words<E: Sink>(alloc: Global, word: Word, status: u8, bytes: &[u8], errors: &mut E) {
    match word {
        Word::Step { .. } => explain_calls(alloc, "step", status, bytes, errors),
        Word::Check { front } => explain_history(alloc, "check", status, bytes, front, errors),
        Word::Upgrade => explain_history(alloc, "upgrade", status, bytes, false, errors),
        Word::Summary => explain_history(alloc, "summary", status, bytes, false, errors),
        Word::Open { front } => explain_history(alloc, "open", status, bytes, front, errors),
        Word::Resume { front } => explain_history(alloc, "resume", status, bytes, front, errors),
        Word::Chart { .. } => explain_history(alloc, "chart", status, bytes, false, errors),
        Word::Trace => explain_history(alloc, "trace", status, bytes, false, errors),
        Word::Page { .. } => explain_history(alloc, "page", status, bytes, false, errors),
        Word::Replay => explain_scenario(alloc, status, bytes, errors),
        Word::Run | Word::Explore { .. } => explain_script(alloc, status, bytes, errors),
    }
}

/// What a subcommand reads: standard input, or the file with this name.
fn open(rt: &HostRuntime, name: Option<&str>) -> io::Result<Either<Stdin, File>> {
    match name {
        None | Some("-") => Ok(Left(rt.stdin())),
        Some(name) => {
            let file = File::open(rt, name)?;
            if file.metadata()?.is_dir() {
                return Err(io::Error::from(io::ErrorKind::IsADirectory));
            }
            Ok(Right(file))
        }
    }
}

/// A file's name, as text for a terminal: with control characters it is quoted, and these are escaped.
#[derive(Clone, Copy)]
struct FileName<'a>(&'a str);

impl Display for FileName<'_> {
    fn fmt<W: fmt::Write>(&self, f: &mut Formatter<W>) -> fmt::Result {
        if self.0.chars().any(|letter| letter.is_control()) {
            Debug::fmt(self.0, f)
        } else {
            Display::fmt(self.0, f)
        }
    }
}

/// Tells why a file cannot be read.
fn not_opened(rt: &HostRuntime, name: &str, error: &io::Error) -> u8 {
    if error.kind() == io::ErrorKind::OutOfMemory {
        return no_memory(rt);
    }
    let _ = eprintln!(rt; "cmwq: {}: {}", FileName(name), Reason(*error));
    REFUSED_INPUT
}

/// What a word writes, if names may stand there.
#[derive(Clone, Copy)]
enum Named {
    Text(Form),
    Page,
}

fn named_of(word: Word) -> Option<Named> {
    match word {
        Word::Summary | Word::Open { .. } => Some(Named::Text(Form::Plain)),
        Word::Trace => Some(Named::Text(Form::Json)),
        Word::Chart { .. } => Some(Named::Text(Form::Xml)),
        Word::Page { .. } => Some(Named::Page),
        _ => None,
    }
}

/// Why there are no names.
#[derive(Clone, Copy)]
struct NoNames(Fault);

impl Display for NoNames {
    fn fmt<W: fmt::Write>(&self, f: &mut Formatter<W>) -> fmt::Result {
        write!(f, "names: {}", self.0)
    }
}

/// The script that gives names, or the status where it cannot be read.
fn script_of<S: Source, E: Sink>(
    alloc: Global,
    input: &mut S,
    errors: &mut E,
) -> Result<Value, u8> {
    match read_value(alloc, input) {
        Ok(script) => Ok(script),
        Err(fault) => {
            tell(errors, NoNames(fault));
            Err(fault_status(fault))
        }
    }
}

/// Writes a text with the names that a script gives.
fn write_named<O: Sink>(
    alloc: Global,
    output: &mut O,
    script: &Value,
    what: Named,
    text: &[u8],
) -> Result<(), Fault> {
    let text = match what {
        Named::Text(form) => named(alloc, script, form, text)?,
        Named::Page => {
            let json = script.to_string(alloc)?;
            with_script(alloc, text, json.as_str())?
        }
    };
    write_all(output, text.as_slice())?;
    flush_all(output)?;
    Ok(())
}

/// What a word reads. There is one type of source for files and standard input, so that each word is compiled once.
type Input = Noticing<Either<Stdin, File>>;

/// Does what was asked.
fn run_asked<T: Threads + Wait + Clock + Sync>(rt: &HostRuntime, asked: Asked, threads: &T) -> u8 {
    let mut other = match open(rt, asked.other) {
        Ok(other) => Noticing::new(other),
        Err(error) => return not_opened(rt, asked.other.unwrap_or("-"), &error),
    };
    match asked.other.and_then(|_| named_of(asked.word)) {
        None => run_to(rt, asked, &mut other, Left(rt.stdout()), threads),
        Some(what) => run_named(rt, asked, what, &mut other, threads),
    }
}

/// Does what was asked, and writes it with the names of a script. The text is kept until it is whole.
fn run_named<T: Threads + Wait + Clock + Sync>(
    rt: &HostRuntime,
    asked: Asked,
    what: Named,
    names: &mut Input,
    threads: &T,
) -> u8 {
    let alloc = rt.alloc();
    let mut lines = Lines::new(rt.stderr(), false);
    let script = script_of(
        alloc,
        &mut FromStd::new(&mut *names),
        &mut FromStd::new(&mut lines),
    );
    let script = match script {
        Ok(script) => script,
        Err(status) => {
            lines.end(Failures {
                input: names.error(),
                output: None,
            });
            return status;
        }
    };
    let mut text = Vec::new(alloc);
    let status = run_to(rt, asked, names, Right(&mut text), threads);
    if text.is_empty() {
        return status;
    }
    let mut output = Noticing::new(rt.stdout());
    let written = write_named(
        alloc,
        &mut FromStd::new(&mut output),
        &script,
        what,
        text.as_slice(),
    );
    match written {
        Ok(()) => status,
        Err(fault) => {
            tell(&mut FromStd::new(&mut lines), fault);
            lines.end(Failures {
                input: None,
                output: output.error(),
            });
            fault_status(fault)
        }
    }
}

/// Whether a refused input is one of which `--explain` would tell more: not the other file of `explore`.
fn is_hinting(asked: &Asked<'_>) -> bool {
    let is_of_other = matches!(asked.word, Word::Explore { .. }) && asked.other.is_some();
    !asked.explain && !is_of_other
}

/// Does what was asked, writes to this output, and tells why a stream failed.
fn run_to<T: Threads + Wait + Clock + Sync>(
    rt: &HostRuntime,
    asked: Asked,
    other: &mut Input,
    output: Either<Stdout, &mut Vec<u8>>,
    threads: &T,
) -> u8 {
    let mut input = match open(rt, asked.file) {
        Ok(input) => Noticing::new(input),
        Err(error) => return not_opened(rt, asked.file.unwrap_or("-"), &error),
    };
    let mut output = Noticing::new(output);
    let mut lines = Lines::new(rt.stderr(), is_hinting(&asked));
    let status = run_over(
        rt,
        asked,
        &mut input,
        other,
        &mut output,
        &mut lines,
        threads,
    );
    lines.end(Failures {
        input: input.error().or(other.error()),
        output: output.error(),
    });
    status
}

/// Does what was asked over these streams. What is to be explained is kept while it is read.
fn run_over<T: Threads + Wait + Clock + Sync>(
    rt: &HostRuntime,
    asked: Asked,
    input: &mut Input,
    other: &mut Input,
    output: &mut Noticing<Either<Stdout, &mut Vec<u8>>>,
    lines: &mut Lines<Stderr>,
    threads: &T,
) -> u8 {
    let alloc = rt.alloc();
    let mut errors = FromStd::new(lines);
    let Ok(mut output) = BufferedSink::new(alloc, FromStd::new(output)) else {
        return no_memory(rt);
    };
    let input = FromStd::new(input);
    let mut input = if asked.explain {
        Kept::new(alloc, input)
    } else {
        Kept::passing(alloc, input)
    };
    let status = run(
        alloc,
        asked,
        &mut input,
        &mut FromStd::new(other),
        &mut output,
        &mut errors,
        rt.stderr().is_terminal(),
        threads,
    );
    match input.bytes() {
        _ if status == 0 || !asked.explain => {}
        Some(bytes) => explain(alloc, asked.word, status, bytes, &mut errors),
        None => explain_unkept(status, &mut errors),
    }
    status
}

/// Does what was asked on a thread with a deep stack, or without one if there can be no such thread.
fn run_deeply<T: Threads + Wait + Clock + Sync>(rt: &HostRuntime, asked: Asked, threads: &T) -> u8 {
    thread::scope(thread::scope_env(), threads, |scope| {
        let deep = Builder::new().stack_size(DEEP_STACK);
        match deep.spawn_scoped(scope, || run_asked(rt, asked, threads)) {
            Ok(handle) => handle.join(threads),
            Err(_) => run_asked(rt, asked, threads),
        }
    })
}

fn answer<T: Threads + Wait + Clock + Sync>(rt: &HostRuntime, args: &[String], threads: &T) -> u8 {
    let alloc = rt.alloc();
    let Ok(words) = texts(alloc, args) else {
        return no_memory(rt);
    };
    match word_of(alloc, &words) {
        Ok(asked) if matches!(asked.word, Word::Explore { .. }) => run_deeply(rt, asked, threads),
        Ok(asked) => run_asked(rt, asked, threads),
        Err(error) => told(rt, &error),
    }
}

fn main(rt: HostRuntime) -> ExitCode {
    let args: io::Result<Vec<String>> = std::env::args(&rt).and_then(|args| Ok(args.collect(
        rt.alloc(),
    )?));
    let status = match args {
        Ok(args) => answer(&rt, &args, &rt),
        Err(error) if matches!(error.kind(), io::ErrorKind::OutOfMemory) => no_memory(&rt),
        Err(_) => {
            let _ = rt.eprintln("cmwq: an argument is no text");
            WRONG_USE
        }
    };
    ExitCode::from(status)
}
