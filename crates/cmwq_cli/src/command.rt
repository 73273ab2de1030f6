//! The program's command line, as clap reads it: a subcommand for each row of the table.
ghost use Rattle.std.specs.Prelude.{◌≡◌, false, fold, IfOk};
ghost use Rattle.clap.specs.Words.{app_of, rule_of};
ghost use Rattle.clap.specs.declared.builder.command.Command.TheViews.{out-Command as fields_of};
ghost use Rattle.cmwq_cli.specs.Word.{app, without_words};
ghost use Rattle.cmwq_cli.specs.Table.{row_app, rule_told, with_row, with_told};

use crate::table::{Argument, Kind, SUBCOMMANDS, Subcommand};
use clap::builder::ValueParser;
use clap::{Arg, ArgAction, Command};
use std::alloc::{AllocError, Global};

/// The program, before it has its subcommands.
fn program<'a>(alloc: Global) -> Command<'a>
    ensures { app_of result ≡ without_words }
{
    Command::new(alloc, "cmwq")
        .version("1.0.0")
        .about("A concurrency managed workqueue runtime")
        .subcommand_required(true)
}

/// An argument, as clap reads it.
fn arg<'a>(alloc: Global, argument: &Argument<'a>) -> Arg<'a>
    ensures rule { rule_of result ≡ rule_told argument.now }
    ensures local { result.global ≡ false }
{
    let arg = Arg::new(alloc, argument.name).help(argument.help);
    match argument.kind {
        Kind::Flag => arg.long(argument.name).action(ArgAction::SetTrue),
        Kind::Number => arg
            .long(argument.name)
            .action(ArgAction::Set)
            .value_parser(ValueParser::unsigned(0, u64::MAX))
            .value_name("NUMBER"),
        Kind::File => arg
            .long(argument.name)
            .action(ArgAction::Set)
            .value_name("FILE"),
        Kind::Items => arg
            .long(argument.name)
            .action(ArgAction::Set)
            .value_name("ITEMS"),
        Kind::Input => arg.action(ArgAction::Set),
    }
}

/// The subcommand with these arguments more.
fn with_arguments<'a>(
    alloc: Global,
    word: Command<'a>,
    arguments: &[Argument<'a>],
) -> Result<Command<'a>, AllocError>
    requires { (fields_of word).has_globals ≡ false }
    ensures shape { IfOk result (λ c. app_of c ≡ fold with_told (app_of word.entry) arguments.now) }
    ensures local { IfOk result (λ c. (fields_of c).has_globals ≡ false) }
{
    let mut word = word;
    for argument in arguments {
        word = word.arg(arg(alloc, argument))?;
    }
    Ok(word)
}

/// The subcommand of a row.
fn word<'a>(alloc: Global, row: &Subcommand<'a>) -> Result<Command<'a>, AllocError>
    ensures shape { IfOk result (λ c. app_of c ≡ row_app row.now) }
    ensures local { IfOk result (λ c. (fields_of c).has_globals ≡ false) }
{
    let word = Command::new(alloc, row.name)
        .about(row.about)
        .after_help(row.page.text());
    with_arguments(alloc, word, row.arguments)
}

/// The program with the subcommands of these rows.
fn with_words<'a>(alloc: Global, rows: &[Subcommand<'a>]) -> Result<Command<'a>, AllocError>
    ensures { IfOk result (λ c. app_of c ≡ fold with_row without_words rows.now) }
{
    let mut program = program(alloc);
    for row in rows {
        program = program.subcommand(word(alloc, row)?)?;
    }
    Ok(program)
}

/// The program's command line, as `--help` shows it.
pub(crate) fn command<'a>(alloc: Global) -> Result<Command<'a>, AllocError>
    ensures { IfOk result (λ c. app_of c ≡ app) }
{
    with_words(alloc, &SUBCOMMANDS)
}
