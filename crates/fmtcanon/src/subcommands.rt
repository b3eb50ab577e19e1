//! The subcommands for `clap`, by what they take.
ghost use Rattle.std.specs.Prelude.{◌≡◌, IfOk, false};
ghost use Rattle.clap.specs.Simple.{with_rule};
ghost use Rattle.clap.specs.Words.{app_of};
ghost use Rattle.clap.specs.declared.builder.command.Command.TheViews.{out-Command as fields_of};
ghost use Rattle.fmtcanon.specs.Words.{any_arguments, fewer_option, flag_option, on_format, on_literals, on_nothing, on_pairs, on_records, row_app, row_of, whole_option};

use crate::command::{Row, Shape};
use clap::{Arg, ArgAction, Command};
use std::alloc::{AllocError, Global};

/// Returns the subcommand of a row. `Err` if memory is refused.
pub fn subcommand<'a>(alloc: Global, row: &Row<'a>) -> Result<Command<'a>, AllocError>
    ensures { IfOk result (λ command. (app_of command ≡ row_app (row_of row.now))
        × ((fields_of command).has_globals ≡ false)) }
{
    match row.shape {
        Shape::Nothing => on_nothing(alloc, row),
        Shape::Records => on_records(alloc, row),
        Shape::WholeRecords => taking_whole(alloc, on_records(alloc, row)?),
        Shape::FewerPairs => taking_fewer(alloc, on_pairs(alloc, row)?),
        Shape::WholePairs => taking_whole(alloc, on_pairs(alloc, row)?),
        Shape::Format => taking_arguments(alloc, on_format(alloc, row)?),
    }
}

// A subcommand with the option `--model`, which takes the names of the row.
fn on_nothing<'a>(alloc: Global, row: &Row<'a>) -> Result<Command<'a>, AllocError>
    ensures { IfOk result
        (λ command. (app_of command ≡ on_nothing (row_of row.now).name (row_of row.now).models)
        × ((fields_of command).has_globals ≡ false)) }
{
    let option = Arg::new(alloc, "model")
        .long("model")
        .value_name("MODEL")
        .default_value("lp64")
        .value_parser(row.models)
        .hide_default_value(true)
        .hide_possible_values(true)
        .help(row.model_help);
    Command::new(alloc, row.name)
        .about(row.about)
        .after_help(row.below)
        .arg(option)
}

// A subcommand with the options `--model` and `--literal`.
fn on_literals<'a>(alloc: Global, row: &Row<'a>) -> Result<Command<'a>, AllocError>
    ensures { IfOk result
        (λ command. (app_of command ≡ on_literals (row_of row.now).name (row_of row.now).models)
        × ((fields_of command).has_globals ≡ false)) }
{
    let option = Arg::new(alloc, "literal")
        .long("literal")
        .action(ArgAction::SetTrue)
        .help("Formats are C string literals, with their quotes");
    on_nothing(alloc, row)?.arg(option)
}

// A subcommand with these options and a format.
fn on_format<'a>(alloc: Global, row: &Row<'a>) -> Result<Command<'a>, AllocError>
    ensures { IfOk result
        (λ command. (app_of command ≡ on_format (row_of row.now).name (row_of row.now).models)
        × ((fields_of command).has_globals ≡ false)) }
{
    let format = Arg::new(alloc, "F").required(true).help("A printf format");
    on_literals(alloc, row)?.arg(format)
}

// A subcommand with a format or the option `--null`; `task` checks that exactly one is given.
fn on_records<'a>(alloc: Global, row: &Row<'a>) -> Result<Command<'a>, AllocError>
    ensures { IfOk result
        (λ command. (app_of command ≡ on_records (row_of row.now).name (row_of row.now).models)
        × ((fields_of command).has_globals ≡ false)) }
{
    let null = Arg::new(alloc, "null")
        .long("null")
        .short('z')
        .action(ArgAction::SetTrue)
        .help("Reads formats from standard input, each ended by NUL");
    let format = Arg::new(alloc, "F").help("A printf format; required without --null");
    on_literals(alloc, row)?.arg(null)?.arg(format)
}

// A subcommand with two formats, or with the option `--null`.
fn on_pairs<'a>(alloc: Global, row: &Row<'a>) -> Result<Command<'a>, AllocError>
    ensures { IfOk result
        (λ command. (app_of command ≡ on_pairs (row_of row.now).name (row_of row.now).models)
        × ((fields_of command).has_globals ≡ false)) }
{
    let format = Arg::new(alloc, "G").help("Another printf format; required without --null");
    on_records(alloc, row)?.arg(format)
}

// Adds the option `--whole`.
fn taking_whole<'a>(alloc: Global, command: Command<'a>) -> Result<Command<'a>, AllocError>
    requires { (fields_of command).has_globals ≡ false }
    ensures { IfOk result (λ c. (app_of c ≡ with_rule (app_of command.entry) whole_option)
        × ((fields_of c).has_globals ≡ false)) }
{
    taking(
        alloc,
        command,
        "whole",
        "Also accepts %f, %p, %n, %ls and *, as below",
    )
}

// Adds the option `--fewer`.
fn taking_fewer<'a>(alloc: Global, command: Command<'a>) -> Result<Command<'a>, AllocError>
    requires { (fields_of command).has_globals ≡ false }
    ensures { IfOk result (λ c. (app_of c ≡ with_rule (app_of command.entry) fewer_option)
        × ((fields_of c).has_globals ≡ false)) }
{
    taking(
        alloc,
        command,
        "fewer",
        "Allows G to take fewer arguments than F",
    )
}

// Adds an option without a value.
fn taking<'a>(
    alloc: Global,
    command: Command<'a>,
    name: &'a str,
    help: &'a str,
) -> Result<Command<'a>, AllocError>
    requires { (fields_of command).has_globals ≡ false }
    ensures { IfOk result (λ c. (app_of c ≡ with_rule (app_of command.entry) (flag_option name.now))
        × ((fields_of c).has_globals ≡ false)) }
{
    let option = Arg::new(alloc, name)
        .long(name)
        .action(ArgAction::SetTrue)
        .help(help);
    command.arg(option)
}

// Adds any number of arguments.
fn taking_arguments<'a>(alloc: Global, command: Command<'a>) -> Result<Command<'a>, AllocError>
    requires { (fields_of command).has_globals ≡ false }
    ensures { IfOk result (λ c. (app_of c ≡ with_rule (app_of command.entry) any_arguments)
        × ((fields_of c).has_globals ≡ false)) }
{
    let help = "An argument: `n:` and a decimal number, or `s:` and a string";
    command.arg(Arg::new(alloc, "ARG").num_args(0..).help(help))
}
