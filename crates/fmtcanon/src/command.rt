//! The commands for `clap`, each with its help.
ghost use Rattle.std.specs.Prelude.{◌≡◌, IfOk};
ghost use Rattle.std.specs.List.{fold};
ghost use Rattle.clap.specs.Words.{app_of};
ghost use Rattle.clap.specs.declared.builder.value_parser.ValueParser.TheVariants.{Names};
ghost use Rattle.fmtcanon.specs.Words.{IsCommand, the_command, top_app, with_row};

use crate::models::{NAMES, NAMES_OR_MORE};
use crate::subcommands::subcommand;
use clap::Command;
use std::alloc::{AllocError, Global};

/// Which arguments a command takes. Each takes the option `--model`.
#[derive(Clone, Copy)]
pub enum Shape {
    /// No others.
    Nothing,
    /// A format, or records.
    Records,
    /// A format, or records, perhaps of the whole language.
    WholeRecords,
    /// Two formats, or records. The second of two may take fewer arguments.
    FewerPairs,
    /// Two formats, or records, perhaps of the whole language.
    WholePairs,
    /// A format, and what it is to print.
    Format,
}

/// A command: its name, a sentence about it, the text below its help, and what it takes.
#[derive(Clone, Copy)]
pub struct Row<'a> {
    /// Its name.
    pub name: &'a str,
    /// A sentence about it.
    pub about: &'a str,
    /// The text below its help.
    pub below: &'a str,
    /// What it takes.
    pub shape: Shape,
    /// The names of data models that `--model` accepts.
    pub models: &'a [&'a str],
    /// What these are.
    pub model_help: &'a str,
}

/// Returns the command, as `clap` sees it. `Err` if memory is refused.
pub fn definition<'a>(alloc: Global) -> Result<Command<'a>, AllocError>
    ensures { IfOk result (λ command. IsCommand (app_of command)) }
{
    definition_with(alloc, NAMES, NAMES_OR_MORE)
}

// Takes the names of the data models that `--model` accepts: of one, and of one or more.
fn definition_with<'a>(
    alloc: Global,
    one: &'a [&'a str],
    more: &'a [&'a str],
) -> Result<Command<'a>, AllocError>
    ensures { IfOk result
        (λ command. app_of command ≡ the_command (Names one.entry) (Names more.entry)) }
{
    let rows = [
        Row {
            name: "types",
            about: "Prints the type of each argument of a format, one per line",
            below: TYPES_HELP,
            shape: Shape::WholeRecords,
            models: one,
            model_help: MODEL_HELP,
        },
        Row {
            name: "canon",
            about: "Prints the canonical text, which all formats of one meaning share",
            below: CANON_HELP,
            shape: Shape::WholeRecords,
            models: one,
            model_help: MODEL_HELP,
        },
        Row {
            name: "show",
            about: "Prints the parts of a format, and what its directives are reduced to",
            below: SHOW_HELP,
            shape: Shape::Records,
            models: one,
            model_help: MODEL_HELP,
        },
        Row {
            name: "format",
            about: "Prints what printf prints for a format and arguments",
            below: FORMAT_HELP,
            shape: Shape::Format,
            models: one,
            model_help: MODEL_HELP,
        },
        Row {
            name: "bounds",
            about: "Prints the smallest and the largest number of bytes that it prints",
            below: BOUNDS_HELP,
            shape: Shape::Records,
            models: one,
            model_help: MODEL_HELP,
        },
        Row {
            name: "same",
            about: "Says whether two formats are interchangeable, or how they differ",
            below: SAME_HELP,
            shape: Shape::WholePairs,
            models: more,
            model_help: MODELS_HELP,
        },
        Row {
            name: "fits",
            about: "Says whether one format takes the arguments of another",
            below: FITS_HELP,
            shape: Shape::FewerPairs,
            models: more,
            model_help: MODELS_HELP,
        },
        Row {
            name: "stream",
            about: "Prints the canonical text of standard input",
            below: STREAM_HELP,
            shape: Shape::Nothing,
            models: one,
            model_help: MODEL_HELP,
        },
    ];
    with_subcommands(alloc, &rows)
}

// Adds a subcommand for each row.
fn with_subcommands<'a>(alloc: Global, rows: &[Row<'a>]) -> Result<Command<'a>, AllocError>
    ensures { IfOk result (λ command. app_of command ≡ fold with_row top_app rows.now) }
{
    let mut command = top(alloc)?;
    for row in rows {
        command = command.subcommand(subcommand(alloc, row)?)?;
    }
    Ok(command)
}

// The command without its subcommands.
fn top<'a>(alloc: Global) -> Result<Command<'a>, AllocError>
    ensures { IfOk result (λ command. app_of command ≡ top_app) }
{
    Command::new(alloc, "fmtcanon")
        .about("Reads printf formats: canonical texts, argument types, interchangeability")
        .version("1.1.0")
        .after_help(PROGRAM_HELP)
        .no_binary_name(true)
        .subcommand_required(true)
        .disable_help_subcommand(true)
        .bin_name("fmtcanon")
}

// The data models.
const MODEL_HELP: &str = "\
Data model: lp64 (64-bit Unix; the default), ilp32
(32 bits) or llp64 (64-bit Windows)";

// The data models, one or more.
const MODELS_HELP: &str = "\
Data model: lp64 (64-bit Unix; the default), ilp32
(32 bits) or llp64 (64-bit Windows); `both` is the first
two, and `all` is the three";

// Below the help of the program.
const PROGRAM_HELP: &str = "\
Example:
  fmtcanon same '%5c' '    %c'

If a format starts with `-`, put `--` before it: fmtcanon canon -- '-%i'

Exit status:
  0  success; same: the formats are interchangeable; fits: the types agree
  1  same: the types or the bytes differ; fits: the types differ
  2  a format is rejected
  3  usage error, invalid argument or unpaired record; --help and --version
  4  a read or write failed, or out of memory

fmtcanon-explain(1) and fmtcanon(1) say why a format is rejected, and what to
write instead.";

// Below the help of `types`.
const TYPES_HELP: &str = "\
Example:
  fmtcanon types '%s: %u files'
  fmtcanon types --whole '%2$s of %1$.2f'
  printf '%s\\0' %i %5c | fmtcanon types --null

If a format starts with `-`, put `--` before it: fmtcanon types -- '-%i'

--whole accepts `*`, floating conversions, wide characters, %p, %n and numbered
arguments, too.

With --null, formats are read from standard input, each ended by NUL. Each
reply is a status digit, a space, the output or the error line, and NUL. The
exit status is the highest of them.

Exit status: 0 success, 2 rejected, 3 usage error, 4 a write failed or out of
memory
fmtcanon-explain(1) and fmtcanon(1) say why a format is rejected, and what to
write instead.";

// Below the help of `canon`.
const CANON_HELP: &str = "\
Example:
  fmtcanon canon 'Total: %i of %u%%'
  fmtcanon canon --literal '\"Total:\\t%i\" \"\\n\"'
  fmtcanon canon --whole '%i: %-08.6lf'
  printf '%s\\0' %i %5c | fmtcanon canon --null

If a format starts with `-`, put `--` before it: fmtcanon canon -- '-%i'

--whole accepts `*`, floating conversions, wide characters, %p and %n, too, but
no numbered arguments.

With --null, formats are read from standard input, each ended by NUL. Each
reply is a status digit, a space, the output or the error line, and NUL. The
exit status is the highest of them.

Exit status: 0 success, 2 rejected, 3 usage error, 4 a write failed or out of
memory
fmtcanon-explain(1) and fmtcanon(1) say why a format is rejected, and what to
write instead.";

// Below the help of `show`.
const SHOW_HELP: &str = "\
Example:
  fmtcanon show 'x%20d%%'
  printf '%s\\0' %i %5c | fmtcanon show --null

If a format starts with `-`, put `--` before it: fmtcanon show -- '-%i'

A line `directive F: TYPE: SPACES ZEROS CORE TRAIL` means: for every argument,
F prints that many spaces, that many zeros, what CORE prints, and that many
spaces.

With --null, formats are read from standard input, each ended by NUL. Each
reply is a status digit, a space, the output or the error line, and NUL. The
exit status is the highest of them.

Exit status: 0 success, 2 rejected, 3 usage error, 4 a write failed or out of
memory
fmtcanon-explain(1) and fmtcanon(1) say why a format is rejected, and what to
write instead.";

// Below the help of `format`.
const FORMAT_HELP: &str = "\
Example:
  fmtcanon format '%-8s|%+05d' s:ab n:-42

If a format starts with `-`, put `--` before it: fmtcanon format -- '-%i' n:5
A negative number is n:-5, and needs no `--`.

Exit status: 0 success, 2 rejected, 3 usage error or invalid argument, 4 a
write failed or out of memory
fmtcanon-explain(1) and fmtcanon(1) say why a format is rejected, and what to
write instead.";

// Below the help of `bounds`.
const BOUNDS_HELP: &str = "\
Example:
  fmtcanon bounds 'Total: %i of %5u'
  fmtcanon bounds --model ilp32 %ld
  printf '%s\\0' %i %.8s | fmtcanon bounds --null

If a format starts with `-`, put `--` before it: fmtcanon bounds -- '-%i'

The numbers are exact. They cover all arguments of the format's types, and
don't count the NUL that sprintf adds. If there is no largest number, as with a
`%s` without a precision, it prints `unbounded`.

With --null, formats are read from standard input, each ended by NUL. Each
reply is a status digit, a space, the output or the error line, and NUL. The
exit status is the highest of them.

Exit status: 0 success, 2 rejected, 3 usage error, 4 a write failed or out of
memory
fmtcanon-explain(1) and fmtcanon(1) say why a format is rejected, and what to
write instead.";

// Below the help of `same`.
const SAME_HELP: &str = "\
Example:
  fmtcanon same '%05d' '%.5d'
  fmtcanon same --model both '%zu' '%lu'
  fmtcanon same --whole '%.6f%%%i' '%f%%%d'
  printf '%s\\0' %i %d %5c %-5c | fmtcanon same --null

If a format starts with `-`, put `--` before it: fmtcanon same -- '-%i' '-%d'

If the bytes differ, it prints arguments that show it, one per line, as
`format` takes them. Arguments count from 0.

--whole accepts `*`, floating conversions, wide characters, %p and %n, too, but
no numbered arguments. What these print depends on the C library. So
`directives differ` says where only one of the formats has such a directive,
and `any` is an argument of one of them.

With --null, pairs of formats are read from standard input, each format ended
by NUL. Each reply is a status digit, a space, the output or the error line,
and NUL. The exit status is the highest of them.

Exit status: 0 same, 1 different, 2 one of them is rejected, 3 usage error or
an unpaired record, 4 a read or write failed or out of memory
fmtcanon-explain(1) and fmtcanon(1) say why a format is rejected, and what to
write instead.";

// Below the help of `fits`.
const FITS_HELP: &str = "\
Example:
  fmtcanon fits '%s of %d' '%2$d/%1$s'
  fmtcanon fits --model all %zu %lu
  fmtcanon fits --fewer '%d files in %s' 'one file'
  printf '%s\\0' %d %i %.2f %d | fmtcanon fits --null

If a format starts with `-`, put `--` before it: fmtcanon fits -- '-%d' '-%i'

It accepts the whole language, and compares the types of arguments only. `same`
also compares the bytes. Arguments count from 0.

With --fewer, G may also take only the first of the arguments of F, since
printf ignores arguments that are left over.

With --null, pairs of formats are read from standard input, each format ended
by NUL. Each reply is a status digit, a space, the output or the error line,
and NUL. The exit status is the highest of them.

Exit status: 0 fits, 1 the types differ, 2 one of them is rejected, 3 usage
error or an unpaired record, 4 a read or write failed or out of memory
fmtcanon-explain(1) and fmtcanon(1) say why a format is rejected, and what to
write instead.";

// Below the help of `stream`.
const STREAM_HELP: &str = "\
Example:
  printf %s 'Total: %i' | fmtcanon stream

It writes as it reads, so bytes may already be on standard output when the
format is rejected. A format that starts with `-` needs no `--`.

Exit status: 0 success, 2 rejected, 3 usage error, 4 a read or write failed or
out of memory
fmtcanon-explain(1) and fmtcanon(1) say why a format is rejected, and what to
write instead.";
