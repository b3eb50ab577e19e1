//! The options without a value that a command has.
ghost use Rattle.std.specs.Prelude.{◌≡◌, codes, if◌then◌else◌};
ghost use Rattle.std.specs.Str.{bytes_eq};
ghost use Rattle.fmtcanon.specs.Options.{is_set, notation_in, rows_in};

use crate::formats::FormatNotation;
use clap::ArgMatches;

/// Returns how the formats are given.
pub fn notation_of(inner: &ArgMatches<'_>) -> FormatNotation
    ensures { result ≡ notation_in (rows_in inner.now) }
{
    if_set(
        inner,
        "literal",
        FormatNotation::Literals,
        FormatNotation::Bytes,
    )
}

/// Returns the first of two values if an option without a value is given, otherwise the second.
pub(crate) fn if_set<T: Copy>(inner: &ArgMatches<'_>, id: &str, given: T, missing: T) -> T
    ensures { result ≡ (if is_set id.now (rows_in inner.now) then given else missing) }
{
    if is_set(inner, id) { given } else { missing }
}

/// Returns whether an option without a value is given.
pub fn is_set(inner: &ArgMatches<'_>, id: &str) -> bool
    ensures { result ≡ is_set id.now (rows_in inner.now) }
{
    match inner.get_str(id) {
        Some(value) => is_true(value),
        None => false,
    }
}

fn is_true(value: &str) -> bool
    ensures { result ≡ bytes_eq value.now (codes "true") }
{
    match value {
        "true" => true,
        _ => false,
    }
}
