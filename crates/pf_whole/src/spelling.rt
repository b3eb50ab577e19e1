//! How what the profile lacks is spelled.
ghost use Rattle.std.specs.Prelude.{◌≡◌, ◌≤◌, ◌+◌, ◌++◌, false};
ghost use Rattle.arrayvec.specs.ArrayVec.{array_vec_len};
ghost use Rattle.pf_values.specs.declared.flags.Flag.TheVariants.{Group};
ghost use Rattle.pf_values.specs.meaning.Flags.{has};
ghost use Rattle.pf_values.specs.meaning.Spelling.{flags_spelled};
ghost use Rattle.pf_posix.specs.Items.{errno};
ghost use Rattle.pf_posix.specs.Specifications.{modifier_letters};
ghost use Rattle.pf_posix.specs.OpaqueParts.{amount_of, item_of_opaque, parts_of_opaque};
ghost use Rattle.pf_whole.specs.meaning.NormalSpellings.{normal_spelling, whole_precision_spelled, whole_spelling_of, whole_width_spelled};

use crate::directives::normal_directive;
use arrayvec::ArrayVec;
use pf_posix::{Opaque, OpaqueAmount, OpaqueDirective, WholeLength};
use pf_text::{Spelling, push_flags, push_number};
use pf_values::{FlagSet, Model};

/// Returns the normal spelling of a directive in a data model, or `%m`.
pub(crate) fn normal_spelling(model: Model, opaque: Opaque) -> Spelling
    ensures bytes { result.items ≡ normal_spelling model (item_of_opaque opaque) }
    ensures short { array_vec_len result ≤ 20 }
{
    match opaque {
        Opaque::Directive(directive) => spell(normal_directive(model, directive)),
        Opaque::Errno => spell_errno(),
    }
}

fn spell_errno() -> Spelling
    ensures bytes { result.items ≡ errno }
    ensures short { array_vec_len result ≤ 20 }
{
    let mut out = ArrayVec::new();
    out.push(b'%');
    out.push(b'm');
    out
}

// Returns the one spelling of a directive's parts: each flag once, in the order `-`, `+`, space, `#`, `0`, and
// numbers without zeros in front. `'` isn't one of its flags, so there is room for all.
fn spell(directive: OpaqueDirective) -> Spelling
    requires { has directive.flags Group ≡ false }
    ensures bytes { result.items ≡ whole_spelling_of (parts_of_opaque directive) }
    ensures short { array_vec_len result ≤ 20 }
{
    let mut out = ArrayVec::new();
    out.push(b'%');
    push_kept_flags(&mut out, directive.flags);
    push_width(&mut out, directive.width);
    push_precision(&mut out, directive.precision);
    push_letters(&mut out, directive.modifier);
    out.push(directive.conversion.letter());
    out
}

fn push_kept_flags(out: &mut Spelling, flags: FlagSet)
    requires group { has flags Group ≡ false }
    requires room { array_vec_len out.old ≤ 1 }
    ensures bytes { out.new.items ≡ out.old.items ++ flags_spelled flags }
    ensures len { array_vec_len out.new ≤ array_vec_len out.old + 5 }
{
    push_flags(out, flags);
}

fn push_width(out: &mut Spelling, width: Option<OpaqueAmount>)
    requires { array_vec_len out.old + 5 ≤ 20 }
    ensures bytes { out.new.items ≡ out.old.items ++ whole_width_spelled (amount_of width) }
    ensures len { array_vec_len out.new ≤ array_vec_len out.old + 5 }
{
    if let Some(amount) = width {
        push_amount(out, amount);
    }
}

fn push_precision(out: &mut Spelling, precision: Option<OpaqueAmount>)
    requires { array_vec_len out.old + 6 ≤ 20 }
    ensures bytes { out.new.items ≡ out.old.items ++ whole_precision_spelled (amount_of precision) }
    ensures len { array_vec_len out.new ≤ array_vec_len out.old + 6 }
{
    if let Some(amount) = precision {
        out.push(b'.');
        push_amount(out, amount);
    }
}

// A number, or `*`.
fn push_amount(out: &mut Spelling, amount: OpaqueAmount)
    requires { array_vec_len out.old + 5 ≤ 20 }
    ensures bytes { out.new.items ≡ out.old.items ++ whole_width_spelled (amount_of (Some amount)) }
    ensures len { array_vec_len out.new ≤ array_vec_len out.old + 5 }
{
    match amount {
        OpaqueAmount::Number(n) => push_number(out, n),
        OpaqueAmount::Star => out.push(b'*'),
    }
}

fn push_letters(out: &mut Spelling, modifier: WholeLength)
    requires { array_vec_len out.old + 2 ≤ 20 }
    ensures bytes { out.new.items ≡ out.old.items ++ modifier_letters modifier }
    ensures len { array_vec_len out.new ≤ array_vec_len out.old + 2 }
{
    out.try_extend_from_slice(modifier.letters()).unwrap();
}
