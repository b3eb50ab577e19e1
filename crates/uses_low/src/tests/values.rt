//! What no run of the program shows of `pf_values`: each public call once, with data that no word of a command can hold.
use pf_values::laws::prints_once;
use pf_values::{
    Arg, ArgType, Base, CBytes, Conv, Directive, Flag, FlagSet, Length, Model, RefusalKind,
    ValueKind,
};

mod counted;
mod devices;
mod writes;

// The kind that rejects a directive of these numbers with three more faults, if any does.
fn refusal_of(width: u16, precision: u16) -> Option<RefusalKind> {
    let flags = FlagSet::empty().with(Flag::Alt);
    match Directive::new(flags, Some(width), Some(precision), Length::L, Conv::C) {
        Ok(_) => None,
        Err(kind) => Some(kind),
    }
}

// A reader rejects the greater number before it comes to the rest.
#[test]
fn the_least_number_counts(rt: HostRuntime) {
    assert!(rt;
        [
            refusal_of(4096, 4096),
            refusal_of(u16::MAX, 0),
            refusal_of(4095, 4096),
            refusal_of(4095, 4095),
        ] == [
            Some(RefusalKind::WidthTooLarge),
            Some(RefusalKind::WidthTooLarge),
            Some(RefusalKind::PrecisionTooLarge),
            Some(RefusalKind::Wide),
        ]
    );
}

// Whether a width is kept so in a directive.
fn is_width_of(width: u16, wanted: Option<u16>) -> bool {
    match Directive::new(FlagSet::empty(), Some(width), None, Length::None, Conv::U) {
        Ok(directive) => directive.width() == wanted,
        Err(_) => false,
    }
}

// A format has no such width: there a zero is a flag.
#[test]
fn a_width_of_0_is_none(rt: HostRuntime) {
    assert!(rt; is_width_of(0, None) && is_width_of(1, Some(1)));
}

// The bits and the digits of the value of a text, which no output shows.
fn has_no_digits(conv: Conv, model: Model) -> bool {
    match Directive::new(FlagSet::empty(), None, None, Length::None, conv) {
        Ok(directive) => directive.bits(model) == 0 && directive.max_digits(model) == 0,
        Err(_) => false,
    }
}

#[test]
fn texts_have_no_digits(rt: HostRuntime) {
    for model in Model::ALL {
        assert!(rt; has_no_digits(Conv::C, model) && has_no_digits(Conv::S, model));
    }
}

// The capitals of base two and the bases with no prefix come in no directive.
fn has_prefixes(base: Base, small: &[u8], capital: &[u8]) -> bool {
    base.prefix(false) == small && base.prefix(true) == capital
}

#[test]
fn each_base_has_its_row(rt: HostRuntime) {
    assert!(rt;
        [
            has_prefixes(Base::Binary, b"0b", b"0B"),
            has_prefixes(Base::Octal, b"", b""),
            has_prefixes(Base::Decimal, b"", b""),
            has_prefixes(Base::Hexadecimal, b"0x", b"0X"),
        ] == [true; 4]
    );
}

// Whether the value of this kind has this sign and this size.
fn becomes<V: ValueKind>(argument: i128, is_negative: bool, size: u64) -> bool {
    let value = V::of(argument);
    value.is_negative() == is_negative && value.unsigned_abs() == size
}

// Numbers past their types among them, which no argument can be.
#[test]
fn each_kind_converts(rt: HostRuntime) {
    assert!(rt;
        [
            becomes::<i8>(300, false, 44),
            becomes::<i8>(128, true, 128),
            becomes::<u8>(257, false, 1),
            becomes::<u8>(-1, false, 255),
            becomes::<i16>(-32769, false, 32767),
            becomes::<u16>(-1, false, 65535),
            becomes::<i32>(-1, true, 1),
            becomes::<u32>(1 << 32, false, 0),
            becomes::<i64>(1 << 63, true, 1 << 63),
            becomes::<u64>(-1, false, 18446744073709551615),
        ] == [true; 10]
    );
}

// The one kind that no text is rejected for: none is so long.
#[test]
fn each_kind_has_its_number_and_name(rt: HostRuntime) {
    assert!(rt; RefusalKind::TooLong.number() == 18 && RefusalKind::TooLong.name() == "TooLong");
}

fn is_string(bytes: &[u8]) -> bool {
    match CBytes::new(bytes) {
        Some(string) => string.bytes() == bytes,
        None => false,
    }
}

#[test]
fn a_string_has_no_zero_byte(rt: HostRuntime) {
    assert!(rt;
        [
            is_string(b"a\x01\xff"),
            is_string(b""),
            is_string(b"\0ab"),
            is_string(b"a\0b"),
            is_string(b"ab\0"),
            is_string(b"\0"),
        ] == [true, true, false, false, false, false]
    );
}

// Whether an argument has this type and this number.
fn is_arg(arg: Arg, arg_type: ArgType, number: Option<i128>) -> bool {
    arg.arg_type() == arg_type && arg.number() == number
}

#[test]
fn an_argument_has_its_type_and_number(rt: HostRuntime) {
    assert!(rt;
        [
            is_arg(Arg::Int(i32::MIN), ArgType::Int, Some(-2_147_483_648)),
            is_arg(Arg::UInt(u32::MAX), ArgType::UInt, Some(4_294_967_295)),
            is_arg(
                Arg::Long(i64::MIN),
                ArgType::Long,
                Some(-9_223_372_036_854_775_808)
            ),
            is_arg(
                Arg::ULong(u64::MAX),
                ArgType::ULong,
                Some(18_446_744_073_709_551_615)
            ),
            is_arg(Arg::LongLong(-1), ArgType::LongLong, Some(-1)),
            is_arg(
                Arg::ULongLong(u64::MAX),
                ArgType::ULongLong,
                Some(18_446_744_073_709_551_615)
            ),
        ] == [true; 6]
    );
    prints_once();
}

// Numbers at the ends of the range of a long in ILP32, and past them.
#[test]
fn an_argument_fits_its_type_in_a_model(rt: HostRuntime) {
    let model = Model::Ilp32;
    assert!(rt;
        [
            Arg::Int(i32::MIN).fits(model),
            Arg::UInt(u32::MAX).fits(model),
            Arg::Long(-2_147_483_648).fits(model),
            Arg::Long(2_147_483_647).fits(model),
            Arg::ULong(4_294_967_295).fits(model),
            Arg::LongLong(i64::MIN).fits(model),
            Arg::ULongLong(u64::MAX).fits(model),
            Arg::Long(-2_147_483_649).fits(model),
            Arg::Long(2_147_483_648).fits(model),
            Arg::ULong(4_294_967_296).fits(model),
        ] == [
            true, true, true, true, true, true, true, false, false, false
        ]
    );
}

// A string has no number and fits, in any data model.
fn is_text_argument(bytes: &[u8]) -> bool {
    match CBytes::new(bytes) {
        Some(text) => is_arg(Arg::Str(text), ArgType::Str, None)
            && Arg::Str(text).fits(Model::Ilp32),
        None => false,
    }
}

#[test]
fn a_string_is_an_argument(rt: HostRuntime) {
    assert!(rt; is_text_argument(b"7"));
}

// The caller in CALLING.md that `crates/uses` doesn't have.
fn type_of_a_padded_long(conv: Conv) -> Result<ArgType, RefusalKind> {
    let flags = FlagSet::empty().with(Flag::Minus);
    let directive = Directive::new(flags, Some(5), None, Length::L, conv)?;
    Ok(directive.arg_type(Model::Lp64))
}

#[test]
fn a_caller_gets_a_type_or_a_kind(rt: HostRuntime) {
    assert!(rt;
        [
            type_of_a_padded_long(Conv::U),
            type_of_a_padded_long(Conv::C)
        ] == [Ok(ArgType::ULong), Err(RefusalKind::Wide)]
    );
}
