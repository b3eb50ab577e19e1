//! The callers in CALLING.md of `pf_posix`.
ghost use Rattle.std.specs.Prelude.{◌≡◌, IsTrue, List};
ghost use Rattle.pf_posix.specs.declared.types.WholeArgType.{WholeArgType as WholeArgTypeOf};
ghost use Rattle.pf_posix.specs.Items.{HasArguments};

use pf_posix::{WholeArgType, arguments, fits};
use pf_values::{ArgType, Model};

/// Whether a translated format is known to take just the arguments of the one in the program.
fn may_translate(model: Model, original: &[u8], translated: &[u8]) -> bool
    ensures { IsTrue result → (types others : List WholeArgTypeOf)
        × HasArguments model original.now types × HasArguments model translated.now others
        × (types ≡ others) }
{
    match fits(model, original, translated) {
        Ok(None) => true,
        Ok(Some(_)) => false,
        Err(_) => false,
    }
}

/// The type of the first argument of a format, if it takes one.
fn first_type(model: Model, format: &[u8]) -> Option<WholeArgType> {
    let mut types = [WholeArgType::Profile(ArgType::Int)];
    match arguments(model, format, &mut types) {
        Ok(0) => None,
        Ok(_) => Some(types[0]),
        Err(_) => None,
    }
}

#[test]
fn callers_of_argument_types(rt: HostRuntime) {
    let model = Model::Lp64;
    let answers = [
        may_translate(model, b"%s of %d", b"%2$d/%1$s"),
        may_translate(model, b"%.2f of %s", b"%.2f von %d"),
        may_translate(model, b"%d", b"%1$d%d"),
    ];
    let types = [
        first_type(model, b"%2$s %1$lc"),
        first_type(model, b"100%%"),
        first_type(model, b"%"),
    ];
    assert!(rt;
        answers == [true, false, false] && types == [Some(WholeArgType::WideChar), None, None]
    );
}
