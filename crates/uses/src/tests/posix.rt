//! What no run of the program shows of `pf_posix`: each public call once.
use pf_posix::laws::{
    accepted_or_refused, accepts_unnumbered, directives_once, errno_aside, judged_unnumbered,
    kinds_of_refusals, never_both, profile_types, read_once, refused_for_good, refused_once,
    refused_unnumbered_once, same_fits, table_has_each_once, types_are_kept, types_once,
};
use pf_posix::{DirectiveSpan, WholeArgType, arguments, directives, fits};
use pf_values::{ArgType, Model, RefusalKind};

mod callers;
mod stretches;

fn are_types_numbered() -> bool {
    for (index, kind) in WholeArgType::ALL.iter().enumerate() {
        if usize::from(kind.number()) != index + 1 {
            return false;
        }
    }
    true
}

#[test]
fn types_kinds_and_what_they_say(rt: HostRuntime) {
    assert!(rt; are_types_numbered() && RefusalKind::TwoTypes.name() == "TwoTypes");
    accepted_or_refused();
    never_both();
    types_once();
    directives_once();
    refused_once();
    refused_for_good();
    profile_types();
    same_fits();
    read_once();
    accepts_unnumbered();
    types_are_kept();
    judged_unnumbered();
    refused_unnumbered_once();
    table_has_each_once();
    kinds_of_refusals();
    errno_aside();
}

#[test]
fn no_room_and_some(rt: HostRuntime) {
    let mut types = [WholeArgType::Pointer; 3];
    let counts = [
        arguments(Model::Lp64, b"%*.*f", &mut []),
        arguments(Model::Lp64, b"%s%ld", &mut types),
    ];
    assert!(rt;
        counts == [Ok(3), Ok(2)]
            && types
                == [
                    WholeArgType::Profile(ArgType::Str),
                    WholeArgType::Profile(ArgType::Long),
                    WholeArgType::Pointer
                ]
            && fits(Model::Lp64, b"%zu", b"%lu") == Ok(None)
            && fits(Model::Llp64, b"%zu", b"%lu") == Ok(Some(0))
    );
}

#[test]
fn room_for_all_directives_but_one(rt: HostRuntime) {
    let mut some = [DirectiveSpan::default()];
    let mut all = [DirectiveSpan::default(); 3];
    let counts = [
        directives(Model::Lp64, b"%s%ld", &mut some),
        directives(Model::Llp64, b"%2$*1$.*3$zx%%", &mut all),
    ];
    let hexadecimal = DirectiveSpan {
        begin: 0,
        end: 12,
        argument: 1,
        width_argument: Some(0),
        precision_argument: Some(2),
        kind: WholeArgType::Profile(ArgType::ULongLong),
    };
    assert!(rt;
        counts == [Ok(2), Ok(1)]
            && some[0].kind == WholeArgType::Profile(ArgType::Str)
            && all
                == [
                    hexadecimal,
                    DirectiveSpan::default(),
                    DirectiveSpan::default()
                ]
    );
}
