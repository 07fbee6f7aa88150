//! Which flags make options.

use super::*;

const CLASH: Result<Start, KvError> = Err(KvError::OptionsClash);

#[derive(Clone, Copy)]
struct Flags {
    history: bool,
    updates: bool,
    from: Option<u64>,
}

const NO_FLAG: Flags = Flags {
    history: false,
    updates: false,
    from: None,
};

const HISTORY: Flags = Flags {
    history: true,
    ..NO_FLAG
};

const UPDATES: Flags = Flags {
    updates: true,
    ..NO_FLAG
};

const FROM_SEVEN: Flags = Flags {
    from: Some(7),
    ..NO_FLAG
};

const FLAGS: &[(Flags, Result<Start, KvError>)] = &[
    (NO_FLAG, Ok(Start::Latest)),
    (HISTORY, Ok(Start::History)),
    (UPDATES, Ok(Start::Updates)),
    (FROM_SEVEN, Ok(Start::From(7))),
    (
        Flags {
            updates: true,
            ..HISTORY
        },
        CLASH,
    ),
    (
        Flags {
            history: true,
            ..FROM_SEVEN
        },
        CLASH,
    ),
    (
        Flags {
            updates: true,
            ..FROM_SEVEN
        },
        CLASH,
    ),
    (
        Flags {
            history: true,
            updates: true,
            ..FROM_SEVEN
        },
        CLASH,
    ),
];

#[test]
fn flags_name_one_start_or_clash(rt: HostRuntime) {
    for (flags, start) in FLAGS {
        let options = Options::of_flags(flags.history, flags.updates, flags.from, true, false);
        let wanted = match start {
            Ok(start) => Ok(Options {
                start: *start,
                ignore_deletes: true,
                headers_only: false,
            }),
            Err(error) => Err(*error),
        };
        assert!(rt; options == wanted);
    }
}
