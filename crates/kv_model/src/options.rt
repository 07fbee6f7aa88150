//! What a watch begins with, and how it shows writes.

ghost use Rattle.std.specs.Prelude.{◌≡◌, Ok, Err, IfOk, IfErr};
ghost use Rattle.kv_model.specs.Flags.{start_asked};

use kv_keys::KvError;

/// What a watch begins with.
#[derive(Clone, Copy, Debug, PartialEq, Eq)]
pub enum Start {
    /// The latest entry of each matching key.
    Latest,
    /// All retained matching entries.
    History,
    /// Nothing, and no end marker.
    Updates,
    /// The retained matching entries with this revision or a later one.
    From(u64),
}

/// What a watch begins with, and how it shows writes.
#[derive(Clone, Copy, Debug, PartialEq, Eq)]
pub struct Options {
    pub start: Start,
    /// Leaves out the markers of deletes and purges.
    pub ignore_deletes: bool,
    /// Shows no values.
    pub headers_only: bool,
}

// The start that the flags ask for.
fn start_asked(history: bool, updates: bool, from: Option<u64>) -> Result<Start, KvError>
    ensures { result ≡ start_asked history updates from }
{
    match from {
        Some(revision) => {
            if history || updates {
                return Err(KvError::OptionsClash);
            }
            Ok(Start::From(revision))
        }
        None => {
            if history && updates {
                return Err(KvError::OptionsClash);
            }
            if history {
                return Ok(Start::History);
            }
            if updates {
                return Ok(Start::Updates);
            }
            Ok(Start::Latest)
        }
    }
}

impl Options {
    /// The options that these flags ask for: with no flag for the start, the latest entries. Two of `history`,
    /// `updates` and `from` exclude each other.
    pub fn of_flags(
        history: bool,
        updates: bool,
        from: Option<u64>,
        ignore_deletes: bool,
        headers_only: bool,
    ) -> Result<Options, KvError>
        ensures ok { IfOk result (λ options. (start_asked history updates from ≡ Ok options.start)
            × (options.ignore_deletes ≡ ignore_deletes) × (options.headers_only ≡ headers_only)) }
        ensures err { IfErr result (λ e. start_asked history updates from ≡ Err e) }
    {
        let start = start_asked(history, updates, from)?;
        Ok(Options {
            start,
            ignore_deletes,
            headers_only,
        })
    }
}
