//! Lines that wait to be written.

ghost use Rattle.std.specs.Prelude.{◌≡◌, ℕ, take, [], IfErr, OnOk, OnErr};
ghost use Rattle.std.specs.Io.KnownBytes.{Appends};
ghost use Rattle.kv_keys.specs.declared.error.KvError.TheVariants.{WriteFault};
ghost use Rattle.kv_replay.specs.inside.Written.{Pours};

use crate::output::Output;
use kv_keys::KvError;

// So many bytes of lines wait at the most, but for those that were made last.
const WAITING_BYTES: usize = 65_536;

/// Writes the lines that wait where they are many, 65,536 bytes or more. Refused, it leaves them, and a beginning of them
/// was written.
pub fn pour_many<K: Output>(out: &mut Vec<u8>, sink: &mut K) -> Result<(), KvError>
    ensures same { K.goes_on sink.old sink.new }
    ensures ok { OnOk result (Pours [] (K.held sink.old) out.old.items (K.held sink.new) out.new.items) }
    ensures err { OnErr result ((n : ℕ) × Appends (K.held sink.old) (K.held sink.new) (take n out.old.items)) }
    ensures fault { IfErr result (λ e. e ≡ WriteFault) }
    ensures failed { OnErr result (K.failed_between sink.old sink.new) }
{
    if out.len() >= WAITING_BYTES {
        sink.write(out)?;
        out.clear();
    }
    Ok(())
}
