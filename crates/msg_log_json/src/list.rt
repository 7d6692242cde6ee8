// Parts of a list or of an object.
ghost use Rattle.std.specs.Prelude.{◌≡◌, ◌++◌, OnOk, codes};
ghost use Rattle.msg_log_json.specs.Prelude.{comma_before};

use msg_buffer::NoMemory;

/// The comma before element k of a list; there is none before the first.
pub fn add_comma(text: &mut Vec<u8>, k: usize) -> Result<(), NoMemory>
    ensures appends { OnOk result (text.new.items ≡ text.old.items ++ comma_before k) }
{
    if k == 0 {
        return Ok(());
    }
    text.extend_from_slice(b",")
}
