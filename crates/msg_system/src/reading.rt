// Reading what is unread of a type.
ghost use Rattle.std.specs.Prelude.{◌≡◌, ◌<◌, [], IfOk, OnErr, OnOk, length};
ghost use Rattle.msg_buffer.specs.Prelude.{History, StandsFor, given};
ghost use Rattle.msg_world.specs.declared.record.Record.{Record};
ghost use Rattle.msg_system.specs.Prelude.{place_after_read, took};

use crate::{Items, NoMemory, Took};
use msg_buffer::{MessageCursor, Messages};
use msg_world::{Record, Value};

/// Reads at most `limit` unread messages, or all, into the empty list, and moves the cursor past
/// them.
#[inline(always)]
pub(crate) fn read_unread<V: Value>(
    list: Vec<Record<V>>,
    messages: &Messages<Record<V>>,
    cursor: &mut MessageCursor,
    limit: Option<u64>,
) -> Result<Took<V>, NoMemory>
    requires empty { list.items ≡ [] }
    ensures took { IfOk result (λ k. (h : History (Record V)) → StandsFor messages.now h
        → k ≡ took h cursor.old limit) }
    ensures place { OnOk result ((h : History (Record V)) → StandsFor messages.now h
        → cursor.new ≡ place_after_read h cursor.old limit) }

    // If nothing is given it asks for no memory. A refusal leaves the cursor where it was.
    ensures refused { OnErr result ((h : History (Record V)) → StandsFor messages.now h
        → 0 < length (given h cursor.old limit)) }
    ensures err { OnErr result (cursor.new ≡ cursor.old) }
{
    let missed = cursor.missed(messages);
    let first = cursor.place().max(messages.oldest());
    let unread = cursor.len(messages);
    let most = limit.unwrap_or(unread).min(unread);
    let mut items = list;
    items.reserve_exact(most as usize)?;
    let mut rest = cursor.read(messages);
    for _copied in 0..most {
        let Some((_id, record)) = rest.next() else {
            break;
        };
        items.push_reserved(*record);
    }
    Ok(Took {
        missed,
        first,
        items: Items::from_vec(items),
    })
}
