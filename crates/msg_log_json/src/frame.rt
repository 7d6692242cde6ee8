// The line of one frame.
ghost use Rattle.std.specs.Prelude.{◌≡◌, ◌++◌, ◌≤◌, OnOk, codes, length, zip};
ghost use Rattle.msg_world.specs.Prelude.{IsWhole, PartsStand, WorldState, i64_values};
ghost use Rattle.msg_log_json.specs.Prelude as Spec;
ghost use Rattle.msg_log_json.specs.inner.KeptJson.{left_kept};

use crate::list::add_comma;
use crate::reply::add_reply;
use crate::turn::add_turns;
use crate::world::{add_resources, add_types};
use msg_buffer::NoMemory;
use msg_frames::{Frame, Log};
use msg_json::numerals::add_count;
use msg_reading::Scenario;
use msg_reading::names::add_type;
use msg_system::Reply;
use msg_world::{MAX_RESOURCES, MAX_TYPES, TypeNo, World};

/// The line of a frame that had this log, and left this world.
pub fn add_frame_line(
    text: &mut Vec<u8>,
    scenario: &Scenario,
    number: u64,
    frame: &Frame,
    log: &Log,
    world: &World,
) -> Result<(), NoMemory>
    requires whole { IsWhole world.now }
    requires few_types { length scenario.now.types ≤ MAX_TYPES }
    requires few_resources { length scenario.now.resources ≤ MAX_RESOURCES }
    requires types { length world.now.types ≡ length scenario.now.types }
    requires resources { length world.now.resources ≡ length scenario.now.resources }
    ensures appends { OnOk result
        ((w : WorldState i64_values) → PartsStand world.now w → text.new.items
        ≡ text.old.items ++ Spec.frame_line scenario.now number frame.now log.now w) }
{
    add_count(text, b"{\"frame\":", number)?;
    add_happened(text, scenario, frame, log)?;
    add_left(text, scenario, world)?;
    text.extend_from_slice(b"}\n")
}

/// What happened in the frame: the posts and the turns.
#[tactic(auto, unfolding(crate::specs::LogJson::happened_json))]
fn add_happened(
    text: &mut Vec<u8>,
    scenario: &Scenario,
    frame: &Frame,
    log: &Log,
) -> Result<(), NoMemory>
    ensures appends { OnOk result
        (text.new.items ≡ text.old.items ++ Spec.happened_json scenario.now frame.now log.now) }
{
    text.extend_from_slice(b",\"posts\":[")?;
    add_posts(text, scenario, frame.posts.as_slice(), log.posts.as_slice())?;
    text.extend_from_slice(b"]")?;
    text.extend_from_slice(b",\"turns\":[")?;
    add_turns(text, scenario, log.turns.as_slice())?;
    text.extend_from_slice(b"]")
}

/// What it left: the types and the resources.
fn add_left(text: &mut Vec<u8>, scenario: &Scenario, world: &World) -> Result<(), NoMemory>
    requires few_types { length scenario.now.types ≤ MAX_TYPES }
    requires few_resources { length scenario.now.resources ≤ MAX_RESOURCES }
    ensures appends { OnOk result
        (text.new.items ≡ text.old.items ++ left_kept scenario.now world.now) }
{
    text.extend_from_slice(b",\"types\":{")?;
    add_types(text, scenario, world)?;
    text.extend_from_slice(b"}")?;
    text.extend_from_slice(b",\"resources\":{")?;
    add_resources(text, scenario, world)?;
    text.extend_from_slice(b"}")
}

/// Each post of the host.
fn add_posts(
    text: &mut Vec<u8>,
    scenario: &Scenario,
    posts: &[(TypeNo, i64)],
    replies: &[Reply],
) -> Result<(), NoMemory>
    ensures appends { OnOk result (text.new.items ≡ text.old.items
        ++ Spec.listed (Spec.post_json scenario.now) (zip posts.now replies.now)) }
{
    for k in 0..posts.len().min(replies.len()) {
        add_comma(text, k)?;
        add_post(text, scenario, &posts[k], &replies[k])?;
    }
    Ok(())
}

/// A post to a type.
fn add_post(
    text: &mut Vec<u8>,
    scenario: &Scenario,
    post: &(TypeNo, i64),
    reply: &Reply,
) -> Result<(), NoMemory>
    ensures appends { OnOk result
        (text.new.items ≡ text.old.items ++ Spec.posted_json scenario.now post.now.0 reply.now) }
{
    text.extend_from_slice(b"{\"type\":\"")?;
    add_type(text, scenario, post.0)?;
    text.extend_from_slice(b"\"")?;
    add_reply(text, scenario, reply)?;
    text.extend_from_slice(b"}")
}
