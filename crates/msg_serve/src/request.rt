// What a line asks for.
ghost use Rattle.std.specs.Prelude.{◌≡◌, map, position};
ghost use Rattle.std.specs.Str.{bytes_eq};
ghost use Rattle.serde_json.specs.View.{view};
ghost use Rattle.msg_reading.specs.{ScenarioFormat.each_from, ScenarioFormat.post_at, ScenarioFormat.post_of, ScenarioFormat.type_named, inner.Elements.ReadsWith};
ghost use Rattle.msg_json.specs.Prelude.{Reads};
ghost use Rattle.msg_reading.specs.Declarations.{position_of};
ghost use Rattle.msg_serve.specs.Requests.{frame_read, is_for_readers, names_of, request_of};
ghost use Rattle.msg_serve.specs.inner.Answering.{request_seen};

use crate::limits::MAX_POSTS;
use msg_frames::{Frame, Items};
use msg_json::fault::at_step;
use msg_json::json::{list, text};
use msg_json::numbers::{number, whole_number};
use msg_json::{Fault, PathStep, Reason};
use msg_reading::{Name, Scenario, pair};
use msg_world::{MAX_TYPES, TypeNo};
use serde_json::Value;
use std::alloc::Global;

/// What the value of a line asks for.
#[derive(Debug, Drop)]
pub enum Request {
    /// A frame with these posts.
    Frame(Frame),
    /// The accounts of the readers.
    Readers,
}

/// What the value of a line asks for.
///
/// # Errors
///
/// The first fault of a frame, as that of a scenario file has it; or want of memory.
pub fn read_request(alloc: Global, scenario: &Scenario, line: &Value) -> Result<Request, Fault>
    ensures reads { Reads (request_of scenario.now (view line.now)) (request_seen result) }
{
    if is_for_readers(line) {
        return Ok(Request::Readers);
    }
    match read_frame(alloc, scenario, line) {
        Ok(frame) => Ok(Request::Frame(frame)),
        Err(fault) => Err(fault),
    }
}

/// Whether the value is the text `readers`.
fn is_for_readers(line: &Value) -> bool
    ensures is { result ≡ is_for_readers (view line.now) }
{
    match line.as_str() {
        Some(text) => text == "readers",
        None => false,
    }
}

/// The frame that a list of posts is.
fn read_frame(alloc: Global, scenario: &Scenario, line: &Value) -> Result<Frame, Fault>
    ensures reads { Reads (frame_read scenario.now (view line.now)) result }
{
    let items = list(line, MAX_POSTS)?;
    match read_posts(alloc, scenario, items) {
        Ok(posts) => Ok(Frame { posts }),
        Err(fault) => Err(fault),
    }
}

/// The posts of a frame.
fn read_posts(
    alloc: Global,
    scenario: &Scenario,
    items: &[Value],
) -> Result<Items<(TypeNo, i64)>, Fault>
    ensures reads { ReadsWith (each_from post_at (names_of scenario.now) 0 (map view items.now))
        (names_of scenario.now) result }
{
    let mut posts = Vec::new(alloc);
    for n in 0..items.len() {
        let post = at_step(PathStep::Item(n), read_post(scenario, &items[n]))?;
        posts.push(post)?;
    }
    Ok(Items::from_vec(posts))
}

/// A post: a list of a type and a value.
fn read_post(scenario: &Scenario, post: &Value) -> Result<(TypeNo, i64), Fault>
    ensures post { result ≡ post_of (names_of scenario.now) (view post.now) }
{
    let (name, value) = pair(post)?;
    let name = at_step(PathStep::Part(0), text(name))?;
    let value = at_step(PathStep::Part(1), number(value))?;
    let of_type = at_step(PathStep::Part(0), type_named(scenario, name))?;
    Ok((of_type, at_step(PathStep::Part(1), whole_number(value))?))
}

/// The number of the type of a name.
fn type_named(scenario: &Scenario, name: &str) -> Result<TypeNo, Fault>
    ensures of_type { result ≡ type_named (names_of scenario.now) name.now }
{
    match place_of(scenario, name) {
        Some(place) if place < MAX_TYPES => match TypeNo::new(place as u32) {
            Some(of_type) => Ok(of_type),
            None => unreachable!(),
        },
        _ => Err(Fault::here(Reason::NoType)),
    }
}

/// Where a name stands among those of the types.
fn place_of(scenario: &Scenario, name: &str) -> Option<usize>
    ensures place { result ≡ position_of (names_of scenario.now).types name.now }
{
    place_in(scenario.types.as_slice(), name)
}

/// Where a name stands among those of such types.
fn place_in(types: &[(Name, u64)], name: &str) -> Option<usize>
    ensures place { result ≡ position (λ named. bytes_eq name.now named.0) types.now }
{
    types.iter().position(|(known, _)| name == known.as_str())
}
