// One frame: a list of posts, each a type and a value.
ghost use Rattle.std.specs.Prelude.{◌≡◌};
ghost use Rattle.serde_json.specs.View.{view};
ghost use Rattle.msg_reading.specs.{ScenarioFormat.frame_at, ScenarioFormat.frame_of, ScenarioFormat.post_at, ScenarioFormat.post_of, inner.Elements.ReadsWith};

use crate::Fault;
use crate::limits::MAX_POSTS;
use crate::read::list::{Element, read_list};
use crate::read::names::Declarations;
use crate::read::part::{pair, type_and_value};
use msg_frames::Frame;
use msg_json::PathStep;
use msg_json::fault::at_step;
use msg_world::TypeNo;
use serde_json::Value;
use std::alloc::Global;

impl Element for Frame {
    ghost reads = { frame_at };

    fn read(
        alloc: Global,
        names: &mut Declarations,
        n: usize,
        value: &Value,
    ) -> Result<Frame, Fault> {
        at_step(PathStep::Element(n), read_frame(alloc, names, value))
    }
}

fn read_frame(alloc: Global, names: &mut Declarations, value: &Value) -> Result<Frame, Fault>
    ensures reads { ReadsWith (frame_of names.old (view value.now)) names.new result }
{
    let posts = read_list(alloc, names, value, MAX_POSTS)?;
    Ok(Frame { posts })
}

impl Element for (TypeNo, i64) {
    ghost reads = { post_at };

    fn read(
        _alloc: Global,
        names: &mut Declarations,
        n: usize,
        value: &Value,
    ) -> Result<(TypeNo, i64), Fault> {
        at_step(PathStep::Item(n), read_post(names, value))
    }
}

fn read_post(names: &Declarations, value: &Value) -> Result<(TypeNo, i64), Fault>
    ensures reads { result ≡ post_of names.now (view value.now) }
{
    let (of_type, value) = pair(value)?;
    type_and_value(names, 0, of_type, value)
}
