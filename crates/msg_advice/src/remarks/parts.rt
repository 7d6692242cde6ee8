// Types that are used in one way alone, or that the posts of the file alone fill past their limit,
// and resources that nothing uses.
use crate::names::{resource_name, type_name};
use crate::planned::Planned;
use crate::subject::Subject;
use crate::uses::{Use, uses};
use msg_reading::Scenario;
use msg_world::{NoMemory, ResNo, TypeNo};

pub(super) fn add_parts(
    text: &mut String,
    planned: &Planned,
    scenario: &Scenario,
) -> Result<(), NoMemory> {
    let types = Subject::Scenario(scenario).types(*text.allocator())?;
    add_one_sided(text, planned, scenario, &types, Use::Read)?;
    add_one_sided(text, planned, scenario, &types, Use::Write)?;
    add_crowded(text, scenario, &types)?;
    add_unused(text, planned, scenario)
}

/// Remarks on types that are used so, and never in the other way.
fn add_one_sided(
    text: &mut String,
    planned: &Planned,
    scenario: &Scenario,
    types: &[TypeNo],
    how: Use,
) -> Result<(), NoMemory> {
    let (other, is) = match how {
        Use::Read => (Use::Write, "read and never written"),
        Use::Write => (Use::Read, "written and never read"),
    };
    for t in types {
        if is_used(planned, scenario, how, *t) && !is_used(planned, scenario, other, *t) {
            let name = type_name(scenario, *t);
            writeln!(text, "remark: {name} is {is}")?;
        }
    }
    Ok(())
}

/// Whether a system uses the type so, or the host posts to it.
fn is_used(planned: &Planned, scenario: &Scenario, how: Use, t: TypeNo) -> bool {
    let mut turns = planned.turns().iter();
    turns.any(|system| uses(scenario, how, t, *system))
        || how == Use::Write && posts_to(scenario, t) > 0
}

/// How many posts of the file are to the type.
fn posts_to(scenario: &Scenario, t: TypeNo) -> u64 {
    let mut posts: u64 = 0;
    for frame in scenario.frames.as_slice() {
        let to_it = frame.posts.as_slice().iter().filter(|post| post.0 == t);
        posts = posts.saturating_add(to_it.count() as u64);
    }
    posts
}

fn add_crowded(text: &mut String, scenario: &Scenario, types: &[TypeNo]) -> Result<(), NoMemory> {
    for (t, (name, limit)) in types.iter().zip(scenario.types.as_slice()) {
        let posts = posts_to(scenario, *t);
        if posts > *limit {
            let name = name.as_str();
            write!(text, "remark: {name} has room for {limit} messages")?;
            writeln!(text, ", and there are {posts} posts to it")?;
        }
    }
    Ok(())
}

fn add_unused(text: &mut String, planned: &Planned, scenario: &Scenario) -> Result<(), NoMemory> {
    let resources = Subject::Scenario(scenario).resources(*text.allocator())?;
    for r in resources.as_slice() {
        if !is_needed(planned, *r) {
            let name = resource_name(scenario, *r);
            writeln!(text, "remark: {name} is used by no system")?;
        }
    }
    Ok(())
}

fn is_needed(planned: &Planned, r: ResNo) -> bool {
    planned.turns().iter().any(|system| {
        let access = planned.access(*system);
        access.reads_res(r) || access.writes_res(r)
    })
}
