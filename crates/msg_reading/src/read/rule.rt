// One rule: two systems, of which the first runs before the second.
ghost use Rattle.std.specs.Prelude.{◌≡◌};
ghost use Rattle.serde_json.specs.View.{view};
ghost use Rattle.msg_reading.specs.ScenarioFormat.{rule_at, rule_of};

use crate::Fault;
use crate::read::list::Element;
use crate::read::names::Declarations;
use crate::read::part::pair;
use msg_json::PathStep;
use msg_json::fault::at_step;
use msg_json::json::text;
use msg_order::Rule;
use serde_json::Value;
use std::alloc::Global;

impl Element for Rule {
    ghost reads = { rule_at };

    fn read(
        _alloc: Global,
        names: &mut Declarations,
        n: usize,
        value: &Value,
    ) -> Result<Rule, Fault> {
        at_step(PathStep::Element(n), read_rule(names, value))
    }
}

fn read_rule(names: &Declarations, value: &Value) -> Result<Rule, Fault>
    ensures reads { result ≡ rule_of names.now (view value.now) }
{
    let (earlier, later) = pair(value)?;
    let earlier = at_step(PathStep::Part(0), text(earlier))?;
    let later = at_step(PathStep::Part(1), text(later))?;
    let earlier = at_step(PathStep::Part(0), names.system_no(earlier))?;
    let later = at_step(PathStep::Part(1), names.system_no(later))?;
    Ok(Rule { earlier, later })
}
