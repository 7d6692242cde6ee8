ghost use Rattle.std.specs.Prelude.{◌≡◌, IfNone, IfSome};
ghost use Rattle.msg_order.specs.Order.{IsFirstUnknown, NameSystemsBelow};

/// One system runs before another. Systems are named by their number, by order of addition.
#[derive(Clone, Copy, Debug, PartialEq, Eq)]
pub struct Rule {
    pub earlier: u32,
    pub later: u32,
}

impl Rule {
    /// `system` runs before `other`.
    pub fn before(system: u32, other: u32) -> Self
        ensures earlier { result.earlier ≡ system }
        ensures later { result.later ≡ other }
    {
        Rule {
            earlier: system,
            later: other,
        }
    }

    /// `system` runs after `other`.
    pub fn after(system: u32, other: u32) -> Self
        ensures earlier { result.earlier ≡ other }
        ensures later { result.later ≡ system }
    {
        Rule {
            earlier: other,
            later: system,
        }
    }
}

/// The first rule that names a system which isn't among so many; None if there is no such rule.
pub fn first_unknown(systems: usize, rules: &[Rule]) -> Option<Rule>
    ensures unknown { IfSome result (IsFirstUnknown systems rules.now) }
    ensures named { IfNone result (NameSystemsBelow systems rules.now) }
{
    for rule in rules {
        if rule.earlier as usize >= systems || rule.later as usize >= systems {
            return Some(*rule);
        }
    }
    None
}
