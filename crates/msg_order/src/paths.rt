// The paths of a growing graph: before each system those from which a path leads to it.
ghost use Rattle.std.specs.Prelude.{◌≡◌, ◌==◌, ◌||◌, ◌&&◌, ℕ, ◌<◌, ◌≤◌, [], true, false, length, nat_le, nat_lt, not, Bool, MatchOption};
ghost use Rattle.msg_order.specs.Prelude.{Graph, IsAcyclic, IsLowestOnCycle, NameSystemsBelow, TellsConflicts, rules_among};
ghost use Rattle.msg_order.specs.inner.Paths.{ArePaths, AreSettled, AreStarts, comes_before, conflict_among, set_at};
ghost use Rattle.msg_order.specs.inner.SystemSet.{has, meets};
ghost use Rattle.msg_order.specs.inner.Users.{AreUsers};

use crate::Rule;
use crate::system_set::SystemSet;
use crate::users::Users;
use msg_world::{Access, MAX_SYSTEMS};

/// The systems of a set, and those to which a path leads from one of these. `starts` has each
/// system from which a path leads on.
#[tactic(auto, using(crate::proofs::SetPaths::meets_past, crate::proofs::SetPaths::leads_nowhere))]
fn reached_from(before: &[SystemSet], starts: &SystemSet, to: &SystemSet) -> SystemSet
    requires few { length before.now ≤ MAX_SYSTEMS }
    requires starts { AreStarts before.now starts.now }
    ensures { (j : ℕ) → has result j ≡ (has to.now j || meets (set_at before.now j) to.now) }
{
    let mut reached = *to;
    if to.meets(starts) {
        for j in 0..before.len() {
            if before[j].meets(to) {
                reached.insert(j);
            }
        }
    }
    reached
}

/// Puts systems before each system of a set.
pub(crate) fn put_before(before: &mut [SystemSet], reached: &SystemSet, earlier: &SystemSet)
    requires few { length before.old ≤ MAX_SYSTEMS }
    requires within { (k : ℕ) → has reached.now k ≡ true → k < length before.old }
    ensures { (i j : ℕ)
        → comes_before before.new i j
        ≡ (comes_before before.old i j || (has reached.now j && has earlier.now i)) }
{
    let mut j = reached.next(0);
    'reached: while j < before.len() {
        let set = &mut before[j];
        set.union_with(earlier);
        j = reached.next(j + 1);
    }
}

/// Each system from which a path leads on.
#[tactic(auto, using(crate::proofs::SetPaths::none_past))]
fn starts_of(before: &[SystemSet]) -> SystemSet
    requires few { length before.now ≤ MAX_SYSTEMS }
    ensures { AreStarts before.now result }
{
    let mut starts = SystemSet::empty();
    for j in 0..before.len() {
        starts.union_with(&before[j]);
    }
    starts
}

/// Adds an edge from one system to each system of a set. `starts` has each system from which a path
/// leads on, before and after.
#[tactic(auto, using(crate::proofs::SetPaths::starts_more, crate::proofs::SetPaths::adds_none))]
pub fn add_edges(before: &mut [SystemSet], starts: &mut SystemSet, from: usize, to: &SystemSet)
    requires few { length before.old ≤ MAX_SYSTEMS }
    requires is_system { from < length before.old }
    requires within { (k : ℕ) → has to.now k ≡ true → k < length before.old }
    requires starts { AreStarts before.old starts.old }
    ensures edges { (i j : ℕ)
        → comes_before before.new i j
        ≡ (comes_before before.old i j
        || ((i == from || comes_before before.old i from)
        && (has to.now j || meets (set_at before.old j) to.now))) }
    ensures starts { AreStarts before.new starts.new }
{
    if to.is_empty() {
        return;
    }
    let mut earlier = before[from];
    earlier.insert(from);
    let reached = reached_from(before, starts, to);
    put_before(before, &reached, &earlier);
    starts.insert(from);
}

/// One system alone.
pub(crate) fn only(system: usize) -> SystemSet
    requires { system < MAX_SYSTEMS }
    ensures { (k : ℕ) → has result k ≡ (k == system) }
{
    let mut set = SystemSet::empty();
    set.insert(system);
    set
}

/// Adds the rules among the joined systems as edges, if there is no path already.
fn add_rules(before: &mut [SystemSet], rules: &[Rule], joined: &[bool])
    requires few { length before.old ≤ MAX_SYSTEMS }
    requires one_each { length joined.now ≡ length before.old }
    requires in_range { NameSystemsBelow (length before.old) rules.now }
    requires none_yet { ArePaths [] before.old }
    ensures { ArePaths (rules_among joined.now rules.now) before.new }
{
    let mut starts = SystemSet::empty();
    for rule in rules {
        let earlier = rule.earlier as usize;
        let later = rule.later as usize;
        if joined[earlier] && joined[later] && !before[later].contains(earlier) {
            add_edges(before, &mut starts, earlier, &only(later));
        }
    }
}

/// The later systems that system i conflicts with, but for those that stand before it. `passed` has
/// system i and those before it in number.
fn later_conflicts(
    users: &Users,
    accesses: &[Access],
    joined: &[bool],
    i: usize,
    passed: &SystemSet,
    before: &SystemSet,
) -> SystemSet
    requires users { AreUsers accesses.now joined.now users.now }
    requires passed { (j : ℕ) → has passed.now j ≡ nat_le j i }
    requires one_each { length joined.now ≡ length accesses.now }
    requires is_system { i < length accesses.now }
    ensures { (conflict : ℕ → ℕ → Bool) → TellsConflicts accesses.now joined.now conflict
        → (j : ℕ) → has result j
        ≡ (nat_lt i j && (conflict_among joined.now conflict i j && not (has before.now j))) }
{
    if !joined[i] {
        return SystemSet::empty();
    }
    let mut later = users.in_conflict_with(&accesses[i]);
    later.remove_all(passed);
    later.remove_all(before);
    later
}

/// Takes the pairs of systems in conflict in their order. For each system i it adds all edges to
/// later systems at once: an edge from i makes no new path to i.
fn settle_pairs(before: &mut [SystemSet], accesses: &[Access], joined: &[bool])
    requires few { length before.old ≤ MAX_SYSTEMS }
    requires one_each { length joined.now ≡ length before.old }
    requires all { length accesses.now ≡ length before.old }
    ensures { (g : Graph) → ArePaths g before.old
        → AreSettled accesses.now joined.now g before.new }
{
    let users = Users::of(accesses, joined);
    let mut starts = starts_of(before);
    let mut passed = SystemSet::empty();
    for i in 0..before.len() {
        passed.insert(i);
        let later = later_conflicts(&users, accesses, joined, i, &passed, &before[i]);
        add_edges(before, &mut starts, i, &later);
    }
}

/// The lowest system that stands before itself.
#[tactic(auto, using(crate::proofs::SetPaths::none_past))]
fn lowest_before_itself(before: &[SystemSet]) -> Option<u32>
    requires few { length before.now ≤ MAX_SYSTEMS }
    ensures { MatchOption result ((s : ℕ) → comes_before before.now s s ≡ false)
        (λ s. (comes_before before.now s s ≡ true)
        × ((r : ℕ) → r < s → comes_before before.now r r ≡ false)) }
{
    for s in 0..before.len() {
        if before[s].contains(s) {
            return Some(s as u32);
        }
    }
    None
}

/// Adds the rules among the joined systems as edges, and gives the lowest system on a cycle of
/// them.
#[tactic(auto, using(crate::proofs::SetPaths::lowest_by_sets))]
pub fn follow_rules(before: &mut [SystemSet], rules: &[Rule], joined: &[bool]) -> Option<u32>
    requires few { length before.old ≤ MAX_SYSTEMS }
    requires one_each { length joined.now ≡ length before.old }
    requires in_range { NameSystemsBelow (length before.old) rules.now }
    requires none_yet { ArePaths [] before.old }
    ensures { let among : Graph = rules_among joined.now rules.now in
        MatchOption result (IsAcyclic among × ArePaths among before.new)
        (IsLowestOnCycle among) }
{
    add_rules(before, rules, joined);
    lowest_before_itself(before)
}

/// Settles the order of the joined systems, or gives the lowest system on a cycle of rules.
pub fn settle(
    before: &mut [SystemSet],
    accesses: &[Access],
    rules: &[Rule],
    joined: &[bool],
) -> Option<u32>
    requires few { length before.old ≤ MAX_SYSTEMS }
    requires one_each { length joined.now ≡ length before.old }
    requires all { length accesses.now ≡ length before.old }
    requires in_range { NameSystemsBelow (length before.old) rules.now }
    requires none_yet { ArePaths [] before.old }
    ensures { let among : Graph = rules_among joined.now rules.now in
        MatchOption result
        (IsAcyclic among × AreSettled accesses.now joined.now among before.new)
        (IsLowestOnCycle among) }
{
    if let Some(s) = follow_rules(before, rules, joined) {
        return Some(s);
    }
    settle_pairs(before, accesses, joined);
    None
}
