ghost use Rattle.std.specs.Prelude.{◌≡◌};
ghost use Rattle.serde_json.specs.View.{view};
ghost use Rattle.msg_json.specs.Faults.{after, here, key_text};
ghost use Rattle.msg_json.specs.Keys.{count_keys, is_calls_file};

use serde_json::Value;

/// The keys of files and of systems.
#[derive(Clone, Copy, Debug, PartialEq, Eq)]
pub enum Key {
    Limit,
    Calls,
    Types,
    Resources,
    Held,
    Systems,
    Rules,
    Frames,
    Name,
    Kind,
    Ops,
    If,
    Join,
    Start,
}

impl Key {
    /// The key as it stands in a file.
    pub fn text(self) -> &'static str
        ensures text { result.now ≡ key_text self }
    {
        match self {
            Key::Limit => "limit",
            Key::Calls => "calls",
            Key::Types => "types",
            Key::Resources => "resources",
            Key::Held => "held",
            Key::Systems => "systems",
            Key::Rules => "rules",
            Key::Frames => "frames",
            Key::Name => "name",
            Key::Kind => "kind",
            Key::Ops => "ops",
            Key::If => "if",
            Key::Join => "join",
            Key::Start => "start",
        }
    }
}

/// The keys of calls files.
pub const CALLS_KEYS: &[Key] = &[Key::Limit, Key::Calls];

/// The keys of scenario files.
pub const SCENARIO_KEYS: &[Key] = &[
    Key::Types,
    Key::Resources,
    Key::Held,
    Key::Systems,
    Key::Rules,
    Key::Frames,
];

/// The keys of systems.
pub const SYSTEM_KEYS: &[Key] = &[
    Key::Name,
    Key::Kind,
    Key::Ops,
    Key::If,
    Key::Join,
    Key::Start,
];

/// Whether a value is to be a calls file: it has a key of these, and not more keys of scenarios.
pub fn is_calls_file(file: &Value) -> bool
    ensures is { result ≡ is_calls_file (view file.now) }
{
    let calls = count(CALLS_KEYS, file);
    calls > 0 && calls >= count(SCENARIO_KEYS, file)
}

/// How many of these keys an object has.
fn count(keys: &[Key], file: &Value) -> usize
    ensures count { result ≡ count_keys keys.now (view file.now) }
{
    keys.iter()
        .filter(|key| file.get(key.text()).is_some())
        .count()
}

/// A step from a value of a file to what stands within it.
#[derive(Clone, Copy, Debug, PartialEq, Eq)]
pub enum PathStep {
    /// To the section of this key.
    Section(Key),
    /// To this element of a section.
    Element(usize),
    /// To what an element has at this key.
    Key(Key),
    /// To this item of a list there.
    Item(usize),
    /// Into so many `not`s.
    Nots(u8),
    /// To this part of a list that has a head, or of a pair.
    Part(usize),
    /// To this value of a batch.
    Value(usize),
}

/// Where something stands in a file, level by level from its root, as in
/// `systems[7].ops[1][2][0]`. A level that isn't there is None.
#[derive(Clone, Copy, Debug, Default, PartialEq, Eq)]
pub struct Location {
    /// The key of the file.
    pub section: Option<Key>,
    /// The number of an element of that section.
    pub element: Option<usize>,
    /// The key of that element, which is a system.
    pub key: Option<Key>,
    /// The number of an item there: an op, a condition or a post.
    pub item: Option<usize>,
    /// How many `not`s stand round what is meant: each is one step `[1]`.
    pub nots: u8,
    /// The number of a part of a list that has a head, or of a pair.
    pub part: Option<usize>,
    /// The number of a value of a batch.
    pub value: Option<usize>,
    /// The number of a member of the object there, counted in order of its keys.
    pub member: Option<usize>,
}

impl Location {
    /// What is read itself.
    pub fn here() -> Location
        ensures here { result ≡ here }
    {
        Location::default()
    }

    /// A location within what this step leads to, as it is told from where the step begins.
    pub fn after(self, step: PathStep) -> Location
        ensures after { result ≡ after step self }
    {
        let mut location = self;
        match step {
            PathStep::Section(key) => location.section = Some(key),
            PathStep::Element(n) => location.element = Some(n),
            PathStep::Key(key) => location.key = Some(key),
            PathStep::Item(n) => location.item = Some(n),
            PathStep::Nots(nots) => location.nots = nots,
            PathStep::Part(n) => location.part = Some(n),
            PathStep::Value(n) => location.value = Some(n),
        }
        location
    }
}
