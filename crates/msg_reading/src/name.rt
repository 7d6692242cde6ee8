ghost use Rattle.std.specs.Prelude.{◌≡◌, ◌⊎◌, IfErr, IfOk, IsTrue};
ghost use Rattle.std.specs.List.{list_all};
ghost use Rattle.msg_reading.specs.Prelude.{is_name, is_name_character};

use crate::limits::MAX_NAME;
use msg_json::Refusal;
use std::alloc::Global;
use std::marker::Model;

/// The name of a type, a resource or a system: 1 to 32 characters, each of them `a` to `z`, `0` to
/// `9` or `_`; and not `host`, which is what reports call the host. Contracts see it as its bytes.
#[derive(Debug, Drop)]
pub struct Name {
    text: String,
}

impl Model for Name {
    ghost use Rattle.std.specs.Prelude.{string_bytes};
    ghost use Rattle.msg_json.specs.Prelude.{Text};

    ghost Value = { Text };

    ghost view = { λ n. string_bytes n.text };
}

impl Name {
    /// The name with this text.
    ///
    /// # Errors
    ///
    /// `BadName` if no name has this text, and `NoMemory`.
    pub fn new(alloc: Global, text: &str) -> Result<Name, Refusal>
        ensures bytes { IfOk result (λ name. name ≡ text.now) }
        ensures good { IfOk result (λ _. IsTrue (is_name text.now)) }
        ensures refused { IfErr result (λ e.
            ((e ≡ Refusal.BadName) × ¬ IsTrue (is_name text.now))
            ⊎ ((e ≡ Refusal.NoMemory) × IsTrue (is_name text.now))) }
    {
        if !is_name(text) {
            return Err(Refusal::BadName);
        }
        Ok(Name {
            text: text.to_string(alloc)?,
        })
    }

    /// Its text.
    pub fn as_str(&self) -> &str
        ensures bytes { result.now ≡ self.now }
    {
        self.text.as_str()
    }
}

/// Whether it is a good name.
fn is_name(name: &str) -> bool
    ensures { result ≡ is_name name.now }
{
    let bytes = name.as_bytes();
    1 <= bytes.len() && bytes.len() <= MAX_NAME && are_name_characters(bytes) && name != "host"
}

fn are_name_characters(bytes: &[u8]) -> bool
    ensures { result ≡ list_all is_name_character bytes.now }
{
    bytes.iter().all(|byte| is_name_character(*byte))
}

fn is_name_character(byte: u8) -> bool
    ensures { result ≡ is_name_character byte }
{
    matches!(byte, b'a'..=b'z' | b'0'..=b'9' | b'_')
}
