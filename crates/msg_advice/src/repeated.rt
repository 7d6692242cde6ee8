// A key that stands twice in one object of a file: a JSON value keeps the last one alone.
use msg_json::{CALLS_KEYS, Key, SCENARIO_KEYS, SYSTEM_KEYS};
use msg_world::NoMemory;
use std::alloc::Global;

/// No known key has as many bytes.
const LONGEST: usize = 16;

/// What the next byte of a JSON text is part of.
#[derive(Clone, Copy)]
pub(crate) enum Within {
    Value,
    Text,
    Escape,
}

/// A JSON text that was read so far.
#[derive(Drop)]
struct SoFar {
    within: Within,
    /// The last text in it, or a front of that.
    text: Vec<u8>,
    /// The known keys of each object or list that is open.
    open: Vec<Vec<Key>>,
}

/// A line on the first known key of a JSON text that stands twice in one object; none if there is no
/// such key.
pub fn repeated_line(alloc: Global, bytes: &[u8]) -> Result<Vec<u8>, NoMemory> {
    let mut text = String::new(alloc);
    if let Some(key) = repeated_key(alloc, bytes)? {
        write!(text, "the key {} stands twice in one object", key.text())?;
        text.push_str(", and the last one counts\n")?;
    }
    Ok(text.into_bytes())
}

/// The first known key of a JSON text that stands in its object already.
fn repeated_key(alloc: Global, bytes: &[u8]) -> Result<Option<Key>, NoMemory> {
    let mut so_far = SoFar {
        within: Within::Value,
        text: Vec::new(alloc),
        open: Vec::new(alloc),
    };
    for byte in bytes {
        if let Some(key) = so_far.take(alloc, *byte)? {
            return Ok(Some(key));
        }
    }
    Ok(None)
}

impl SoFar {
    /// Reads one byte more; gives the key that ends there, if it is known and stands there again.
    fn take(&mut self, alloc: Global, byte: u8) -> Result<Option<Key>, NoMemory> {
        match (self.within, byte) {
            (Within::Value, b'"') => {
                self.text.clear();
                self.within = Within::Text;
            }
            (Within::Value, b'{' | b'[') => self.open.push(Vec::new(alloc))?,
            (Within::Value, b'}' | b']') => drop(self.open.pop()),
            (Within::Value, b':') => return self.end_key(),
            (Within::Text, b'"') => self.within = Within::Value,
            (Within::Text, _) => {
                if byte == b'\\' {
                    self.within = Within::Escape;
                }
                if self.text.len() < LONGEST {
                    self.text.push(byte)?;
                }
            }
            (Within::Escape, _) => self.within = Within::Text,
            (Within::Value, _) => {}
        }
        Ok(None)
    }

    /// Notes the last text as a key of the innermost object, unless it stands there already.
    fn end_key(&mut self) -> Result<Option<Key>, NoMemory> {
        let (Some(key), Some(keys)) = (known_key(&self.text), self.open.last_mut()) else {
            return Ok(None);
        };
        if keys.contains(&key) {
            return Ok(Some(key));
        }
        keys.push(key)?;
        Ok(None)
    }
}

fn known_key(text: &[u8]) -> Option<Key> {
    for keys in &[SCENARIO_KEYS, SYSTEM_KEYS, CALLS_KEYS] {
        if let Some(key) = keys.iter().find(|key| key.text().as_bytes() == text) {
            return Some(*key);
        }
    }
    None
}
