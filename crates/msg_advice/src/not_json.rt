// What stands where bytes stop to be a JSON text, if that shows the cause. No clause says anything
// of these texts.
use crate::repeated::Within;
use msg_world::NoMemory;
use std::alloc::Global;

/// How many bytes of a word are shown at most.
const LONGEST: usize = 32;

/// What a reader has gone past.
#[derive(Drop)]
struct Passed {
    within: Within,
    /// The brackets that are open.
    open: Vec<u8>,
    /// The first bracket that closes one of the other kind, and the one that is wanted there.
    wrong: Option<(u8, u8)>,
    /// The last bracket, comma or colon; 0 if there is none.
    mark: u8,
    /// The last byte that is no space; 0 if there is none.
    last: u8,
}

/// The line that tells where a reader gave up, and if that is plain the cause.
pub fn not_json_line(
    alloc: Global,
    bytes: &[u8],
    line: usize,
    column: usize,
) -> Result<Vec<u8>, NoMemory> {
    let mut text = String::new(alloc);
    write!(text, "at line {line}, column {column}")?;
    let end = line_start(bytes, line).saturating_add(column);
    let all = Passed::over(alloc, bytes)?;
    if end >= bytes.len() && all.wants_more() {
        all.add_cause(&mut text, &[])?;
    } else {
        let (before, rest) = bytes.split_at(end.saturating_sub(1).min(bytes.len()));
        Passed::over(alloc, before)?.add_cause(&mut text, rest)?;
    }
    text.push_str("\n")?;
    Ok(text.into_bytes())
}

/// Where a line begins; lines count from 1.
fn line_start(bytes: &[u8], line: usize) -> usize {
    let (mut start, mut lines) = (0usize, 1usize);
    for (k, byte) in bytes.iter().enumerate() {
        if *byte == b'\n' && lines < line {
            lines = lines.saturating_add(1);
            start = k.saturating_add(1);
        }
    }
    start
}

/// The bracket that closes this one.
fn closing(open: u8) -> u8 {
    if open == b'{' { b'}' } else { b']' }
}

impl Passed {
    /// What a reader has gone past after these bytes.
    fn over(alloc: Global, bytes: &[u8]) -> Result<Passed, NoMemory> {
        let mut passed = Passed {
            within: Within::Value,
            open: Vec::new(alloc),
            wrong: None,
            mark: 0,
            last: 0,
        };
        for byte in bytes {
            passed.take(*byte)?;
        }
        Ok(passed)
    }

    fn take(&mut self, byte: u8) -> Result<(), NoMemory> {
        match (self.within, byte) {
            (Within::Escape, _) => self.within = Within::Text,
            (Within::Text, b'\\') => self.within = Within::Escape,
            (Within::Text, b'"') => self.within = Within::Value,
            (Within::Text, _) => {}
            (Within::Value, b'"') => self.within = Within::Text,
            (Within::Value, b'{' | b'[') => {
                self.open.push(byte)?;
                self.mark = byte;
            }
            (Within::Value, b'}' | b']') => self.close(byte),
            (Within::Value, b',' | b':') => self.mark = byte,
            (Within::Value, _) => {}
        }
        if !byte.is_ascii_whitespace() {
            self.last = byte;
        }
        Ok(())
    }

    fn close(&mut self, byte: u8) {
        self.mark = byte;
        if let Some(open) = self.open.pop()
            && closing(open) != byte
            && self.wrong.is_none()
        {
            self.wrong = Some((byte, closing(open)));
        }
    }

    /// Whether no JSON text ends here.
    fn wants_more(&self) -> bool {
        self.last == 0 || self.wrong.is_some() || !self.open.is_empty()
    }

    /// Adds the cause that shows in what was passed and in what comes next.
    fn add_cause(&self, text: &mut String, next: &[u8]) -> Result<(), NoMemory> {
        if let Some((found, wanted)) = self.wrong {
            let (found, wanted) = (char::from(found), char::from(wanted));
            return write!(
                text,
                ": before this {found} stands where {wanted} is wanted"
            );
        }
        let cause = match next {
            [] => return self.add_end(text),
            [0xEF, 0xBB, 0xBF, ..] => "a byte order mark, which editors don't show",
            [b'/', b'/' | b'*', ..] | [b'#', ..] => "a comment, and JSON has none",
            [b'\'', ..] => "a single quote, and texts stand in double quotes",
            [0xE2, 0x80, 0x98..=0x9F, ..] => "a curly quote, and texts stand in double quotes",
            [b'+', ..] => "a plus, and numbers have none before them",
            [b']', ..] if self.last == b',' => "a comma stands before ]",
            [b'}', ..] if self.last == b',' => "a comma stands before }",
            [b',', ..] => "a value is missing before the comma",
            [b':', ..] => "a key is a text in double quotes",
            [b'"', text @ ..] if !self.is_after_value() && !ends_on_line(text) => {
                "no quote ends this text on its line"
            }
            _ if self.last == b':' && self.open.last() == Some(&b'[') => {
                "before this a colon stands in a list"
            }
            _ => return self.add_missing(text, next),
        };
        write!(text, ": {cause}")
    }

    /// Adds what is missing at the end.
    fn add_end(&self, text: &mut String) -> Result<(), NoMemory> {
        match self.open.last() {
            Some(open) => write!(
                text,
                ": the end, and {} is missing",
                char::from(closing(*open))
            ),
            None => text.push_str(": the file is empty"),
        }
    }

    /// Adds what is missing before what comes next, or around it: quotes, a colon or a comma.
    fn add_missing(&self, text: &mut String, next: &[u8]) -> Result<(), NoMemory> {
        match (word_of(next), next) {
            (b"True", _) => text.push_str(": JSON writes true"),
            (b"False", _) => text.push_str(": JSON writes false"),
            (b"None", _) => text.push_str(": JSON writes null"),
            (word @ [first, ..], _) if !is_literal(word) && !first.is_ascii_digit() => {
                text.push_str(": ")?;
                for byte in word {
                    text.push(char::from(*byte))?;
                }
                text.push_str(" stands without double quotes")
            }
            (_, [byte, ..]) if self.is_after_value() => self.add_separator(text, *byte),
            _ => Ok(()),
        }
    }

    fn is_after_value(&self) -> bool {
        matches!(self.last, b'"' | b'}' | b']') || self.last.is_ascii_alphanumeric()
    }

    /// Adds what is missing between a value and this byte.
    fn add_separator(&self, text: &mut String, byte: u8) -> Result<(), NoMemory> {
        let is_closing = matches!(byte, b'}' | b']');
        let separator = match self.open.last() {
            None if byte.is_ascii_alphanumeric() => return Ok(()),
            None => return text.push_str(": the JSON text ended before this"),
            Some(_) if is_closing => return Ok(()),
            Some(b'{') if self.last == b'"' && self.mark != b':' => "colon",
            Some(_) => "comma",
        };
        write!(
            text,
            ": a {separator} is missing before {}",
            char::from(byte)
        )
    }
}

/// Whether a quote ends the text that bytes begin within, before a line feed.
fn ends_on_line(bytes: &[u8]) -> bool {
    let mut is_escaped = false;
    for byte in bytes {
        match byte {
            b'\n' => return false,
            b'"' if !is_escaped => return true,
            _ => is_escaped = *byte == b'\\' && !is_escaped,
        }
    }
    false
}

/// The word that bytes begin with, or a front of it.
fn word_of(bytes: &[u8]) -> &[u8] {
    let letters = bytes
        .iter()
        .position(|byte| !byte.is_ascii_alphanumeric() && *byte != b'_');
    &bytes[..letters.unwrap_or(bytes.len()).min(LONGEST)]
}

fn is_literal(word: &[u8]) -> bool {
    matches!(word, b"true" | b"false" | b"null")
}
