// Rows of tables of files, and texts made of pieces.
use crate::equal::{Have, expect_eq};
use msg_scenario::Refusal;
use std::process::Abort;

/// What stands before the first blank of a row, and what stands after it.
pub fn wanted<'a>(rt: &impl Abort, row: &'a str) -> (&'a str, &'a str) {
    row.split_once(' ').have(rt)
}

/// The refusal that came is `want`, which is `Ok` if the file has to be accepted. A failure
/// shows `text`.
pub fn expect_refusal(
    rt: &(impl Abort + AllocGlobal),
    came: Option<Refusal>,
    want: &str,
    text: &str,
) {
    let shown = match came {
        Some(refusal) => format!(in rt.alloc(); "{refusal:?}"),
        None => "Ok".to_string(rt.alloc()),
    };
    let shown = shown.have(rt);
    expect_eq(rt, (text, shown.as_str()), (text, want));
    drop(shown);
}

/// Adds a piece to a text.
fn push(rt: &impl Abort, text: &mut String, piece: &str) {
    text.push_str(piece).have(rt);
}

/// Of a row `WANT NUMBER ITEM FILE`: WANT, and FILE with NUMBER times ITEM in place of its star,
/// parted by commas.
pub fn long_file<'a>(rt: &(impl Abort + AllocGlobal), row: &'a str) -> (&'a str, String) {
    let (want, row) = wanted(rt, row);
    let (number, row) = wanted(rt, row);
    let (item, file) = wanted(rt, row);
    let number = number.parse::<usize>().have(rt);
    let (front, back) = file.split_once('*').have(rt);
    let mut text = String::new(rt.alloc());
    push(rt, &mut text, front);
    push_times(rt, &mut text, item, number);
    push(rt, &mut text, back);
    (want, text)
}

/// Adds a piece once and then, each time behind a comma, up to `number` times.
fn push_times(rt: &impl Abort, text: &mut String, piece: &str, number: usize) {
    push(rt, text, piece);
    for _ in 1..number {
        push(rt, text, ",");
        push(rt, text, piece);
    }
}

/// `open`, `depth` times, then `middle`, and then `close` as often.
pub fn nested(
    rt: &(impl Abort + AllocGlobal),
    open: &str,
    depth: usize,
    middle: &str,
    close: &str,
) -> String {
    let mut text = String::new(rt.alloc());
    for _ in 0..depth {
        push(rt, &mut text, open);
    }
    push(rt, &mut text, middle);
    for _ in 0..depth {
        push(rt, &mut text, close);
    }
    text
}
