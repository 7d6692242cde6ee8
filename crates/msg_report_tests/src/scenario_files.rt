// Scenario files that are accepted, and that are refused.
ghost use Rattle.msg_reading.specs.Prelude.{IsRunnable};

use crate::equal::{Have, expect_eq};
use crate::reports::LAG;
use crate::texts::{expect_refusal, long_file, nested, wanted};
use msg_scenario::{FileFault, Refusal, Scenario, check_calls, check_scenario, read_scenario};
use std::process::Abort;

/// The scenario of a text that is accepted.
pub fn accepted(rt: &(impl Abort + AllocGlobal), text: &str) -> Scenario
    ensures runnable { IsRunnable result }
{
    read_scenario(rt.alloc(), text.as_bytes()).have(rt)
}

/// A file is refused so, or accepted: the text itself, or of systems alone a file with them and the
/// type `hit`. A failure shows the row.
fn expect_read(rt: &(impl Abort + AllocGlobal), text: &str, want: &str, row: &str) {
    let file = if text.starts_with(r#"{"name""#) {
        format!(in rt.alloc(); r#"{{"types":[["hit",9]],"systems":[{text}],"frames":[]}}"#)
    } else {
        text.to_string(rt.alloc())
    };
    let file = file.have(rt);
    let refused = read_scenario(rt.alloc(), file.as_bytes()).err();
    drop(file);
    expect_refusal(rt, refused, want, row);
}

/// Files, or their systems, each behind the refusal that it gets.
const REFUSALS: [&str; 34] = [
    r#"BadName {"types":[["Hit",1]],"systems":[],"frames":[]}"#,
    r#"BadName {"types":[["host",1]],"systems":[],"frames":[]}"#,
    r#"BadName {"types":[["aaaaaaaaaaaaaaaaaaaaaaaaaaaaaaaaa",1]],"systems":[],"frames":[]}"#,
    r#"Ok {"types":[["aaaaaaaaaaaaaaaaaaaaaaaaaaaaaaaa",1]],"systems":[],"frames":[]}"#,
    r#"Ok {"types":[["hit",1]],"resources":[["hit",-5]],"systems":[],"frames":[[],[]]}"#,
    r#"TwiceNamed {"types":[["hit",1],["hit",2]],"systems":[],"frames":[]}"#,
    r#"BadNumber {"types":[["hit",1.5]],"systems":[],"frames":[]}"#,
    r#"BadNumber {"types":[["hit",-1]],"systems":[],"frames":[]}"#,
    r#"BadNumber {"types":[["hit",1000001]],"systems":[],"frames":[]}"#,
    r#"BadNumber {"types":[["hit",99999999999999999999]],"systems":[],"frames":[]}"#,
    r#"UnknownName {"types":[],"systems":[],"frames":[[["hat",1]]]}"#,
    "NotJson ",
    r#"NotJson {"types":"#,
    "Shape []",
    r#"Shape {"types":[]}"#,
    r#"UnknownKey {"types":[["Hit",-1]],"x":1}"#,
    r#"UnknownKey {"types":[],"systems":[],"frames":[],"x":1}"#,
    r#"BadName {"types":[["Hit",-1]],"systems":[],"frames":[]}"#,
    r#"Shape {"frames":[[["hat",1]]],"types":[],"systems":7}"#,
    r#"UnknownName {"types":[],"systems":[{"name":"a","ops":[]}],"rules":[["a","z"]],"frames":[]}"#,
    r#"Clash(0) {"types":[["h",1]],"systems":[{"name":"a","ops":[["read","h"],["write","h",1]]}],"rules":[["a","a"]],"frames":[]}"#,
    r#"Clash(0) {"types":[["hit",10]],"systems":[{"name":"r","ops":[["read","hit"],["write","hit",1]]}],"frames":[]}"#,
    r#"Cycle(0) {"types":[["x",10],["y",10]],"systems":[{"name":"s0","ops":[["write","x",1]]},{"name":"s1","ops":[["write","y",2]]},{"name":"s2","ops":[["read","y"]]},{"name":"s3","ops":[["read","x"]]}],"rules":[["s0","s1"],["s1","s0"]],"frames":[[]]}"#,
    r#"Cycle(1) {"types":[["x",10],["y",10]],"systems":[{"name":"s0","ops":[["write","x",1]]},{"name":"s1","ops":[["write","y",2]]},{"name":"s2","ops":[["read","y"]]},{"name":"s3","ops":[["read","x"]]}],"rules":[["s1","s1"]],"frames":[[]]}"#,
    r#"Cycle(1) {"types":[],"systems":[{"name":"s0","ops":[]},{"name":"s1","ops":[]},{"name":"s2","ops":[]}],"rules":[["s0","s1"],["s1","s2"],["s2","s1"]],"frames":[]}"#,
    r#"Clash(0) {"name":"a","ops":[["forward","hit","hit"]]}"#,
    r#"Clash(1) {"name":"a","ops":[]},{"name":"b","ops":[["drain","hit"],["len","hit"]]}"#,
    r#"UnknownKey {"name":"A","ops":[],"y":0}"#,
    r#"BadName {"name":"é","ops":[]}"#,
    r#"UnknownName {"name":"a","ops":[["read","hat",-1]]}"#,
    r#"Shape {"name":"a","ops":[["read","hat","k"]]}"#,
    r#"BadNumber {"name":"a","ops":[["read","hit",1000001]]}"#,
    r#"Shape {"name":"a","kind":"relay","ops":[["read","hit"]]}"#,
    r#"UnknownName {"name":"a","kind":"relay","ops":[["read","hat"]]}"#,
];

#[test]
fn refusals(rt: HostRuntime) {
    let rt = &rt;
    for row in &REFUSALS {
        let (want, text) = wanted(rt, row);
        expect_read(rt, text, want, row);
    }
    let no_text = read_scenario(rt.alloc(), b"\xff").err();
    expect_eq(rt, no_text, Some(Refusal::NotJson));
}

/// Files with a list that is too long, each behind how it is refused, the list's length and its
/// item. The first item of the last one is bad too.
const LONG: [&str; 3] = [
    r#"TooMany 65 0 {"types":[*],"systems":[],"frames":[]}"#,
    r#"TooMany 257 0 {"types":[["hit",9]],"systems":[*],"frames":[]}"#,
    r#"TooMany 1024 1 {"name":"a","ops":[["batch","hit",[1.5,*]]]}"#,
];

#[test]
fn long_files(rt: HostRuntime) {
    let rt = &rt;
    for row in &LONG {
        let (want, text) = long_file(rt, row);
        expect_read(rt, text.as_str(), want, row);
        drop(text);
    }
}

/// A system whose condition has so many `not`s is refused so.
fn expect_nots(rt: &(impl Abort + AllocGlobal), nots: usize, want: &str) {
    let condition = nested(rt, r#"["not","#, nots, r#"["on_message","hat"]"#, "]");
    let system = format!(in rt.alloc(); r#"{{"name":"a","ops":[],"if":[{condition}]}}"#).have(rt);
    expect_read(rt, system.as_str(), want, system.as_str());
    drop((condition, system));
}

/// Sixteen `not`s are read, and seventeen are too many. A list of a hundred others is no scenario.
#[test]
fn deep_files(rt: HostRuntime) {
    let rt = &rt;
    expect_nots(rt, 16, "UnknownName");
    expect_nots(rt, 17, "TooMany");
    let lists = nested(rt, "[", 100, "", "]");
    expect_read(rt, lists.as_str(), "Shape", lists.as_str());
    drop(lists);
}

#[test]
fn cut_files(rt: HostRuntime) {
    drop(accepted(&rt, LAG));
    for n in 0..LAG.len() {
        let cut = read_scenario(rt.alloc(), &LAG.as_bytes()[..n]).err();
        expect_eq(&rt, (n, cut), (n, Some(Refusal::NotJson)));
    }
}

/// Bytes that are no JSON text are refused with the line and the column where that shows.
#[test]
fn faults_of_texts(rt: HostRuntime) {
    let rt = &rt;
    expect_no_json(rt, "", 1, 0);
    expect_no_json(rt, "{\"limit\":", 1, 9);
    expect_no_json(rt, "{\n\"types\": [,]}", 2, 11);
    expect_no_json(rt, "[1]\n\n 7", 3, 2);
}

/// The text is neither a scenario file nor a calls file: it shows on this line and at this column.
fn expect_no_json(rt: &(impl Abort + AllocGlobal), text: &str, line: usize, column: usize) {
    let want = Some(FileFault::NotJson { line, column });
    let scenario = check_scenario(rt.alloc(), text.as_bytes()).err();
    expect_eq(rt, (text, scenario), (text, want));
    let calls = check_calls(rt.alloc(), text.as_bytes()).err();
    expect_eq(rt, (text, calls), (text, want));
}
