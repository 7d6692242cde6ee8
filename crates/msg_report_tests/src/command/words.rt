// What command lines ask for.
use crate::equal::{Have, expect_eq};
use msg_command::parse_words;
use std::process::Abort;

/// The words of a line, which blanks part.
fn words_of(rt: &(impl Abort + AllocGlobal), line: &str) -> Vec<String> {
    let mut words = Vec::new(rt.alloc());
    for word in line.split_whitespace() {
        words.push(word.to_string(rt.alloc()).have(rt)).have(rt);
    }
    words
}

/// Command lines, each before what it is parsed as.
const ACTIONS: [&str; 57] = [
    " => Ok(Buffer(None))",
    r#"buffer f => Ok(Buffer(Some("f")))"#,
    r#"buffer -- --help => Ok(Buffer(Some("--help")))"#,
    r#"buffer --explain f => Ok(BufferExplained("f"))"#,
    "buffer f --explain --explain => Err(Bad)",
    r#"run f => Ok(Run { file: "f", workers: 1 })"#,
    r#"run f --workers 7 => Ok(Run { file: "f", workers: 7 })"#,
    r#"run --workers 7 f => Ok(Run { file: "f", workers: 7 })"#,
    r#"run f --workers=64 => Ok(Run { file: "f", workers: 64 })"#,
    r#"run f --workers 1 => Ok(Run { file: "f", workers: 1 })"#,
    r#"run -- --workers => Ok(Run { file: "--workers", workers: 1 })"#,
    r#"run - --workers 2 => Ok(Run { file: "-", workers: 2 })"#,
    r#"run f --json --workers 2 => Ok(RunAsJson { file: "f", workers: 2 })"#,
    r#"run --json f => Ok(RunAsJson { file: "f", workers: 1 })"#,
    r#"run f --losses --workers 2 => Ok(RunWithLosses { file: "f", workers: 2 })"#,
    r#"run --losses f --json => Ok(RunAsJson { file: "f", workers: 1 })"#,
    r#"run f --explain --workers 2 => Ok(RunExplained { file: "f", workers: 2 })"#,
    r#"run f --explain --losses => Ok(RunWithLosses { file: "f", workers: 1 })"#,
    "run f --json=false => Err(Bad)",
    r#"serve f => Ok(Serve { file: "f", workers: 1 })"#,
    r#"serve f --workers 64 => Ok(Serve { file: "f", workers: 64 })"#,
    "serve f --workers 65 => Err(Bad)",
    "serve f --json => Err(Bad)",
    "serve f --losses => Err(Bad)",
    "serve f --explain => Err(Bad)",
    "run f --losses --losses => Err(Bad)",
    "run f --workers 0 => Err(Bad)",
    "run f --workers 65 => Err(Bad)",
    "run f --workers x => Err(Bad)",
    "run f --workers -1 => Err(Bad)",
    "run f --workers 4294967297 => Err(Bad)",
    "run f --workers= => Err(Bad)",
    "run f --workers => Err(Bad)",
    "run f --workers 2 --workers 3 => Err(Bad)",
    "run => Err(Bad)",
    "run --workers 7 => Err(Bad)",
    "run f g => Err(Bad)",
    "walk f => Err(Bad)",
    "walk run f => Err(Bad)",
    "--workers 7 => Err(Bad)",
    "--workers 7 run f => Err(Bad)",
    "buffer => Err(Bad)",
    "buffer f g => Err(Bad)",
    "walk buffer f => Err(Bad)",
    "f => Err(Bad)",
    "buffer --workers 2 f => Err(Bad)",
    r#"plan f => Ok(Plan { file: "f", frame: 1, dot: false })"#,
    r#"plan f --frame 7 => Ok(Plan { file: "f", frame: 7, dot: false })"#,
    r#"plan --dot f => Ok(Plan { file: "f", frame: 1, dot: true })"#,
    r#"plan --frame=10000 --dot f => Ok(Plan { file: "f", frame: 10000, dot: true })"#,
    "plan f --frame 0 => Err(Bad)",
    "plan f --frame 10001 => Err(Bad)",
    "plan f --frame x => Err(Bad)",
    "plan f --dot --dot => Err(Bad)",
    "plan f --dot=false => Err(Bad)",
    "plan --dot => Err(Bad)",
    "run f --dot => Err(Bad)",
];

#[test]
fn actions(rt: HostRuntime) {
    let rt = &rt;
    for row in &ACTIONS {
        let (line, want) = row.split_once(" => ").have(rt);
        let words = words_of(rt, line);
        let parsed = parse_words(rt.alloc(), words.as_slice());
        drop(words);
        let text = format!(in rt.alloc(); "{parsed:?}").have(rt);
        drop(parsed);
        expect_eq(rt, (line, text.as_str()), (line, want));
        drop(text);
    }
}
