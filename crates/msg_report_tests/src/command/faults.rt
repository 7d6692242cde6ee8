// The texts of faults, the lines that are printed of them, and the statuses that the program ends with.
use crate::equal::{Have, expect_eq, expect_text};
use crate::narrow::Narrow;
use msg_command::{InputFault, MainFault, WordFault, print_fault};
use msg_json::{PutFault, Refusal, ReportFault};
use msg_scenario::{AnswerFault, CheckFault, MemorySink};
use msg_world::RunFault;
use std::process::Abort;

const REFUSALS: [(Refusal, &str); 11] = [
    (Refusal::NotJson, "refused 1 NotJson"),
    (Refusal::Shape, "refused 2 Shape"),
    (Refusal::UnknownKey, "refused 3 UnknownKey"),
    (Refusal::BadName, "refused 4 BadName"),
    (Refusal::TwiceNamed, "refused 5 TwiceNamed"),
    (Refusal::BadNumber, "refused 6 BadNumber"),
    (Refusal::TooMany, "refused 7 TooMany"),
    (Refusal::UnknownName, "refused 8 UnknownName"),
    (Refusal::Clash(3), "refused 9 Clash(3)"),
    (Refusal::Cycle(3), "refused 10 Cycle(3)"),
    (Refusal::NoMemory, "refused 11 NoMemory"),
];

#[test]
fn refused_files(rt: HostRuntime) {
    let rt = &rt;
    for (refusal, text) in &REFUSALS {
        expect_text(rt, &MainFault::Refused(*refusal), text);
    }
    let told = MainFault::CheckFailed(Refusal::Shape, Vec::new(rt.alloc()));
    expect_text(rt, &told, "refused 2 Shape");
    drop(told);
    let told = CheckFault::Refused(Refusal::Shape, Vec::new(rt.alloc()));
    expect_text(rt, &told, "refused 2 Shape");
    drop(told);
}

/// What is printed of a refused file, and the status.
const REFUSED: &[(Refusal, &str, u8)] = &[
    (Refusal::NotJson, "msgrun: refused 1 NotJson\n", 2),
    (Refusal::Shape, "msgrun: refused 2 Shape\n", 2),
    (Refusal::UnknownKey, "msgrun: refused 3 UnknownKey\n", 2),
    (Refusal::BadName, "msgrun: refused 4 BadName\n", 2),
    (Refusal::TwiceNamed, "msgrun: refused 5 TwiceNamed\n", 2),
    (Refusal::BadNumber, "msgrun: refused 6 BadNumber\n", 2),
    (Refusal::TooMany, "msgrun: refused 7 TooMany\n", 2),
    (Refusal::UnknownName, "msgrun: refused 8 UnknownName\n", 2),
    (Refusal::Clash(3), "msgrun: refused 9 Clash\n", 2),
    (Refusal::Cycle(3), "msgrun: refused 10 Cycle\n", 2),
    (Refusal::NoMemory, "msgrun: want of memory\n", 1),
];

/// What is printed of input that isn't read, and the status.
const UNREAD: &[(InputFault, &str, u8)] = &[
    (InputFault::Failed, "msgrun: cannot read input\n", 1),
    (InputFault::TooLarge, "msgrun: input too large\n", 2),
    (InputFault::NoMemory, "msgrun: want of memory\n", 1),
];

/// What is printed of answers that aren't printed to their end, with status 1.
const UNTOLD: &[(ReportFault, &str)] = &[
    (
        ReportFault::Run(RunFault::Spoiled),
        "msgrun: run fault 1 Spoiled\n",
    ),
    (
        ReportFault::Run(RunFault::BadOrder),
        "msgrun: run fault 2 BadOrder\n",
    ),
    (
        ReportFault::Run(RunFault::NoMemory),
        "msgrun: run fault 3 NoMemory\n",
    ),
    (ReportFault::Write, "msgrun: write fault\n"),
    (ReportFault::NoMemory, "msgrun: want of memory\n"),
];

/// This is printed of a fault, with this status, which is the same if the sink fails at once.
fn expect_printed(rt: &impl Abort, fault: MainFault, printed: &str, status: u8) {
    let (mut sink, mut failing) = (MemorySink::new(), Narrow::new(0, 0, false));
    let found = (
        print_fault(&fault, &mut sink),
        print_fault(&fault, &mut failing),
    );
    drop(fault);
    expect_eq(rt, sink.bytes(), printed.as_bytes());
    expect_eq(rt, (printed, found), (printed, (status, status)));
    failing.expect(rt, u64::from(!printed.is_empty()), b"");
}

#[test]
fn printed_faults(rt: HostRuntime) {
    let rt = &rt;
    for (refusal, printed, status) in REFUSED {
        expect_printed(rt, MainFault::Refused(*refusal), printed, *status);
    }
    for (fault, printed, status) in UNREAD {
        expect_printed(rt, MainFault::Input(*fault), printed, *status);
    }
    for (fault, printed) in UNTOLD {
        expect_printed(rt, MainFault::Report(*fault), printed, 1);
    }
}

#[test]
fn printed_faults_without_a_table(rt: HostRuntime) {
    let rt = &rt;
    let want = "msgrun: want of memory\n";
    expect_printed(rt, MainFault::Built, want, 1);
    expect_printed(rt, MainFault::Words(WordFault::NoMemory), want, 1);
    let bad = MainFault::Words(WordFault::Bad);
    expect_printed(rt, bad, "msgrun: bad command line\n", 2);
    let help = WordFault::Help("its text".to_string(rt.alloc()).have(rt));
    expect_printed(rt, MainFault::Words(help), "", 0);
    let lines = Vec::from_slice(rt.alloc(), b"why\n").have(rt);
    let checked = MainFault::CheckFailed(Refusal::Cycle(3), lines);
    expect_printed(rt, checked, "msgrun: refused 10 Cycle\nwhy\n", 2);
}

const REPORTS: [(ReportFault, &str); 5] = [
    (
        ReportFault::Run(RunFault::Spoiled),
        "run fault: the engine is spoiled",
    ),
    (
        ReportFault::Run(RunFault::BadOrder),
        "run fault: the order isn't lawful",
    ),
    (
        ReportFault::Run(RunFault::NoMemory),
        "run fault: want of memory",
    ),
    (ReportFault::Write, "write fault"),
    (ReportFault::NoMemory, "want of memory"),
];

const INPUTS: [(InputFault, &str); 3] = [
    (InputFault::Failed, "cannot read input"),
    (InputFault::TooLarge, "input too large"),
    (InputFault::NoMemory, "want of memory"),
];

#[test]
fn reports_and_inputs(rt: HostRuntime) {
    let rt = &rt;
    for (fault, text) in &REPORTS {
        expect_text(rt, &MainFault::Report(*fault), text);
        expect_text(rt, &CheckFault::Report(*fault), text);
    }
    for (fault, text) in &INPUTS {
        expect_text(rt, &MainFault::Input(*fault), text);
    }
    expect_text(rt, &MainFault::Built, "want of memory");
    expect_text(rt, &PutFault, "the sink failed");
}

#[test]
fn words(rt: HostRuntime) {
    let rt = &rt;
    expect_words(rt, WordFault::Bad, "bad command line");
    expect_words(rt, WordFault::NoMemory, "want of memory");
    let help = "its text".to_string(rt.alloc()).have(rt);
    expect_words(rt, WordFault::Help(help), "its text");
}

fn expect_words(rt: &(impl Abort + AllocGlobal), fault: WordFault, text: &str) {
    let fault = MainFault::Words(fault);
    expect_text(rt, &fault, text);
    drop(fault);
}

#[test]
fn answer_faults_say_why(rt: HostRuntime) {
    const WHY: &[(AnswerFault, &str)] = &[
        (AnswerFault::Refused(Refusal::NotJson), "refused 1 NotJson"),
        (AnswerFault::NoMemory, "want of memory"),
        (AnswerFault::Report(ReportFault::Write), "write fault"),
        (AnswerFault::Input, "cannot read input"),
    ];
    for (fault, why) in WHY {
        expect_text(&rt, fault, why);
    }
}
