//! Files, from their bytes to what a sink takes.
ghost use Rattle.std.specs.Prelude.{◌≡◌, [], IfSome, Some};
ghost use Rattle.msg_scenario.specs.Prelude.{IsReported};
ghost use Rattle.msg_scenario.specs.FromBytes.{IsOfScenario};
ghost use Rattle.msg_scenario.specs.declared.reports.accounts.Readers.TheVariants.{Plain};

use msg_exec::Workers;
use msg_scenario::laws::each_file_has_one_report;
use msg_scenario::{MemorySink, report_bytes};
use std::thread::Threads;

/// The report of a file on these workers; None if it doesn't come to its end.
fn report_on<R: Threads + Sync + AllocGlobal>(
    rt: &R,
    bytes: &[u8],
    workers: Workers,
) -> Option<MemorySink>
    ensures reported { IfSome result (λ sink. IsOfScenario bytes.now (λ scenario.
        IsReported Plain scenario (Some []) (Some sink.contents))) }
{
    let mut sink = MemorySink::new();
    match report_bytes(rt, bytes, workers, &mut sink) {
        Ok(()) => Some(sink),
        Err(_) => None,
    }
}

/// Two reports of a file, each on workers of its own.
pub fn report_twice<R: Threads + Sync + AllocGlobal>(
    rt: &R,
    bytes: &[u8],
    workers: (Workers, Workers),
) -> Option<(MemorySink, MemorySink)>

    // However many workers each has, and whatever the file: they are one text.
    ensures one_text { IfSome result (λ sinks. sinks.0.contents ≡ sinks.1.contents) }
{
    each_file_has_one_report();
    let one = report_on(rt, bytes, workers.0)?;
    let other = report_on(rt, bytes, workers.1)?;
    Some((one, other))
}
