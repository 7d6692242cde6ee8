// What is told of a file that is refused.
use crate::explanation::fault_lines;
use crate::not_json::not_json_line;
use crate::repeated::repeated_line;
use crate::unfit::unfit_lines;
use msg_json::json::parse;
use msg_json::{Fault, FileFault, Reason};
use msg_reading::read_sections;
use msg_world::NoMemory;
use serde_json::Value;
use std::alloc::Global;

/// The lines that tell where the bytes of a file are refused for this fault, and why.
pub fn refused_lines(alloc: Global, bytes: &[u8], fault: FileFault) -> Result<Vec<u8>, NoMemory> {
    let fault = match fault {
        FileFault::NotJson { line, column } => return not_json_line(alloc, bytes, line, column),
        FileFault::At(fault) if matches!(fault.reason, Reason::NoMemory) => return Err(NoMemory),
        FileFault::At(fault) => fault,
    };
    let repeated = repeated_line(alloc, bytes)?;
    let Ok(value) = parse(alloc, bytes) else {
        return Err(NoMemory);
    };
    let lines = value_lines(alloc, &fault, &value, &repeated);
    drop(value);
    lines
}

/// The lines that tell of a fault of a value, what there is to tell of a scenario that is refused as
/// a whole, and the line of a repeated key.
pub fn value_lines(
    alloc: Global,
    fault: &Fault,
    value: &Value,
    repeated: &[u8],
) -> Result<Vec<u8>, NoMemory> {
    let mut text = fault_lines(alloc, fault, value)?.into_bytes();
    if matches!(fault.reason, Reason::Clash(_) | Reason::Cycle(_)) {
        match read_sections(alloc, value) {
            Ok(scenario) => {
                text.extend_from_slice(&unfit_lines(alloc, &scenario, fault.reason)?)?;
            }
            Err(fault) if matches!(fault.reason, Reason::NoMemory) => return Err(NoMemory),
            Err(_) => {}
        }
    }
    text.extend_from_slice(repeated)?;
    Ok(text)
}
