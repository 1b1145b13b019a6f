// Where in an input a power cut can be planned.
use crate::lines::{add_line, is_newline};
use std::alloc::{AllocError, Global};

/// A place behind a line, from 1, where a plan of a power cut can stand, and where the steps end that it reaches: at the
/// next plan, at the next start-up, or with the input.
#[derive(Clone, Copy)]
pub struct Spot {
    pub line: u64,
    pub at: usize,
    pub end: usize,
}

/// These places: behind the configuration, and behind each plan and each start-up but the last line.
pub fn spots(alloc: Global, input: &[u8]) -> Result<Vec<Spot>, AllocError> {
    let mut spots: Vec<Spot> = Vec::new(alloc);
    let mut start: usize = 0;
    for (i, line) in input.split_inclusive(is_newline).enumerate() {
        let at = start.saturating_add(line.len());
        if i == 0 || ends_a_plan(line) {
            if let Some(last) = spots.last_mut() {
                last.end = start;
            }
            if at < input.len() {
                spots.push(Spot {
                    line: (i as u64).saturating_add(1),
                    at,
                    end: input.len(),
                })?;
            }
        }
        start = at;
    }
    Ok(spots)
}

// Whether no earlier plan stands behind this line.
fn ends_a_plan(line: &[u8]) -> bool {
    line.starts_with(b"cut ") || line.starts_with(b"restart")
}

/// The input with a plan at a place.
pub fn with_plan(
    alloc: Global,
    input: &[u8],
    at: usize,
    nth: u64,
    keep: u32,
) -> Result<Vec<u8>, AllocError> {
    let before = input.get(..at).unwrap_or(input);
    let behind = input.get(at..).unwrap_or(&[]);
    let step = format!(in alloc; "cut {nth} {keep}")?;
    let mut text = with_line(alloc, before, step.as_str())?;
    text.extend_from_slice(behind)?;
    Ok(text)
}

/// The input with one line more.
pub fn with_line(alloc: Global, input: &[u8], line: &str) -> Result<Vec<u8>, AllocError> {
    let mut text = input.to_vec(alloc)?;
    if !text.ends_with(b"\n") {
        text.push(b'\n')?;
    }
    add_line(&mut text, line)?;
    Ok(text)
}
