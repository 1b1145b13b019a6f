// Whether what start-ups found may stand.
use crate::allows_behind;
use crate::histories::read_history;
use crate::tally::Tally;
use crate::unread::Unread;
use block_machine::block_config::{Config, ConfigFault, read};
use block_machine::nv_base::{Entry, History, Instance, Mark, Marks};
use nvm_script::end_text;
use std::alloc::{AllocError, Global};

/// A mark that a start-up found in an instance, where none such may stand behind so many entries.
#[derive(Clone, Copy)]
pub struct Wrong {
    pub instance: Instance,
    pub behind: u32,
}

/// Judges a run of `play` by what it printed under its configuration: each start-up behind the first one, and one of a
/// further call that printed so. By `rows_histories`, each configured instance must be allowed the mark that was found
/// there behind the entries before, or Erased where none was listed. It counts what it judged, and gives the marks that
/// mustn't stand. A run without a start-up judges nothing of the further one.
pub fn judge(
    alloc: Global,
    configuration: &[u8],
    run: &[u8],
    further: &[u8],
    tally: &mut Tally,
) -> Result<Vec<Wrong>, Unread> {
    let config = config_of(alloc, configuration)?;
    let history = whole_history(alloc, &config, run)?;
    judge_run(alloc, &config, &history, further, tally)
}

fn config_of(alloc: Global, configuration: &[u8]) -> Result<Config, Unread> {
    match read(alloc, configuration) {
        Ok(config) => Ok(config),
        Err(ConfigFault::Broken { .. }) => Err(Unread::NoHistory),
        Err(ConfigFault::Memory) => Err(Unread::Memory),
    }
}

// Judges a run by its history, and by what a further call printed.
fn judge_run(
    alloc: Global,
    config: &Config,
    history: &History,
    further: &[u8],
    tally: &mut Tally,
) -> Result<Vec<Wrong>, Unread> {
    let further = whole_history(alloc, config, further)?;
    match further.entry(0) {
        Some(Entry::Found { marks, .. }) => {
            tally.add_run();
            Ok(judge_all(alloc, config, history, marks, tally)?)
        }
        _ => Err(Unread::NoHistory),
    }
}

// The history that a call of `play` printed, with the last line of its end or of a fault of the flash.
fn whole_history(alloc: Global, config: &Config, output: &[u8]) -> Result<History, Unread> {
    let printed = read_history(alloc, config, output)?;
    if is_last_line(alloc, &output[printed.length..], printed.history.len())? {
        return Ok(printed.history);
    }
    Err(Unread::NoHistory)
}

// Whether a text is the last line behind so many entries.
fn is_last_line(alloc: Global, text: &[u8], count: u32) -> Result<bool, AllocError> {
    let end = end_text(alloc, count)?;
    Ok(end.as_slice() == text || text == b"flash fault\n".as_slice())
}

// Judges each start-up of a history behind the first one, and one behind all of it that found these marks.
fn judge_all(
    alloc: Global,
    config: &Config,
    history: &History,
    marks: &Marks,
    tally: &mut Tally,
) -> Result<Vec<Wrong>, AllocError> {
    let mut wrong = Vec::new(alloc);
    judge_history(config, history, tally, &mut wrong)?;
    let count = history.len();
    if count > 0 {
        judge_marks(config, history, count, marks, tally, &mut wrong)?;
    }
    Ok(wrong)
}

// Counts the cuts of a history, and judges each start-up behind the first one.
fn judge_history(
    config: &Config,
    history: &History,
    tally: &mut Tally,
    wrong: &mut Vec<Wrong>,
) -> Result<(), AllocError> {
    for place in 1..history.len() {
        match history.entry(place) {
            Some(Entry::Off { .. }) => tally.add_cut(),
            Some(Entry::Found { marks, .. }) => {
                judge_marks(config, history, place, marks, tally, wrong)?;
            }
            _ => {}
        }
    }
    Ok(())
}

// Judges a start-up that found these marks behind the first entries of a history.
fn judge_marks(
    config: &Config,
    history: &History,
    behind: u32,
    marks: &Marks,
    tally: &mut Tally,
    wrong: &mut Vec<Wrong>,
) -> Result<(), AllocError> {
    tally.add_start_up();
    for place in 0..config.blocks() {
        let block = place + 1;
        for index in 0..instances_of(config, block) {
            let instance = Instance { block, index };
            let is_allowed = match listed(marks, instance) {
                Some(mark) => judge_mark(config, history, behind, instance, mark, tally),
                None => judge_mark(config, history, behind, instance, &Mark::Erased, tally),
            };
            if !is_allowed {
                wrong.push(Wrong { instance, behind })?;
            }
        }
    }
    Ok(())
}

fn instances_of(config: &Config, block: u16) -> u8 {
    match config.block(block) {
        Some(desc) => desc.kind.instances(desc.nv),
        None => 0,
    }
}

// The mark that is listed for an instance.
fn listed(marks: &Marks, instance: Instance) -> Option<&Mark> {
    for i in 0..marks.len() {
        if let Some((at, mark)) = marks.get(i)
            && at == instance
        {
            return Some(mark);
        }
    }
    None
}

// Counts a mark, and tells whether it is allowed.
fn judge_mark(
    config: &Config,
    history: &History,
    behind: u32,
    instance: Instance,
    mark: &Mark,
    tally: &mut Tally,
) -> bool {
    tally.add_mark(mark);
    behind <= history.len() && allows_behind(config, history, behind, instance, mark)
}
