// The step that a line spells, without its caller.
ghost use Rattle.std.specs.Prelude.{◌≡◌, IfOk, MatchOption};
ghost use Rattle.nvm_script.specs.Reading.{without_fields as read_without, of_block as read_block, with_one as read_one, with_number as read_number, with_content as read_content, cut_place as read_place, with_two as read_two, spelled as read_text};
ghost use Rattle.nvm_script.specs.Step.{IsStep};
ghost use Rattle.nvm_script.specs.declared.step.StepKind.{StepKind as Kind};

use crate::cut::cut;
use crate::number::number_of;
use crate::rules::settled;
use crate::word::{Word, word_of};
use crate::{Mode, StepKind};
use block_config::{Config, read_content};
use nv_base::Request;
use std::alloc::{AllocError, Global};

fn ask(request: Request) -> Option<StepKind>
    ensures { result ≡ Some (StepKind.Ask request) }
{
    Some(StepKind::Ask(request))
}

// A word alone.
fn without_fields(word: Word) -> Option<StepKind>
    ensures { result ≡ read_without word }
{
    match word {
        Word::ReadAll => ask(Request::ReadAll),
        Word::WriteAll => ask(Request::WriteAll),
        Word::Cancel => ask(Request::CancelWriteAll),
        Word::Drain => Some(StepKind::Drain),
        Word::Restart => Some(StepKind::Restart),
        _ => None,
    }
}

// A word with a block.
fn of_block(word: Word, block: u16) -> Option<StepKind>
    ensures { result ≡ read_block word block }
{
    match word {
        Word::Read => ask(Request::Read { block, ram: false }),
        Word::ReadRam => ask(Request::Read { block, ram: true }),
        Word::WriteRam => ask(Request::Write {
            block,
            content: None,
            store: 0,
        }),
        Word::Restore => ask(Request::Restore { block, ram: false }),
        Word::RestoreRam => ask(Request::Restore { block, ram: true }),
        Word::Erase => ask(Request::Erase { block }),
        Word::Invalidate => ask(Request::Invalidate { block }),
        Word::GetIndex => ask(Request::GetIndex { block }),
        Word::Status => ask(Request::Status { block }),
        Word::Await => Some(StepKind::Await { block }),
        _ => None,
    }
}

// A word with one field.
fn with_one(word: Word, field: &[u8]) -> Option<StepKind>
    ensures { result ≡ read_one word field.now }
{
    match word {
        Word::Turn => {
            let count = number_of(field, 1, 100_000)?;
            Some(StepKind::Turn { count })
        }
        _ => {
            let block = number_of(field, 0, 65_535)?;
            of_block(word, block as u16)
        }
    }
}

// A word with a block and a number.
fn with_number(word: Word, block: u16, field: &[u8]) -> Option<StepKind>
    ensures { result ≡ read_number word block field.now }
{
    match word {
        Word::SetIndex => {
            let index = number_of(field, 0, 255)?;
            ask(Request::SetIndex {
                block,
                index: index as u8,
            })
        }
        Word::Protect => {
            let on = number_of(field, 0, 1)? == 1;
            ask(Request::SetProtection { block, on })
        }
        Word::Lock => {
            let on = number_of(field, 0, 1)? == 1;
            ask(Request::SetLock { block, on })
        }
        Word::SetRam => {
            let on = number_of(field, 0, 1)? == 1;
            ask(Request::SetRam { block, on })
        }
        Word::Refuse => {
            let count = number_of(field, 1, 1000)?;
            Some(StepKind::Refuse { block, count })
        }
        _ => None,
    }
}

// A word with a block and a content.
fn with_content(
    alloc: Global,
    word: Word,
    block: u16,
    field: &[u8],
) -> Result<Option<StepKind>, AllocError>
    ensures { IfOk result (λ o. o ≡ read_content word block field.now) }
{
    let Some(content) = read_content(alloc, field)? else {
        return Ok(None);
    };
    match word {
        Word::Ram => Ok(ask(Request::PutRam { block, content })),
        _ => Ok(ask(Request::Write {
            block,
            content: Some(content),
            store: 0,
        })),
    }
}

// Where the power is cut: at which operation, and how many of its bytes are done.
fn cut_place(first: &[u8], second: &[u8]) -> Option<(u32, u32)>
    ensures { result ≡ read_place first.now second.now }
{
    let nth = number_of(first, 1, 1_000_000)?;
    let keep = number_of(second, 0, 256)?;
    Some((nth, keep))
}

// A word with two fields.
fn with_two(
    alloc: Global,
    word: Word,
    first: &[u8],
    second: &[u8],
) -> Result<Option<StepKind>, AllocError>
    ensures { IfOk result (λ o. o ≡ read_two word first.now second.now) }
{
    if matches!(word, Word::Cut) {
        let place = cut_place(first, second);
        return Ok(place.map(|(nth, keep)| StepKind::Cut { nth, keep }));
    }
    if matches!(word, Word::CutSecond) {
        let place = cut_place(first, second);
        return Ok(place.map(|(nth, keep)| StepKind::CutSecond { nth, keep }));
    }
    let Some(block) = number_of(first, 0, 65_535) else {
        return Ok(None);
    };
    match word {
        Word::Write | Word::Ram => with_content(alloc, word, block as u16, second),
        _ => Ok(with_number(word, block as u16, second)),
    }
}

#[tactic(auto, unfolding(crate::specs::Reading::spelled))]
// The step that the text spells. `ram` is read as the request, whatever the block.
fn spelled(alloc: Global, text: &[u8]) -> Result<Option<StepKind>, AllocError>
    ensures { IfOk result (λ o. o ≡ read_text text.now) }
{
    let (word, fields) = cut(text, b' ');
    let Some(word) = word_of(word) else {
        return Ok(None);
    };
    let Some(fields) = fields else {
        return Ok(without_fields(word));
    };
    let (first, second) = cut(fields, b' ');
    let Some(second) = second else {
        return Ok(with_one(word, first));
    };
    with_two(alloc, word, first, second)
}

// The step that the text is, by a caller that was named or not.
pub fn step_of(
    alloc: Global,
    config: &Config,
    mode: Mode,
    called: bool,
    text: &[u8],
) -> Result<Option<StepKind>, AllocError>
    ensures { IfOk result (λ o. MatchOption o ((kind : Kind) → IsStep config.now mode called text.now kind → ⊥) (λ kind. IsStep config.now mode called text.now kind)) }
{
    let Some(kind) = spelled(alloc, text)? else {
        return Ok(None);
    };
    Ok(settled(config, mode, called, kind))
}
