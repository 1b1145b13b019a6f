// A worked case, as its lines give it.
use crate::faults::Faults;
use crate::lines::add_line;
use crate::trials::Share;
use anyhow::{Context, bail};
use script_soak::Draws;
use std::alloc::{AllocError, Global};

/// One call of the program: its name, its words, its input, the flash at the start, and what fails. Then what else is shown:
/// whether the bytes of the flash at the end aren't; whether the lines are shown by caller; whether the call is made twice; whether the steps of its `soak` are
/// made on a stack; which of its runs with a cut and a fault everywhere are made too, if any; whether it is run with a fault at each call of its
/// last drain; the steps that are tried at each turn of that drain; and, where it is also played over a device in memory,
/// the numbers of turns there. Where it has a history that was printed elsewhere, nothing is called, and that is judged with
/// what a further start-up printed.
#[derive(Drop)]
pub struct Case {
    pub name: String,
    pub words: Vec<String>,
    pub input: Vec<u8>,
    pub flash: Vec<u8>,
    pub faults: Faults,
    pub quiet: bool,
    pub callers: bool,
    pub again: bool,
    pub stack: bool,
    pub everywhere: Option<Share>,
    pub each_fault: bool,
    pub between: Vec<String>,
    pub plain: Option<Vec<u64>>,
    pub printed: Vec<u8>,
    pub further: Vec<u8>,
}

impl Case {
    /// A case with no words and no input, over a blank flash, in which nothing fails.
    pub fn named(alloc: Global, name: &str) -> Result<Case, AllocError> {
        Ok(Case {
            name: String::from_str(alloc, name)?,
            words: Vec::new(alloc),
            input: Vec::new(alloc),
            flash: Vec::new(alloc),
            faults: Faults::none(alloc),
            quiet: false,
            callers: false,
            again: false,
            stack: false,
            everywhere: None,
            each_fault: false,
            between: Vec::new(alloc),
            plain: None,
            printed: Vec::new(alloc),
            further: Vec::new(alloc),
        })
    }

    /// Adds what one line says.
    pub fn add(&mut self, alloc: Global, line: &str) -> anyhow::Result<()> {
        let (key, rest) = line.split_once(' ').unwrap_or((line, ""));
        match key {
            "quiet" => self.quiet = true,
            "callers" => self.callers = true,
            "again" => self.again = true,
            "stack" => self.stack = true,
            "everywhere" => self.everywhere = Some(share(rest)?),
            "faults" => self.each_fault = true,
            "plain" => self.plain = Some(numbers(alloc, rest)?),
            "words" => add_words(alloc, &mut self.words, rest)?,
            "between" => self.between.push(String::from_str(alloc, rest)?)?,
            "<" | "<." | "fill" => self.add_input(key, rest)?,
            "printed" => add_line(&mut self.printed, rest)?,
            "further" => add_line(&mut self.further, rest)?,
            "flash" | "draw" | "at" => self.add_flash(alloc, key, rest)?,
            _ => self.add_fault(key, rest)?,
        }
        Ok(())
    }

    fn add_input(&mut self, key: &str, rest: &str) -> anyhow::Result<()> {
        match key {
            "fill" => fill(&mut self.input, rest)?,
            "<" => add_line(&mut self.input, rest)?,
            _ => self.input.extend_from_slice(rest.as_bytes())?,
        }
        Ok(())
    }

    fn add_flash(&mut self, alloc: Global, key: &str, rest: &str) -> anyhow::Result<()> {
        match key {
            "flash" => fill(&mut self.flash, rest),
            "draw" => draw(&mut self.flash, rest),
            _ => set_bytes(alloc, &mut self.flash, rest),
        }
    }

    fn add_fault(&mut self, key: &str, rest: &str) -> anyhow::Result<()> {
        match key {
            "take" => self.faults.takes.push(number(rest)?)?,
            "put" => self.faults.puts.push(number(rest)?)?,
            "read" => self.faults.reads.push(number(rest)?)?,
            "operation" => {
                let (number, keep) = pair(rest)?;
                let keep = u32::try_from(keep).context("so many bytes")?;
                self.faults.operations.push((number, keep))?;
            }
            _ => bail!("no line of a case begins with {key}"),
        }
        Ok(())
    }
}

fn add_words(alloc: Global, words: &mut Vec<String>, rest: &str) -> Result<(), AllocError> {
    for word in rest.split(' ') {
        words.push(String::from_str(alloc, word)?)?;
    }
    Ok(())
}

fn set_bytes(alloc: Global, flash: &mut [u8], rest: &str) -> anyhow::Result<()> {
    let (address, text) = rest.split_once(' ').context("an address and bytes")?;
    let address = usize::from_str_radix(address, 16).context("an address")?;
    let bytes = hex::decode(alloc, text).ok().context("bytes in hex")?;
    put(flash, address, &bytes).context("no byte of the flash")
}

// Puts bytes into a flash from an address on, as far as it goes; None where it ends before them.
fn put(flash: &mut [u8], address: usize, bytes: &[u8]) -> Option<()> {
    for (i, byte) in bytes.iter().enumerate() {
        *flash.get_mut(address.saturating_add(i))? = *byte;
    }
    Some(())
}

/// The number that a text is.
pub fn number(text: &str) -> anyhow::Result<u64> {
    text.parse::<u64>().context("a number")
}

// All runs; or one of so many shares of them, from 0, so that each share can be made in a process of its own.
fn share(text: &str) -> anyhow::Result<Share> {
    if text.is_empty() {
        return Ok(Share::All);
    }
    let (place, of) = pair(text)?;
    Ok(Share::Part { place, of })
}

// Numbers, one space between them.
fn numbers(alloc: Global, text: &str) -> anyhow::Result<Vec<u64>> {
    let mut numbers = Vec::new(alloc);
    if !text.is_empty() {
        for word in text.split(' ') {
            numbers.push(number(word)?)?;
        }
    }
    Ok(numbers)
}

fn pair(text: &str) -> anyhow::Result<(u64, u64)> {
    let (first, second) = text.split_once(' ').context("two numbers")?;
    Ok((number(first)?, number(second)?))
}

/// Adds a count of bytes of one value.
fn fill(bytes: &mut Vec<u8>, text: &str) -> anyhow::Result<()> {
    let (count, value) = pair(text)?;
    let value = u8::try_from(value).context("a byte")?;
    for _ in 0..count {
        bytes.push(value)?;
    }
    Ok(())
}

/// Adds a count of bytes, each the low byte of a draw from a seed, as `soak` draws.
fn draw(bytes: &mut Vec<u8>, text: &str) -> anyhow::Result<()> {
    let (seed, count) = pair(text)?;
    let mut draws = Draws { state: seed };
    for _ in 0..count {
        bytes.push((draws.next() & 255) as u8)?;
    }
    Ok(())
}
