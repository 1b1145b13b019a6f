// The words of a line.
use std::alloc::AllocError;

/// What words tell, if they tell it; or want of memory.
pub type Parsed<T> = Result<Option<T>, AllocError>;

/// The words of a line, parted by one space. What isn't there is an empty word, and what is no number reads as 0: whether
/// the line is that of an entry that was read so is tested at the end.
#[derive(Clone, Copy)]
pub struct Words<'a> {
    rest: &'a str,
}

impl<'a> Words<'a> {
    pub fn of(line: &'a str) -> Words<'a> {
        Words { rest: line }
    }

    /// The next word; behind the last one an empty word.
    pub fn next(&mut self) -> &'a str {
        let (word, rest) = self.rest.split_once(' ').unwrap_or((self.rest, ""));
        self.rest = rest;
        word
    }

    /// What stands behind the words so far.
    pub fn rest(&self) -> &'a str {
        self.rest
    }

    /// Goes behind a beginning, and tells whether it stood there.
    pub fn passes(&mut self, beginning: &str) -> bool {
        match self.rest.strip_prefix(beginning) {
            Some(rest) => {
                self.rest = rest;
                true
            }
            None => false,
        }
    }

    /// The number that the next word is.
    pub fn number(&mut self) -> u64 {
        self.next().parse::<u64>().unwrap_or(0)
    }

    /// The block that the next word is.
    pub fn block(&mut self) -> u16 {
        self.next().parse::<u16>().unwrap_or(0)
    }

    /// The small number that the next word is.
    pub fn small(&mut self) -> u8 {
        self.next().parse::<u8>().unwrap_or(0)
    }

    /// The number of operations that is the end of a driver's line, behind its word.
    pub fn ops(&mut self) -> u64 {
        self.next();
        self.number()
    }
}
