// The parts of a line, as text.
ghost use Rattle.std.specs.Prelude.{◌≡◌, ◌++◌, ◌∷◌, [], codes};
ghost use Rattle.std.specs.Fmt.{decimal};
ghost use Rattle.hex.specs.Hex.{encode_lower};
ghost use Rattle.nvm_script.specs.Text.{Adds};
ghost use Rattle.nvm_script.specs.Words.{is_long_run, content_text, mark_text, switch_text, of_block as block_text, of_block_with as block_text_with, store_text, request_text, reply_text, job_text, taken_text, given_text, refused_text};

use crate::text::Text;
use nv_base::{Bytes, JobKind, Mark, Reply, Request, Taken, all_are, refusal_number, result_code};

// Whether these are five bytes or more, all equal.
fn is_run(bytes: &[u8]) -> bool
    ensures { result ≡ is_long_run bytes.now }
{
    bytes.len() >= 5 && all_are(bytes, bytes[0])
}

pub fn job_word(job: JobKind) -> &'static str
    ensures { result.now ≡ job_text job }
{
    match job {
        JobKind::Read => "read",
        JobKind::Write => "write",
        JobKind::Restore => "restore",
        JobKind::Erase => "erase",
        JobKind::Invalidate => "invalidate",
        JobKind::ReadAll => "readall",
        JobKind::WriteAll => "writeall",
    }
}

fn switch_word(on: bool) -> &'static str
    ensures { result.now ≡ switch_text on }
{
    if on { "1" } else { "0" }
}

#[tactic(auto, using(crate::proofs::TextLaws::parts))]
impl Text {
    fn run(&mut self, byte: u8, count: usize)
        ensures { Adds (encode_lower (byte ∷ []) ++ (codes "*" ++ decimal count)) self.old self.new }
    {
        self.pair(byte);
        self.word("*");
        self.number(count as u64);
    }

    // A content: a long run as its byte and its length, any other as hexadecimal digits.
    fn content(&mut self, content: &Bytes)
        ensures { Adds (content_text content.now) self.old self.new }
    {
        let bytes = content.as_slice();
        if is_run(bytes) {
            self.run(bytes[0], bytes.len());
        } else {
            self.digits(bytes);
        }
    }

    pub fn mark(&mut self, mark: &Mark)
        ensures { Adds (mark_text mark.now) self.old self.new }
    {
        match mark {
            Mark::Content(bytes) => {
                self.word("data ");
                self.content(bytes);
            }
            Mark::Invalid => self.word("invalid"),
            Mark::Erased => self.word("erased"),
        }
    }

    fn of_block(&mut self, word: &str, block: u16)
        ensures { Adds (block_text word.now block) self.old self.new }
    {
        self.word(word);
        self.word(" ");
        self.number(block as u64);
    }

    fn of_block_with(&mut self, word: &str, block: u16, argument: &str)
        ensures { Adds (block_text_with word.now block argument.now) self.old self.new }
    {
        self.word(word);
        self.word(" ");
        self.number(block as u64);
        self.word(" ");
        self.word(argument);
    }

    fn with_content(&mut self, word: &str, block: u16, content: &Bytes)
        ensures { Adds (block_text_with word.now block (content_text content.now)) self.old self.new }
    {
        self.word(word);
        self.word(" ");
        self.number(block as u64);
        self.word(" ");
        self.content(content);
    }

    fn with_index(&mut self, word: &str, block: u16, index: u8)
        ensures { Adds (block_text_with word.now block (decimal index)) self.old self.new }
    {
        self.word(word);
        self.word(" ");
        self.number(block as u64);
        self.word(" ");
        self.number(index as u64);
    }

    fn store(&mut self, store: u64)
        ensures { Adds (store_text store) self.old self.new }
    {
        if store != 0 {
            self.word(" store ");
            self.number(store);
        }
    }

    pub fn request(&mut self, request: &Request)
        ensures { Adds (request_text request.now) self.old self.new }
    {
        match request {
            Request::Read { block, ram: false } => self.of_block("read", *block),
            Request::Read { block, ram: true } => self.of_block("readram", *block),
            Request::Write {
                block,
                content: Some(content),
                store: _,
            } => self.with_content("write", *block, content),
            Request::Write {
                block,
                content: None,
                store,
            } => {
                self.of_block("writeram", *block);
                self.store(*store);
            }
            Request::Restore { block, ram: false } => self.of_block("restore", *block),
            Request::Restore { block, ram: true } => self.of_block("restoreram", *block),
            Request::Erase { block } => self.of_block("erase", *block),
            Request::Invalidate { block } => self.of_block("invalidate", *block),
            Request::SetIndex { block, index } => self.with_index("setindex", *block, *index),
            Request::GetIndex { block } => self.of_block("getindex", *block),
            Request::SetProtection { block, on } => {
                self.of_block_with("protect", *block, switch_word(*on))
            }
            Request::SetLock { block, on } => self.of_block_with("lock", *block, switch_word(*on)),
            Request::SetRam { block, on } => self.of_block_with("setram", *block, switch_word(*on)),
            Request::PutRam { block, content } => self.with_content("ram", *block, content),
            Request::Status { block } => self.of_block("status", *block),
            Request::ReadAll => self.word("readall"),
            Request::WriteAll => self.word("writeall"),
            Request::CancelWriteAll => self.word("cancel"),
        }
    }

    pub fn reply(&mut self, reply: Reply)
        ensures { Adds (reply_text reply) self.old self.new }
    {
        match reply {
            Reply::Accepted => self.word("ok"),
            Reply::Refused(refusal) => {
                self.word("refused ");
                self.number(refusal_number(refusal) as u64);
            }
            Reply::StatusIs(status) => {
                self.word("status ");
                self.number(result_code(status) as u64);
            }
            Reply::IndexIs(index) => {
                self.word("index ");
                self.number(index as u64);
            }
        }
    }

    pub fn taken(&mut self, taken: &Taken)
        ensures { Adds (taken_text taken.now) self.old self.new }
    {
        match taken {
            Taken::Nothing => {}
            Taken::Content { bytes, store } => {
                self.word(" ");
                self.content(bytes);
                self.store(*store);
            }
            Taken::Refused { count } => {
                self.word(" refused ");
                self.number(*count as u64);
            }
            Taken::Stale {
                asked,
                got,
                count: _,
            } => {
                self.word(" stale ");
                self.number(*asked);
                self.word(" ");
                self.number(*got);
            }
        }
    }

    pub fn given(&mut self, given: &Option<Bytes>)
        ensures { Adds (given_text given.now) self.old self.new }
    {
        if let Some(bytes) = given {
            self.word(" data ");
            self.content(bytes);
        }
    }

    pub fn refused(&mut self, count: u8)
        ensures { Adds (refused_text count) self.old self.new }
    {
        if count != 0 {
            self.word(" refused ");
            self.number(count as u64);
        }
    }
}
