// Text that is written part by part.
ghost use Rattle.std.specs.Prelude.{◌≡◌, true, [], ◌∷◌, IfOk, length};
ghost use Rattle.std.specs.Fmt.{decimal};
ghost use Rattle.hex.specs.Hex.{encode_lower};
ghost use Rattle.nvm_script.specs.Text.{Adds};

use crate::digits::{PIECE, digits_of};
use itoa::Buffer;
use std::alloc::AllocError;

const DIGITS: &[u8; 16] = b"0123456789abcdef";

/// A text that grows at its end. It is whole as long as there was memory for each part.
#[derive(Drop)]
pub struct Text {
    written: Vec<u8>,
    whole: bool,
}

impl Text {
    /// An empty text, in the memory of one that isn't needed any more.
    pub fn over(memory: Vec<u8>) -> Text
        ensures { result.written.items ≡ [] }
    {
        let mut written = memory;
        written.clear();
        Text {
            written,
            whole: true,
        }
    }

    fn bytes(&mut self, bytes: &[u8])
        ensures { Adds bytes.now self.old self.new }
    {
        if self.written.extend_from_slice(bytes).is_err() {
            self.whole = false;
        }
    }

    pub fn word(&mut self, word: &str)
        ensures { Adds word.now self.old self.new }
    {
        self.bytes(word.as_bytes());
    }

    /// A number in decimal digits.
    pub fn number(&mut self, number: u64)
        ensures { Adds (decimal number) self.old self.new }
    {
        let mut buffer = Buffer::new();
        self.bytes(buffer.format(number).as_bytes());
    }

    /// Two digits of a byte.
    #[tactic(auto, unfolding(hex::specs::Hex::encode_with))]
    pub fn pair(&mut self, byte: u8)
        ensures { Adds (encode_lower (byte ∷ [])) self.old self.new }
    {
        let high = DIGITS[usize::from(byte / 16)];
        let low = DIGITS[usize::from(byte % 16)];
        self.bytes(&[high, low]);
    }

    /// Two digits a byte, in lower case.
    pub fn digits(&mut self, bytes: &[u8])
        ensures { Adds (encode_lower bytes.now) self.old self.new }
    {
        let mut at = 0;
        while bytes.len() - at >= PIECE {
            self.piece(&bytes[at..at + PIECE]);
            at += PIECE;
        }
        self.pairs(&bytes[at..]);
    }

    // Those of a piece, added at once.
    fn piece(&mut self, bytes: &[u8])
        requires { length bytes.now ≡ PIECE }
        ensures { Adds (encode_lower bytes.now) self.old self.new }
    {
        self.bytes(&digits_of(bytes));
    }

    // Those of a few bytes, added byte by byte.
    fn pairs(&mut self, bytes: &[u8])
        ensures { Adds (encode_lower bytes.now) self.old self.new }
    {
        for i in 0..bytes.len() {
            self.pair(bytes[i]);
        }
    }

    /// The whole text, or no memory was left for it.
    pub fn finish(self) -> Result<Vec<u8>, AllocError>
        ensures { IfOk result (λ v. (self.whole ≡ true) × (v.items ≡ self.written.items)) }
    {
        if !self.whole {
            return Err(AllocError);
        }
        Ok(self.written)
    }
}
