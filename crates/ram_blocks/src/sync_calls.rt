// Copies to and from synchronized blocks.
ghost use Rattle.std.specs.Prelude.{◌≡◌, ℕ, List, length};
ghost use Rattle.ram_blocks.specs.Told.{Told, refusals_of, IsSynchronized};
ghost use Rattle.ram_blocks.specs.Copies.{CopiesOut, CopiesIn, IsGot};

/// What became of a copy: it was made, of the store or to the content with this number, or the application refused it.
#[derive(Clone, Copy)]
pub enum Copied {
    Got { number: u64 },
    Refused,
}

/// The application's side of its synchronized blocks (NvMReadRamBlockFromNvCallback, NvMWriteRamBlockToNvCallback). No
/// call takes memory. Lengths are in bytes.
pub trait SyncCalls {
    /// What is told of each block, by id.
    ghost told: { Self → List Told };

    /// That the application's store of a block with a number was this content.
    ghost is_store: { Self → ℕ → ℕ → List ℕ → Type 0 };

    /// That between these two values a look at a block showed the store with this number. A copy out looks before it copies,
    /// and gives what that look showed: so a store that is too old isn't one that lay there from an earlier look.
    ghost looked: { Self → Self → ℕ → ℕ → Type 0 };

    /// That the second value is over what the first one is over, as the same mirrors: so who lent that knows it again.
    ghost over: { Self → Self → Type 0 };

    /// Copies the whole of a store of the application, and answers its number.
    fn copy_out(&mut self, block: u16, into: &mut [u8]) -> Copied
        requires { IsSynchronized (told self.old) block (length into.old) }
        ensures copied { CopiesOut result block (told self.old) (told self.new) }
        ensures store { IsGot result (λ n. is_store self.new block n into.new) }
        ensures looks { IsGot result (λ n. looked self.old self.new block n) }
        ensures stores_stay { (b n : ℕ) (x : List ℕ) → is_store self.old b n x → is_store self.new b n x }
        ensures stays_over { (first : Self) → over first self.old → over first self.new }
        ensures looked_later { (since : Self) (b n : ℕ) → looked since self.old b n → looked since self.new b n }
        ensures looked_earlier { (until : Self) (b n : ℕ) → looked self.new until b n → looked self.old until b n };

    /// Hands a whole content over to the application, and answers how many it was handed so far.
    fn copy_in(&mut self, block: u16, from: &[u8]) -> Copied
        requires { IsSynchronized (told self.old) block (length from.now) }
        ensures copied { CopiesIn result block from.now (told self.old) (told self.new) }
        ensures stores_stay { (b n : ℕ) (x : List ℕ) → is_store self.old b n x → is_store self.new b n x }
        ensures stays_over { (first : Self) → over first self.old → over first self.new }
        ensures looked_later { (since : Self) (b n : ℕ) → looked since self.old b n → looked since self.new b n }
        ensures looked_earlier { (until : Self) (b n : ℕ) → looked self.new until b n → looked self.old until b n };

    /// How many copies of a block were refused so far, 0 of a block that isn't synchronized. It stands still at its end.
    fn refusals(&self, block: u16) -> u64
        ensures { result ≡ refusals_of (told self.now) block };
}
