// The words of the steps.
ghost use Rattle.std.specs.Prelude.{◌≡◌, nat_eq};
ghost use Rattle.std.specs.Cmp.Lexicographic.{pointwise};
ghost use Rattle.nvm_script.specs.Word.{word_text as text_of_word, word_of as word_of_text};

/// The word that a step begins with.
#[derive(Clone, Copy)]
pub enum Word {
    Read,
    ReadRam,
    Write,
    WriteRam,
    Restore,
    RestoreRam,
    Erase,
    Invalidate,
    SetIndex,
    GetIndex,
    Protect,
    Lock,
    SetRam,
    Ram,
    Status,
    ReadAll,
    WriteAll,
    Cancel,
    Turn,
    Drain,
    Restart,
    Cut,
    CutSecond,
    Refuse,
    Await,
}

// In the order in which they are tried: what most scripts say most comes first.
static WORDS: [Word; 25] = [
    Word::Write,
    Word::Read,
    Word::Drain,
    Word::Turn,
    Word::ReadRam,
    Word::WriteRam,
    Word::Restore,
    Word::RestoreRam,
    Word::Erase,
    Word::Invalidate,
    Word::SetIndex,
    Word::GetIndex,
    Word::Protect,
    Word::Lock,
    Word::SetRam,
    Word::Ram,
    Word::Status,
    Word::ReadAll,
    Word::WriteAll,
    Word::Cancel,
    Word::Restart,
    Word::Cut,
    Word::CutSecond,
    Word::Refuse,
    Word::Await,
];

// Whether the text is this name.
fn is_name(name: &str, text: &[u8]) -> bool
    ensures { result ≡ pointwise nat_eq name.now text.now }
{
    name.as_bytes() == text
}

// Whether the text is this word.
fn is_word(word: Word, text: &[u8]) -> bool
    ensures { result ≡ pointwise nat_eq (text_of_word word) text.now }
{
    match word {
        Word::Read => is_name("read", text),
        Word::ReadRam => is_name("readram", text),
        Word::Write => is_name("write", text),
        Word::WriteRam => is_name("writeram", text),
        Word::Restore => is_name("restore", text),
        Word::RestoreRam => is_name("restoreram", text),
        Word::Erase => is_name("erase", text),
        Word::Invalidate => is_name("invalidate", text),
        Word::SetIndex => is_name("setindex", text),
        Word::GetIndex => is_name("getindex", text),
        Word::Protect => is_name("protect", text),
        Word::Lock => is_name("lock", text),
        Word::SetRam => is_name("setram", text),
        Word::Ram => is_name("ram", text),
        Word::Status => is_name("status", text),
        Word::ReadAll => is_name("readall", text),
        Word::WriteAll => is_name("writeall", text),
        Word::Cancel => is_name("cancel", text),
        Word::Turn => is_name("turn", text),
        Word::Drain => is_name("drain", text),
        Word::Restart => is_name("restart", text),
        Word::Cut => is_name("cut", text),
        Word::CutSecond => is_name("cutee", text),
        Word::Refuse => is_name("refuse", text),
        Word::Await => is_name("await", text),
    }
}

// The word that the text is.
#[tactic(auto, unfolding(crate::specs::Word::word_of))]
pub fn word_of(text: &[u8]) -> Option<Word>
    ensures { result ≡ word_of_text text.now }
{
    WORDS.iter().copied().find(|word| is_word(*word, text))
}
