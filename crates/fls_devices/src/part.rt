// An operation that is cut or fails, and how much of it is done.
ghost use Rattle.std.specs.Prelude.{◌≡◌, ◌≤◌, length, take};
ghost use Rattle.fls_model.specs.Op.{kept_page};
ghost use Rattle.fls_devices.specs.Part.{harmed, cuts_after, faults_after, off_of};

use fls_model::FlashAnswer;

/// What befalls an operation: a power cut, or a fault.
#[derive(Clone, Copy)]
pub enum Harm {
    Cut,
    Fault,
}

// The first bytes of a page, filled up with 0xFF, which clears no bit.
pub fn kept_part(page: &[u8], keep: u32) -> [u8; 256]
    requires { length page.now ≤ 256 }
    ensures { take (length page.now) result ≡ kept_page keep page.now }
{
    let mut part = [255; 256];
    let count = page.len().min(keep as usize);
    part[..count].copy_from_slice(&page[..count]);
    part
}

// The answer of a harmed operation, of which the inner flash answered so for its part.
pub fn harmed_answer(harm: Harm, inner: FlashAnswer) -> FlashAnswer
    ensures { result ≡ harmed harm inner }
{
    match (harm, inner) {
        (Harm::Fault, FlashAnswer::Done | FlashAnswer::Failed) => FlashAnswer::Failed,
        _ => FlashAnswer::Off,
    }
}

pub fn count_cut(harm: Harm, cuts: u64) -> u64
    ensures { result ≡ cuts_after harm cuts }
{
    match harm {
        Harm::Cut => cuts.saturating_add(1),
        Harm::Fault => cuts,
    }
}

pub fn count_fault(harm: Harm, faults: u64) -> u64
    ensures { result ≡ faults_after harm faults }
{
    match harm {
        Harm::Cut => faults,
        Harm::Fault => faults.saturating_add(1),
    }
}

pub fn is_off(answer: FlashAnswer) -> bool
    ensures { result ≡ off_of answer }
{
    matches!(answer, FlashAnswer::Off)
}
