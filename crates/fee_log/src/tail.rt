// What stands behind a log's records.
ghost use Rattle.std.specs.Prelude.{◌≡◌};
ghost use Rattle.fee_log.specs.Log.{tail_begun};

use fee_format::RecHead;

/// Blank pages; so many pages of the record in work; the header of a record that was given up before its header gate,
/// which is programmed before the record that waits for it; or anything, and then nothing is appended any more.
#[derive(Clone, Copy)]
pub enum Tail {
    Open,
    Writes {
        head: RecHead,
        done: u32,
    },
    Owes {
        head: RecHead,
        next: Option<RecHead>,
    },
    Closed,
}

/// The tail with one more record in work.
pub(crate) fn tail_begun(tail: Tail, begun: RecHead) -> Tail
    ensures { result ≡ tail_begun tail begun }
{
    match tail {
        Tail::Owes { head, .. } => Tail::Owes {
            head,
            next: Some(begun),
        },
        _ => Tail::Writes {
            head: begun,
            done: 0,
        },
    }
}
