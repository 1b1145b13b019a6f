// The records of a bank, one after another.
use crate::Record;
use crate::record::{record_of, seen_at};
use fee_format::pages_of;
use std::marker::Model;

/// The records of a bank from a page on, in order, each borrowed from the bank's bytes. Contracts see the bytes, the
/// bank, and the page that comes next.
#[derive(Drop)]
pub struct Records<'a> {
    pub(crate) bytes: &'a [u8],
    pub(crate) page: u32,
    pub(crate) pages: u32,
    pub(crate) format: u8,
    pub(crate) at: u32,
}

impl<'a> Model for Records<'a> {
    ghost use Rattle.fee_view.specs.View.{own_bank};
    ghost use Rattle.fee_view.specs.Record.{Walk, IsWalk};

    ghost Value = { Walk };

    ghost view = { λ r. record { bytes = r.bytes.now; bank = own_bank r.page r.pages r.format; at = r.at } };

    ghost invariant = { λ r. IsWalk (record { bytes = r.bytes.now; bank = own_bank r.page r.pages r.format; at = r.at }) };
}

impl<'a> Iterator for Records<'a> {
    ghost use Rattle.std.specs.Iterator.{item_count};
    ghost use Rattle.fee_view.specs.Record.{records_in, GivesRecord};

    type Item = Record<'a>;

    ghost next_gives = { GivesRecord };

    ghost remaining = { item_count records_in };

    fn next(&mut self) -> Option<Record<'a>> {
        let seen = seen_at(self.bytes, self.page, self.pages, self.format, self.at)?;
        let record = record_of(self.bytes, self.page, self.at, seen);
        self.at += pages_of(seen.head.length, self.page);
        Some(record)
    }
}
