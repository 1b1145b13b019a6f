// Where what a number holds stands on the flash.
ghost use Rattle.std.specs.Prelude.{◌≡◌, ◌+◌, ◌≤◌, true, Some};
ghost use Rattle.nv_base.specs.Geometry.{address_of_page, size_of};
ghost use Rattle.nv_base.specs.Pages.{record_pages_of};
ghost use Rattle.memif.specs.Told.{length_of};
ghost use Rattle.fee_laws.specs.Inside.{device_of};
ghost use Rattle.fee_core.specs.Whole.{Sound};
ghost use Rattle.fee_core.specs.MarkPlaces.{IsMarkPlace};

use crate::Origin;
use crate::parts::FeeParts;
use fee_image::Place;
use fee_laws::Log;
use fls_model::Flash;
use nv_base::DeviceNumber;

/// What a number holds, and of a content where it begins on the flash, in bytes.
pub enum MarkPlace {
    Erased,
    Invalid,
    Content { address: u32 },
}

// Where the content begins of the record whose header is at this page.
fn content_at(log: &Log, size: u16, at: u32) -> u32
    requires { at + record_pages_of size log.now.geometry.page ≤ log.now.end }
    ensures address { result ≡ address_of_page log.now.geometry log.now.banks log.now.bank (at + 2) }
    ensures inside { result + size ≤ size_of log.now.geometry }
{
    log.lists();
    log.content_address(at)
}

impl<F: Flash, O: Origin> FeeParts<F, O> {
    /// Where what a number of this length holds stands, while the device is started.
    pub fn mark_place(&self, number: DeviceNumber, length: u16) -> MarkPlace
        requires sound { Sound O.making O.entry self.now }
        requires started { self.now.parts.started ≡ true }
        requires configured { length_of O.making.numbers number.0 ≡ Some length }
        ensures { IsMarkPlace (device_of O.making O.entry self.now.parts) number.0 length result }
    {
        let _active = self.banks.active();
        let _status = self.fls.status();
        let Some(log) = self.banks.log() else {
            return MarkPlace::Erased;
        };
        match log.find(number) {
            Place::Content { at, count: _ } => MarkPlace::Content {
                address: content_at(log, length, at),
            },
            Place::Invalid { count: _ } => MarkPlace::Invalid,
            Place::Erased { count: _ } | Place::Unwritten => MarkPlace::Erased,
        }
    }
}
