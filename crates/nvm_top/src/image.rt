// Reading the bytes of a flash.
ghost use Rattle.std.specs.Prelude.{◌≡◌, ◌+◌, ◌++◌, IfErr, IfOk, IfSome, OnOk, false, length, vec_len};
ghost use Rattle.nvm_flash.specs.nv_base.Geometry.{IsLegal, size_of};
ghost use Rattle.nvm_flash.specs.fls_model.Bytes.{piece};
ghost use Rattle.nvm_flash.specs.fls_model.Told.{HasRange};
ghost use Rattle.nvm_top.specs.Dump.{IsImageOf, KeepsFlash};
ghost use Rattle.nvm_top.specs.Play.{IsAttachStop, IsPlayEnd};
ghost use Rattle.nvm_top.specs.Reading.{IsSectorStop};
ghost use Rattle.nvm_lines.specs.Stop.{status_of};

use crate::attach::attach_stop;
use nvm_flash::{Flash, FlashAnswer, Geometry};
use nvm_lines::Stop;
use std::alloc::Global;

// Adds the bytes of one sector.
fn read_sector<F: Flash>(
    flash: &mut F,
    address: u32,
    sector: &mut Vec<u8>,
    image: &mut Vec<u8>,
) -> Result<(), Stop>
    requires range { HasRange (F.told flash.old) address (vec_len sector.old) }
    requires on { (F.told flash.old).off ≡ false }
    ensures bytes { OnOk result (IfSome (F.told flash.old).bytes (λ b. image.new.items ≡ image.old.items ++ piece address (vec_len sector.old) b.now)) }
    ensures more { OnOk result (vec_len image.new ≡ vec_len image.old + vec_len sector.old) }
    ensures size { vec_len sector.new ≡ vec_len sector.old }
    ensures same { OnOk result (F.told flash.new ≡ F.told flash.old) }
    ensures err { IfErr result (IsSectorStop (F.told flash.old) (F.told flash.new)) }
{
    match flash.read(address, sector.as_mut_slice()) {
        FlashAnswer::Done => {
            image.extend_from_slice(sector.as_slice())?;
            Ok(())
        }
        FlashAnswer::Failed | FlashAnswer::Off => Err(Stop::FlashFault),
    }
}

/// The bytes of a flash of this shape: it is attached and powered on, and each sector is read once, in order. The memory
/// for them is taken first.
pub fn read_image<F: Flash>(
    alloc: Global,
    geometry: Geometry,
    flash: &mut F,
) -> Result<Vec<u8>, Stop>
    requires { IsLegal geometry }
    ensures image { IfOk result (λ image. IsImageOf geometry (F.told flash.old).bytes image.items) }
    ensures size { IfOk result (λ image. length image.items ≡ size_of geometry) }
    ensures stop { IfErr result (IsAttachStop (size_of geometry) (F.told flash.old).bytes) }
    ensures end { IfErr result (λ stop. IsPlayEnd (size_of geometry) (F.told flash.old) (F.told flash.new) (status_of stop)) }
    ensures kept { KeepsFlash geometry (F.told flash.old) (F.told flash.new) }
{
    let mut image = Vec::with_capacity(alloc, geometry.size() as usize)?;
    let mut sector = vec![in alloc; 0u8; geometry.sector as usize]?;
    if let Err(fault) = flash.attach(alloc, geometry) {
        return Err(attach_stop(fault, geometry));
    }
    flash.power_on();
    for k in 0..geometry.sectors {
        read_sector(flash, k * geometry.sector, &mut sector, &mut image)?;
    }
    Ok(image)
}
