// The command `dump`: what an image holds, line by line.
ghost use Rattle.std.specs.Prelude.{◌≡◌, ◌⊎◌, IfSome, length};
ghost use Rattle.nvm_flash.specs.nv_base.Count.{Rose};
ghost use Rattle.nvm_flash.specs.fee_image.Image.{layout_of};
ghost use Rattle.nvm_flash.specs.nv_base.Geometry.{IsLegal, HasBanks, size_of};
ghost use Rattle.nvm_flash.specs.block_config.Config.{Configuration};
ghost use Rattle.nvm_lines.specs.Reading.{HasConfig};
ghost use Rattle.nvm_top.specs.Causes.{HasCauses};
ghost use Rattle.nvm_top.specs.Dump.{DumpsBy, DumpsFlash, IsDump, KeepsFlash};
ghost use Rattle.nvm_lines.specs.Output.{IsReport, Writes};
ghost use Rattle.nvm_top.specs.Play.{IsBeforeStart};

use crate::image::read_image;
use fee_dump::dump_text;
use nvm_flash::{Flash, Geometry};
use nvm_lines::nv_streams::{Sink, Source};
use nvm_lines::{Status, put_lines, read_configuration, report};
use std::alloc::Global;

/// The command behind its words.
pub(crate) fn dump<S: Source, K: Sink, F: Flash>(
    alloc: Global,
    input: &mut S,
    output: &mut K,
    flash: F,
) -> (Status, F)
    ensures by_input { Writes (DumpsBy (S.left input.old) (S.faults input.old) (S.faults input.new) (F.told flash) (F.told result.1)) (K.written output.old) (K.written output.new) result.0 }
    ensures causes { HasCauses result.0 (S.faults input.old) (S.faults input.new) (K.faults output.old) (K.faults output.new) (S.left input.new) }
    ensures kept { (F.told result.1 ≡ F.told flash) ⊎ ((c : Configuration) × IfSome (S.left input.old) (λ bytes. HasConfig bytes c) × KeepsFlash c.geometry (F.told flash) (F.told result.1)) }
    ensures untouched { IsBeforeStart result.0 → F.told result.1 ≡ F.told flash }
{
    match read_configuration(alloc, input) {
        Ok(config) => {
            let mut flash = flash;
            let status = dump_flash(alloc, config.geometry(), config.banks(), output, &mut flash);
            (status, flash)
        }
        Err(stop) => (report(alloc, stop, output), flash),
    }
}

fn dump_flash<K: Sink, F: Flash>(
    alloc: Global,
    geometry: Geometry,
    banks: u32,
    output: &mut K,
    flash: &mut F,
) -> Status
    requires legal { IsLegal geometry }
    requires shared { HasBanks geometry banks }
    ensures text { Writes (DumpsFlash geometry banks (F.told flash.old) (F.told flash.new)) (K.written output.old) (K.written output.new) result }
    ensures write_fault { result ≡ Status.WriteFault → Rose (K.faults output.old) (K.faults output.new) }
    ensures kept { KeepsFlash geometry (F.told flash.old) (F.told flash.new) }
    ensures untouched { IsBeforeStart result → F.told flash.new ≡ F.told flash.old }
{
    match read_image(alloc, geometry, flash) {
        Ok(image) => write_dump(alloc, geometry, banks, image.as_slice(), output),
        Err(stop) => report(alloc, stop, output),
    }
}

fn write_dump<K: Sink>(
    alloc: Global,
    geometry: Geometry,
    banks: u32,
    image: &[u8],
    output: &mut K,
) -> Status
    requires legal { IsLegal geometry }
    requires shared { HasBanks geometry banks }
    requires size { length image.now ≡ size_of geometry }
    ensures status { IsReport Status.Ok result }
    ensures text { Writes (IsDump (layout_of geometry banks) image.now) (K.written output.old) (K.written output.new) result }
    ensures write_fault { result ≡ Status.WriteFault → Rose (K.faults output.old) (K.faults output.new) }
{
    let Ok(text) = dump_text(alloc, image, geometry, banks) else {
        return Status::Memory;
    };
    match put_lines(output, text.as_bytes()) {
        Ok(()) => Status::Ok,
        Err(fault) => fault.status(),
    }
}
