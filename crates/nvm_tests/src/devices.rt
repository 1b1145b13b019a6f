// A flash in a file.
use fls_files::{ByteFile, FileFlash, ImageFault, ImageFile, mem_file};
use nvm_flash::{AttachFault, Flash};
use nvm_laws::Geometry;
use std::alloc::Global;
use std::fs;
use std::os::unix::fs::symlink;

const SMALLEST: Geometry = Geometry {
    page: 16,
    sector: 64,
    sectors: 2,
};

const PATH: &str = "fls_files_test.img";

// Programs the second page twice.
fn change_twice<F: Flash>(alloc: Global, flash: &mut F) -> Result<(), AttachFault> {
    flash.attach(alloc, SMALLEST)?;
    flash.program(16, &[0x0f; 16]);
    flash.program(16, &[0x3c; 16]);
    Ok(())
}

// Reads the second page, and erases its sector.
fn erase_and_read<F: Flash>(
    alloc: Global,
    flash: &mut F,
    page: &mut [u8; 16],
) -> Result<(), AttachFault> {
    flash.attach(alloc, SMALLEST)?;
    flash.read(16, page);
    flash.erase(0);
    Ok(())
}

fn change_file(rt: &HostRuntime, path: &str) -> Result<(), AttachFault> {
    change_twice(rt.alloc(), &mut FileFlash::make(rt, path))
}

// Whether the page has the bits that both programs left, and its sector was erased.
fn is_erased(rt: &HostRuntime) -> bool {
    let mut page = [0; 16];
    let erased = erase_and_read(rt.alloc(), &mut FileFlash::make(rt, PATH), &mut page);
    erased.is_ok() && page == [0x0c; 16]
}

fn is_blank(rt: &HostRuntime) -> bool {
    match fs::read(rt, PATH) {
        Ok(image) => image.as_slice() == [0xff; 128].as_slice(),
        Err(_) => false,
    }
}

#[test]
fn keeps_an_image_in_a_file(rt: HostRuntime) {
    let _ = fs::remove_file(&rt, PATH);
    assert!(rt; change_file(&rt, PATH).is_ok() && is_erased(&rt) && is_blank(&rt));
    assert!(rt; fs::remove_file(&rt, PATH).is_ok());
}

// Whether a file of another size is refused.
fn is_refused(rt: &HostRuntime) -> bool {
    let wrong = change_file(rt, "fls_files_size.img");
    matches!(wrong, Err(AttachFault::WrongSize { found: 100 }))
}

#[test]
fn an_image_file_of_another_size(rt: HostRuntime) {
    assert!(rt; fs::write(&rt, "fls_files_size.img", [7; 100].as_slice()).is_ok());
    assert!(rt; is_refused(&rt) && fs::remove_file(&rt, "fls_files_size.img").is_ok());
}

#[test]
fn an_image_file_in_no_folder(rt: HostRuntime) {
    let failed = change_file(&rt, "no_such_folder/x.img");
    assert!(rt; matches!(failed, Err(AttachFault::Failed)));
}

// Whether a flash over a file in memory gives the page that was programmed.
fn is_kept_in_memory(alloc: Global) -> bool {
    let Ok(file) = mem_file(alloc, &[]) else {
        return false;
    };
    let mut flash = FileFlash::over(file);
    let mut page = [0; 16];
    let changed = change_twice(alloc, &mut flash);
    let read = erase_and_read(alloc, &mut flash, &mut page);
    changed.is_ok() && read.is_ok() && page == [0x0c; 16]
}

#[test]
fn keeps_an_image_in_memory(rt: HostRuntime) {
    assert!(rt; is_kept_in_memory(rt.alloc()));
}

const LATE: &str = "fls_files_late.img";

const BESIDE: &str = "fls_files_late.img.new";

// Whether an absent file is made by the attach, and by nothing before it, with no other file left; and whether it isn't made to
// be read.
fn is_made_late(rt: &HostRuntime) -> bool {
    let mut read = FileFlash::over(ImageFile::to_read(rt, LATE));
    let failed = read.attach(rt.alloc(), SMALLEST).is_err();
    let mut flash = FileFlash::over(ImageFile::to_change(rt, LATE, BESIDE));
    let absent = fs::metadata(rt, LATE).is_err();
    let changed = change_twice(rt.alloc(), &mut flash).is_ok();
    failed && absent && changed && fs::metadata(rt, BESIDE).is_err()
}

#[test]
fn an_image_file_is_made_at_its_attach(rt: HostRuntime) {
    let _ = fs::remove_file(&rt, LATE);
    assert!(rt; is_made_late(&rt) && fs::remove_file(&rt, LATE).is_ok());
}

// Attaches a flash of an image file that may be made, and says why that failed, and what the file says of it.
fn attach_file(
    rt: &HostRuntime,
    path: &str,
    beside: &str,
) -> (Result<(), AttachFault>, Option<ImageFault>) {
    let mut flash = FileFlash::over(ImageFile::to_change(rt, path, beside));
    let attached = flash.attach(rt.alloc(), SMALLEST);
    let why = match flash.file() {
        Some(file) => file.fault(),
        None => None,
    };
    (attached, why)
}

const HELD: &str = "fls_files_held.img";

const HELD_NEW: &str = "fls_files_held.img.new";

// Whether another call, also one that reads alone, finds the flash in use while this one has it, and no longer.
fn is_held_alone(rt: &HostRuntime) -> bool {
    let mut flash = FileFlash::over(ImageFile::to_change(rt, HELD, HELD_NEW));
    let first = flash.attach(rt.alloc(), SMALLEST).is_ok();
    let (second, why) = attach_file(rt, HELD, HELD_NEW);
    let mut read = FileFlash::over(ImageFile::to_read(rt, HELD));
    let third = read.attach(rt.alloc(), SMALLEST);
    drop(flash);
    let refused = matches!(second, Err(AttachFault::InUse)) && why == Some(ImageFault::InUse);
    let shared = matches!(third, Err(AttachFault::InUse));
    first && refused && shared && attach_file(rt, HELD, HELD_NEW).0.is_ok()
}

#[test]
fn an_image_file_that_another_call_has(rt: HostRuntime) {
    let _ = fs::remove_file(&rt, HELD);
    assert!(rt; is_held_alone(&rt) && fs::remove_file(&rt, HELD).is_ok());
}

const MADE: &str = "fls_files_made.img";

const MADE_NEW: &str = "fls_files_made.img.new";

// Whether what stands under the other name ends the attach, and stays as it is.
fn stays(rt: &HostRuntime, found: &[u8]) -> bool {
    let written = fs::write(rt, MADE_NEW, found).is_ok();
    let (attached, why) = attach_file(rt, MADE, MADE_NEW);
    let failed = matches!(attached, Err(AttachFault::Failed)) && why == Some(ImageFault::InTheWay);
    let same = match fs::read(rt, MADE_NEW) {
        Ok(bytes) => bytes.as_slice() == found,
        Err(_) => false,
    };
    written && failed && same && fs::metadata(rt, MADE).is_err()
}

// Whether a link there is followed by nothing.
fn is_no_link(rt: &HostRuntime) -> bool {
    let linked = symlink(rt, "fls_files_other.img", MADE_NEW).is_ok();
    let (attached, why) = attach_file(rt, MADE, MADE_NEW);
    let failed = attached.is_err() && why == Some(ImageFault::InTheWay);
    linked && failed && fs::metadata(rt, "fls_files_other.img").is_err()
}

// Whether the part that a call that was killed left is taken.
fn is_taken(rt: &HostRuntime) -> bool {
    let written = fs::write(rt, MADE_NEW, [255; 100].as_slice()).is_ok();
    let taken = attach_file(rt, MADE, MADE_NEW).0.is_ok();
    written && taken && fs::metadata(rt, MADE_NEW).is_err()
}

#[test]
fn a_file_in_the_way_of_an_image_file(rt: HostRuntime) {
    let _ = fs::remove_file(&rt, MADE);
    assert!(rt; stays(&rt, [7; 3].as_slice()) && stays(&rt, [255; 129].as_slice()));
    assert!(rt; fs::remove_file(&rt, MADE_NEW).is_ok() && is_no_link(&rt));
    assert!(rt; fs::remove_file(&rt, MADE_NEW).is_ok() && is_taken(&rt));
    assert!(rt; fs::remove_file(&rt, MADE).is_ok());
}
