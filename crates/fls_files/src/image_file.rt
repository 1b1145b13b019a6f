// An image file of the system. What it gives and takes is trusted.
ghost use Rattle.std.specs.Prelude.{None};

use crate::system_file::{SystemFile, is_at, make_apart, open_apart};
use crate::{ByteFile, OpenFault};
use std::fs::{OpenFile, symlink_metadata};
use std::io;
use std::io::ErrorKind;
use std::path::Path;
use std::rt::Files;

/// Why an image file isn't opened: another call has it, or is making it; under the name at which it is made stands what no call has
/// left there; or a call of the system failed.
#[derive(Clone, Copy, PartialEq, Eq)]
pub enum ImageFault {
    InUse,
    InTheWay,
    Failed,
}

impl From<io::Error> for ImageFault {
    fn from(_error: io::Error) -> ImageFault {
        ImageFault::Failed
    }
}

impl From<OpenFault> for ImageFault {
    fn from(fault: OpenFault) -> ImageFault {
        match fault {
            OpenFault::InUse => ImageFault::InUse,
            OpenFault::Failed => ImageFault::Failed,
        }
    }
}

/// An image file that is opened at the attach of its flash, so what ends before that makes none. It is locked until it is closed, to
/// be read alone shared with others that do so too; another call finds it in use. Where it is to be changed and nothing has its path, it is made under another name, and gets its own with its first sync: so under its
/// own name it is whole, whenever the program ends. What has its path is filled in its place, so that no device, link or empty
/// file is replaced. Its folder is opened first, and its entry in it is synced before an attach has ended well.
#[derive(Drop)]
pub struct ImageFile<'a, R: Files> {
    rt: &'a R,
    path: &'a str,
    // the name under which it is made, where it is to be changed
    beside: Option<&'a str>,
    file: Option<R::File>,
    // its folder, while its entry there has to be synced
    folder: Option<R::File>,
    // it stands under that name yet
    unnamed: bool,
    // it holds a flash, and is never cut back again
    whole: bool,
    fault: Option<ImageFault>,
}

impl<'a, R: Files> ImageFile<'a, R> {
    fn at(rt: &'a R, path: &'a str, beside: Option<&'a str>) -> ImageFile<'a, R> {
        ImageFile {
            rt,
            path,
            beside,
            file: None,
            folder: None,
            unnamed: false,
            whole: false,
            fault: None,
        }
    }

    /// To be read and changed, and made where it is absent, under the name `beside` until it is whole.
    pub fn to_change(rt: &'a R, path: &'a str, beside: &'a str) -> ImageFile<'a, R> {
        ImageFile::at(rt, path, Some(beside))
    }

    /// To be read alone.
    pub fn to_read(rt: &'a R, path: &'a str) -> ImageFile<'a, R> {
        ImageFile::at(rt, path, None)
    }

    /// Why it wasn't opened, where that was tried and failed.
    pub fn fault(&self) -> Option<ImageFault> {
        self.fault
    }
}

// The error of a call before it is open.
fn not_open() -> io::Error {
    io::Error::from(ErrorKind::NotFound)
}

// The folder of a file.
fn folder_of<R: Files>(rt: &R, path: &str) -> io::Result<R::File> {
    let folder = match Path::new(path).parent() {
        Some(folder) if !folder.as_str().is_empty() => folder.as_str(),
        _ => ".",
    };
    open_apart(rt, folder, false, false)
}

// Locks a file, and looks whether it has that name yet.
fn hold<R: Files>(rt: &R, path: &str, file: &mut R::File, shared: bool) -> Result<(), ImageFault>
where
    R::File: SystemFile,
{
    file.hold(shared)?;
    if is_at(rt, path, file) {
        Ok(())
    } else {
        Err(ImageFault::InUse)
    }
}

fn are_erased(bytes: &[u8]) -> bool {
    for i in 0..bytes.len() {
        if bytes[i] != 255 {
            return false;
        }
    }
    true
}

// Whether so many bytes of a file are 255 each.
fn is_erased<T: ByteFile>(file: &mut T, size: u64) -> io::Result<bool> {
    let mut piece = [0; 512];
    for k in 0..size / 512 {
        file.read_at(k * 512, &mut piece)?;
        if !are_erased(&piece) {
            return Ok(false);
        }
    }
    let rest = &mut piece[..(size % 512) as usize];
    file.read_at(size - size % 512, rest)?;
    Ok(are_erased(rest))
}

// Takes what a call that was killed left under this name: a file of the name's own, of at most so many bytes, each of them 255.
fn take_apart<R: Files>(rt: &R, path: &str, most: u64) -> Result<R::File, ImageFault>
where
    R::File: SystemFile,
{
    let Ok(named) = symlink_metadata(rt, path) else {
        // (another call has just given it its own name)
        return Err(ImageFault::InUse);
    };
    if !named.is_file() || named.len() > most {
        return Err(ImageFault::InTheWay);
    }
    let mut file = match open_apart(rt, path, true, false) {
        Err(error) if error.kind() == ErrorKind::NotFound => return Err(ImageFault::InUse),
        opened => opened?,
    };
    hold(rt, path, &mut file, false)?;
    let size = OpenFile::metadata(&file)?.len();
    if size > most || !is_erased(&mut file, size)? {
        return Err(ImageFault::InTheWay);
    }
    Ok(file)
}

// A file of no bytes under this name, where nothing has it, or what a call that was killed left there.
fn make_or_take<R: Files>(rt: &R, path: &str, most: u64) -> Result<R::File, ImageFault>
where
    R::File: SystemFile,
{
    match make_apart(rt, path) {
        Ok(file) => {
            let mut file = file;
            hold(rt, path, &mut file, false)?;
            Ok(file)
        }
        Err(error) if error.kind() == ErrorKind::AlreadyExists => take_apart(rt, path, most),
        Err(_) => Err(ImageFault::Failed),
    }
}

impl<'a, R: Files> ImageFile<'a, R>
where
    R::File: SystemFile,
{
    // Opens the file that is there, and brings its folder's entry of it to the disk.
    fn open_named(&mut self, file: R::File, shared: bool) -> Result<(), ImageFault> {
        let mut file = file;
        hold(self.rt, self.path, &mut file, shared)?;
        self.file = Some(file);
        Ok(())
    }

    // Makes it under the other name.
    fn make(&mut self, beside: &str, most: u64) -> Result<(), ImageFault> {
        let mut file = make_or_take(self.rt, beside, most)?;
        if symlink_metadata(self.rt, self.path).is_ok() {
            // (another call has made it since it wasn't found)
            let _ = self.rt.remove_file(beside);
            return Err(ImageFault::InUse);
        }
        file.clear()?;
        self.unnamed = true;
        self.file = Some(file);
        Ok(())
    }

    // Opens its file, or an empty one under the other name.
    fn begin(&mut self, most: u64) -> Result<(), ImageFault> {
        let Some(beside) = self.beside else {
            let file = open_apart(self.rt, self.path, false, false)?;
            return self.open_named(file, true);
        };
        self.folder = Some(folder_of(self.rt, self.path)?);
        match open_apart(self.rt, self.path, true, false) {
            Err(error) if error.kind() == ErrorKind::NotFound => {}
            opened => return self.open_named(opened?, false),
        }
        if symlink_metadata(self.rt, self.path).is_err() {
            return self.make(beside, most);
        }
        // (a link that leads to nothing)
        let file = open_apart(self.rt, self.path, true, true)?;
        self.open_named(file, false)
    }

    // Brings its folder's entry of it to the disk, once.
    fn enter(&mut self) -> io::Result<()> {
        if let Some(folder) = &self.folder {
            folder.sync_all()?;
        }
        self.folder = None;
        Ok(())
    }

    // Its size, when it is open.
    fn begin_sized(&mut self, most: u64) -> Result<u64, ImageFault> {
        if self.file.is_none() {
            self.begin(most)?;
        }
        let size = match &mut self.file {
            Some(file) => file.open(most)?,
            None => return Err(ImageFault::Failed),
        };
        if !self.unnamed {
            self.whole = self.whole || size != 0;
            self.enter()?;
        }
        Ok(size)
    }

    // Gives the file its own name, once it is whole.
    fn name(&mut self) -> io::Result<()> {
        if let Some(beside) = self.beside {
            if symlink_metadata(self.rt, self.path).is_ok() {
                return Err(io::Error::from(ErrorKind::AlreadyExists));
            }
            self.rt.rename(beside, self.path)?;
        }
        self.unnamed = false;
        Ok(())
    }
}

impl<'a, R: Files> ByteFile for ImageFile<'a, R>
where
    R::File: SystemFile,
{
    ghost held = { λ _. None };

    fn open(&mut self, most: u64) -> Result<u64, OpenFault> {
        match self.begin_sized(most) {
            Ok(size) => {
                self.fault = None;
                Ok(size)
            }
            Err(fault) => {
                self.fault = Some(fault);
                match fault {
                    ImageFault::InUse => Err(OpenFault::InUse),
                    _ => Err(OpenFault::Failed),
                }
            }
        }
    }

    // One that is read alone can only be synced.
    fn settle(&mut self) -> io::Result<()> {
        match &mut self.file {
            Some(file) if self.beside.is_some() => file.settle(),
            Some(file) => file.sync(),
            None => Err(not_open()),
        }
    }

    fn read_at(&mut self, address: u64, into: &mut [u8]) -> io::Result<()> {
        match &mut self.file {
            Some(file) => file.read_at(address, into),
            None => Err(not_open()),
        }
    }

    fn write_at(&mut self, address: u64, bytes: &[u8]) -> io::Result<()> {
        match &mut self.file {
            Some(file) => file.write_at(address, bytes),
            None => Err(not_open()),
        }
    }

    // Only while it holds no flash: from then on another call may find it.
    fn clear(&mut self) -> io::Result<()> {
        match &mut self.file {
            Some(file) if !self.whole => file.clear(),
            _ => Err(not_open()),
        }
    }

    fn sync(&mut self) -> io::Result<()> {
        match &mut self.file {
            Some(file) => file.sync()?,
            None => return Err(not_open()),
        }
        if self.unnamed {
            self.name()?;
        }
        self.whole = true;
        self.enter()
    }
}
