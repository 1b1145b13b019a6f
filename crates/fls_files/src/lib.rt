//! A flash in an image file, and what such a file is: any file of bytes that is opened, settled, read and written at an
//! address, cleared and synced.
//!
//! It promises what the flash tells, and what a power cut leaves of it, over any file that keeps that contract. That the
//! system's file does is trusted: `image_file.rt` and `system_file.rt`. What a flash is stands in `fls_model`.
#![tactic(auto)]

mod asked;
mod byte_file;
mod file_flash;
mod image_file;
mod memory_file;
mod seen_file;
mod system_file;

pub use byte_file::{ByteFile, OpenFault};
pub use file_flash::FileFlash;
pub use image_file::{ImageFault, ImageFile};
pub use memory_file::{MemFile, mem_file};
pub use seen_file::SeenFile;
pub use system_file::SystemFile;
