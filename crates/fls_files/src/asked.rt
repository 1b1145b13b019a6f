// A changing operation of a flash in a file.
use crate::ByteFile;
use fls_model::{Call, FlashAnswer};
use nv_base::Trace;
use std::marker::Model;

// One that was asked for, with the file as it was before it and its answer. Contracts alone read it.
#[derive(Drop)]
pub struct Asked<T: ByteFile> {
    pub call: Call,
    pub before: Trace<Option<T>>,
    pub answer: FlashAnswer,
}

impl<T: ByteFile> Model for Asked<T> {
    ghost use Rattle.std.specs.Prelude.{map};
    ghost use Rattle.fls_files.specs.ByteFile.{held_by};
    ghost use Rattle.fls_files.specs.FileFlashInside.{AskedOf, first_now};

    ghost Value = { AskedOf };

    ghost view = { λ a. record { call = a.call; before = first_now (map (held_by T.held) a.before.items); answer = a.answer } };
}
