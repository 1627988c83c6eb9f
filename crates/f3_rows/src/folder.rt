//! Files in memory.

ghost use Rattle.std.specs.Prelude.{None};

use f3_files::files::Opener;
use std::io;

/// Files in memory, by their names.
#[derive(Drop)]
pub struct Folder<'a> {
    pub files: &'a [(&'a str, &'a [u8])],
}

impl<'a> Opener for Folder<'a> {
    type File = &'a [u8];

    ghost contents = { λ _ _. None };

    fn open(&self, name: &str) -> io::Result<&'a [u8]> {
        for (own, bytes) in self.files {
            if *own == name {
                return Ok(*bytes);
            }
        }
        Err(io::Error::from(io::ErrorKind::NotFound))
    }
}
