//! Reading a file as the program does.
use std::rt::Files;
use std::{fs, io};

/// A file's bytes; one that cannot be read counts as empty.
pub fn contents<R: Files + Alloc>(rt: &R, path: &str) -> Vec<u8, R::A> {
    fs::read(rt, path).unwrap_or_else(|_| Vec::new(rt.alloc()))
}
