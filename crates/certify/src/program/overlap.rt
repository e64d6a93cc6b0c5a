//! Finds files that a call would overwrite, or write twice, even under different names.

use crate::program::call::RunFiles;
use std::fs;
use std::fs::{Files, Metadata};
use std::os::unix::fs::MetadataExt;

/// Returns `true` if both describe the same regular file. All names of a file share its device and its inode.
fn is_same(one: &Metadata, other: &Metadata) -> bool {
    one.is_file() && one.ino() != 0 && one.ino() == other.ino() && one.dev() == other.dev()
}

/// Returns `true` if two paths refer to the same regular file, perhaps through a link or by different spellings.
pub(super) fn is_one_file<R: Files>(rt: &R, one: &str, other: &str) -> bool {
    match (fs::metadata(rt, one), fs::metadata(rt, other)) {
        (Ok(one), Ok(other)) => is_same(&one, &other),
        _ => false,
    }
}

/// Returns `true` if two outputs would be written to the same file: the paths refer to the same regular file, or they
/// are equal and their metadata can't be read, as when there is no such file yet.
fn is_one_output<R: Files>(rt: &R, one: &str, other: &str) -> bool {
    if one == other {
        return match fs::metadata(rt, one) {
            Ok(found) => found.is_file(),
            Err(_) => true,
        };
    }
    is_one_file(rt, one, other)
}

/// Returns `true` if a run would overwrite its script, or write answers and certificate to the same file.
pub(super) fn overlaps<R: Files>(rt: &R, files: RunFiles<'_>) -> bool {
    is_one_file(rt, files.script, files.answers)
        || is_one_file(rt, files.script, files.certificate)
        || is_one_output(rt, files.answers, files.certificate)
}
