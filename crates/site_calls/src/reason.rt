// What the system's error doesn't say.
ghost use Rattle.std.specs.Prelude.{Some};
ghost use Rattle.site_calls.specs.Reasons.{reason_text};

use crate::file_name::FileName;
use std::fmt;

/// Why a call failed, where the system's error alone doesn't tell it.
#[derive(Clone, Copy, PartialEq, Eq)]
pub enum Reason {
    /// The null device can't be opened.
    NullDevice,
    /// The directory can't be opened or locked.
    Directory,
    /// Another run holds the directory.
    Locked,
    /// Another run holds the file, which it has under another name.
    HeldFile,
    /// What has the file's name is a directory, a pipe or a device.
    NotRegular,
    /// The file is the same as another one, by a link.
    SameAs(FileName),
}

impl fmt::Display for Reason {
    ghost output = { λ reason. Some (reason_text reason) };

    fn fmt<W: fmt::Write>(&self, f: &mut fmt::Formatter<W>) -> fmt::Result {
        match *self {
            Reason::NullDevice => f.write_str("the null device can't be opened"),
            Reason::Directory => f.write_str("the directory can't be opened or locked"),
            Reason::Locked => f.write_str("another run holds the directory"),
            Reason::HeldFile => f.write_str("another run holds this file"),
            Reason::NotRegular => f.write_str("not a regular file"),
            Reason::SameAs(name) => write!(f, "the same file as {name}"),
        }
    }
}
