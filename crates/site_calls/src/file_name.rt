// The files of a site by number, and their names.
ghost use Rattle.std.specs.Prelude.{◌≡◌, ◌↔◌, ◌%◌, nat_lt, IsSome, IfSome, Some};
ghost use Rattle.site_calls.specs.FileNumbers.{IsFileNumber, number_of, place_of, name_text, kind_text};

use std::fmt;

/// The name of a numbered file.
#[derive(Clone, Copy, PartialEq, Eq)]
pub enum FileName {
    /// The flows that are running.
    Flows,
    /// The requests, one a line.
    Requests,
    /// The plan.
    Plan,
    /// A file of one of the 32 partitions.
    Part(u32, PartKind),
}

/// The four files of a partition.
#[derive(Clone, Copy, PartialEq, Eq)]
pub enum PartKind {
    /// The first of its two logs.
    FirstLog,
    /// The second of its two logs.
    SecondLog,
    /// The first of its two checkpoints.
    FirstCheckpoint,
    /// The second of its two checkpoints.
    SecondCheckpoint,
}

impl FileName {
    /// The name of the file with this number, if it is the number of a file.
    pub fn from_number(number: u32) -> Option<FileName>
        ensures there { IsSome result ↔ IsFileNumber number }
        ensures same { IfSome result (λ name. number_of name ≡ number) }
    {
        match number {
            0 => Some(FileName::Flows),
            1 => Some(FileName::Requests),
            2 => Some(FileName::Plan),
            16..=143 => Some(FileName::Part((number - 16) / 4, kind_of(number))),
            _ => None,
        }
    }

    /// Whether this is a file that a run reads and never writes.
    pub fn is_input(self) -> bool
        ensures { result ≡ nat_lt (number_of self) 16 }
    {
        !matches!(self, FileName::Part(..))
    }
}

fn kind_of(number: u32) -> PartKind
    ensures { place_of result ≡ number % 4 }
{
    match number % 4 {
        0 => PartKind::FirstLog,
        1 => PartKind::SecondLog,
        2 => PartKind::FirstCheckpoint,
        _ => PartKind::SecondCheckpoint,
    }
}

impl fmt::Display for FileName {
    ghost output = { λ name. Some (name_text name) };

    fn fmt<W: fmt::Write>(&self, f: &mut fmt::Formatter<W>) -> fmt::Result {
        match *self {
            FileName::Flows => f.write_str("flows.json"),
            FileName::Requests => f.write_str("requests.jsonl"),
            FileName::Plan => f.write_str("plan.json"),
            FileName::Part(partition, kind) => {
                write!(f, "p{}{}.{kind}", partition / 10, partition % 10)
            }
        }
    }
}

impl fmt::Display for PartKind {
    ghost output = { λ kind. Some (kind_text kind) };

    fn fmt<W: fmt::Write>(&self, f: &mut fmt::Formatter<W>) -> fmt::Result {
        f.write_str(match *self {
            PartKind::FirstLog => "log0",
            PartKind::SecondLog => "log1",
            PartKind::FirstCheckpoint => "ck0",
            PartKind::SecondCheckpoint => "ck1",
        })
    }
}
