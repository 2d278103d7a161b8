// Calls on a file in memory, and on an empty one, which are cut short and fail where a script says so.
ghost use Rattle.std.specs.Prelude.{◌≡◌, ◌+◌, ◌<◌, ◌≤◌, [], length, take, IfOk};

use site_calls::{Calls, Record};
use std::alloc::Global;
use std::io;
use std::io::ErrorKind;

/// The file that holds bytes once it is made.
pub(crate) const FILE: u32 = 17;

/// A file that is there from the start, without bytes.
const EMPTY: u32 = 18;

/// A call moves at most `most` bytes. The script has a word for each call to come: its name, with `:fails`, with `:cut`
/// where a signal cuts it off, or with `:nothing` where it moves no byte. A call that isn't the next one fails, and so do
/// all behind the word `end`. Where the script has no word any more each gets through. Without memory none moves a byte.
#[derive(Drop)]
pub(crate) struct ScriptedCalls {
    most: usize,
    script: &'static str,
    is_there: bool,
    content: Vec<u8>,
    tape: Vec<u8>,
    record: Record,
}

impl ScriptedCalls {
    pub(crate) fn new(alloc: Global, most: usize, script: &'static str) -> ScriptedCalls
        ensures { result.record.events ≡ [] }
    {
        ScriptedCalls {
            most,
            script,
            is_there: false,
            content: Vec::new(alloc),
            tape: Vec::new(alloc),
            record: Record::new(),
        }
    }

    /// Whether this is left of the script.
    pub(crate) fn has_left(&self, words: &str) -> bool {
        self.script == words
    }

    /// Whether this is printed.
    pub(crate) fn has_tape(&self, bytes: &[u8]) -> bool {
        self.tape.as_slice() == bytes
    }

    /// Makes a call, and says how many bytes it may move.
    fn call(&mut self, name: &str) -> io::Result<usize>
        ensures { self.new.record ≡ self.old.record }
    {
        if self.script.is_empty() {
            return Ok(self.most);
        }
        let (word, rest) = self.script.split_once(' ').unwrap_or((self.script, ""));
        let (called, end) = word.split_once(':').unwrap_or((word, ""));
        if called != name {
            return Err(io::Error::from(ErrorKind::NotFound));
        }
        self.script = rest;
        let kind = match end {
            "" => return Ok(self.most),
            "nothing" => return Ok(0),
            "cut" => ErrorKind::Interrupted,
            _ => ErrorKind::Other,
        };
        Err(io::Error::from(kind))
    }

    /// Makes a call that moves bytes, of which there are so many, and says how many it may move. One that moves none fails.
    fn moves(&mut self, name: &str, size: usize) -> io::Result<usize>
        requires { 0 < size }
        ensures record { self.new.record ≡ self.old.record }
        ensures some { IfOk result (λ count. 0 < count) }
        ensures count { IfOk result (λ count. count ≤ size) }
    {
        let count = self.call(name)?.min(size);
        if count == 0 {
            return Err(io::Error::from(ErrorKind::WriteZero));
        }
        Ok(count)
    }

    /// Puts bytes over those of the file from this offset on, and past its end, if there is memory.
    fn puts(&mut self, at: u64, bytes: &[u8]) -> bool
        ensures { self.new.record ≡ self.old.record }
    {
        let content = &mut self.content;
        let from = (at as usize).min(content.len());
        let end = from + bytes.len();
        let size = end.max(content.len());
        if content.resize(size, 0).is_err() {
            return false;
        }
        content[from..end].copy_from_slice(bytes);
        true
    }
}

/// Copies at most so many bytes from an offset on behind those that are done, and says how many.
fn copy_some(content: &[u8], from: u64, most: usize, done: usize, out: &mut [u8]) -> usize
    requires { done ≤ length out.old }
    ensures count { done + result ≤ length out.old }
    ensures front { take done out.new ≡ take done out.old }
{
    if from > content.len() as u64 {
        return 0;
    }
    let rest = &content[from as usize..];
    let count = most.min(rest.len()).min(out.len() - done);
    out[done..done + count].copy_from_slice(&rest[..count]);
    count
}

impl Calls for ScriptedCalls {
    ghost events = { λ calls. calls.record.events };

    fn find(&mut self, file: u32) -> io::Result<bool> {
        if let Err(error) = self.call("find") {
            self.record.failed(file);
            return Err(error);
        }
        let is_there = file == EMPTY || file == FILE && self.is_there;
        self.record.found(file, is_there);
        Ok(is_there)
    }

    fn make(&mut self, file: u32) -> io::Result<()> {
        match self.call("make") {
            Ok(_) if file == FILE => {
                self.is_there = true;
                self.record.made(file);
                Ok(())
            }
            Ok(_) => {
                self.record.failed(file);
                Err(io::Error::from(ErrorKind::Unsupported))
            }
            Err(error) => {
                self.record.failed(file);
                Err(error)
            }
        }
    }

    fn measure(&mut self, file: u32) -> io::Result<u64> {
        if let Err(error) = self.call("measure") {
            self.record.failed(file);
            return Err(error);
        }
        let size = self.content.len() as u64;
        self.record.measured(file, size);
        Ok(size)
    }

    fn read_some(&mut self, file: u32, at: u64, done: usize, out: &mut [u8]) -> io::Result<usize> {
        let most = match self.call("read") {
            Ok(most) => most,
            Err(error) => {
                self.record.failed(file);
                return Err(error);
            }
        };
        let from = at.saturating_add(done as u64);
        let count = copy_some(&self.content, from, most, done, out);
        let size = out.len();
        self.record.got(file, at, size, count, &out[..done + count]);
        Ok(count)
    }

    fn begin_write(&mut self, file: u32, at: u64, size: usize) {
        self.record.begun(file, at, size);
    }

    fn write_some(&mut self, _file: u32, at: u64, done: usize, bytes: &[u8]) -> io::Result<usize> {
        match self.moves("write", bytes.len() - done) {
            Ok(count) if self.puts(at.saturating_add(done as u64), &bytes[done..done + count]) => {
                self.record.put(&bytes[..done + count]);
                Ok(count)
            }
            Ok(_) => {
                self.record.lost(&bytes[..done]);
                Err(io::Error::from(ErrorKind::WriteZero))
            }
            Err(error) => {
                self.record.lost(&bytes[..done]);
                Err(error)
            }
        }
    }

    fn flush(&mut self, file: u32) -> io::Result<()> {
        let answer = self.call("flush");
        self.record.flushed(file, answer.is_ok());
        match answer {
            Ok(_) => Ok(()),
            Err(error) => Err(error),
        }
    }

    fn flush_files(&mut self, files: &[u32]) -> Result<(), (u32, io::Error)> {
        match self.call("flushes") {
            Ok(_) => {
                self.record.flushed_all(files);
                Ok(())
            }
            Err(error) => {
                self.record.flushed(FILE, false);
                Err((FILE, error))
            }
        }
    }

    fn flush_names(&mut self) -> io::Result<()> {
        let answer = self.call("names");
        self.record.named(answer.is_ok());
        match answer {
            Ok(_) => Ok(()),
            Err(error) => Err(error),
        }
    }

    fn pass_over(&mut self, file: u32) {
        self.record.absent(file);
    }

    fn give_up(&mut self, file: u32) {
        self.record.flushed(file, false);
    }

    fn print_some(&mut self, done: usize, line: &[u8]) -> io::Result<usize> {
        let answer = self.moves("print", line.len() - done);
        match answer {
            Ok(count)
                if self
                    .tape
                    .extend_from_slice(&line[done..done + count])
                    .is_ok() => {
                self.record.printed(&line[done..done + count]);
                Ok(count)
            }
            Ok(_) => {
                self.record.unprinted();
                Err(io::Error::from(ErrorKind::WriteZero))
            }
            Err(error) => {
                self.record.unprinted();
                Err(error)
            }
        }
    }
}
