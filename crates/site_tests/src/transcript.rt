// Transcripts: calls of a site with what they give, as text. One function makes those of all tests.
use site_model::Site;
use std::process::Abort;

/// A line: `[fails] VERB [NUMBER [NUMBER]] [TEXT]`. A file's number comes first.
#[derive(Clone, Copy)]
pub(crate) struct Line {
    /// Whether the call is to fail.
    pub(crate) fails: bool,
    pub(crate) verb: &'static str,
    /// The first number, where it is a file's.
    pub(crate) file: u32,
    pub(crate) first: u64,
    pub(crate) second: u64,
    pub(crate) text: &'static str,
    pub(crate) bytes: &'static [u8],
}

/// A site, and what lies behind it.
pub(crate) trait World {
    /// Makes the call of this line, and says whether it gives what the line says.
    fn is_right(&mut self, host: &HostRuntime, line: Line) -> bool;
}

/// The number that stands first in the text, or 0, and what is behind it.
fn number_at(text: &'static str) -> (u64, &'static str) {
    let (word, rest) = text.split_once(' ').unwrap_or((text, ""));
    match word.parse::<u64>() {
        Ok(number) => (number, rest),
        Err(_) => (0, text),
    }
}

pub(crate) fn read_line(text: &'static str) -> Line {
    let call = text.strip_prefix("fails ").unwrap_or(text);
    let (verb, rest) = call.split_once(' ').unwrap_or((call, ""));
    let (first, rest) = number_at(rest);
    let (second, rest) = number_at(rest);
    Line {
        fails: call.len() < text.len(),
        verb,
        file: first.min(0xFFFF_FFFF) as u32,
        first,
        second,
        text: rest,
        bytes: rest.as_bytes(),
    }
}

/// Each line is right in its turn. Behind each stands a semicolon. One that begins with `#` is a title.
pub(crate) fn check(
    rt: &impl Abort,
    host: &HostRuntime,
    world: &mut impl World,
    transcript: &'static str,
) {
    for text in transcript.split_terminator(';') {
        let line = read_line(text.trim_start());
        assert!(rt; world.is_right(host, line), "not so: {text}");
    }
}

fn has_length(site: &mut impl Site, line: Line) -> bool {
    match site.length(line.file) {
        Ok(length) => !line.fails && length == line.second,
        Err(_) => line.fails,
    }
}

fn reads(site: &mut impl Site, line: Line, room: usize) -> bool {
    let mut out = [b'.'; 16];
    match site.read(line.file, line.second, &mut out[..room.min(16)]) {
        Ok(count) => !line.fails && count == line.bytes.len() && out.starts_with(line.bytes),
        Err(_) => line.fails,
    }
}

/// From an offset in the file on. It is measured before.
fn writes_inside(site: &mut impl Site, line: Line) -> bool {
    match site.length(line.file) {
        Ok(length) if line.second <= length => {
            site.write(line.file, line.second, line.bytes).is_err() == line.fails
        }
        _ => false,
    }
}

/// Of the files with these numbers, at most 16: `FILE,FILE..`, with a comma behind one alone.
fn syncs_together(site: &mut impl Site, line: Line) -> bool {
    let mut files = [0; 16];
    let mut count = 0;
    for word in line.text.split(',') {
        if let Ok(file) = word.parse::<u32>()
            && count < files.len()
        {
            files[count] = file;
            count += 1;
        }
    }
    site.sync_files(&files[..count.min(16)]).is_err() == line.fails
}

/// The call of this line that each site has. A write is at the file's start. A read asks for so many bytes, up to 16.
pub(crate) fn answers(site: &mut impl Site, line: Line, room: usize) -> bool {
    let answer = match line.verb {
        "length" => return has_length(site, line),
        "read" => return reads(site, line, room),
        "inside" => return writes_inside(site, line),
        "together" => return syncs_together(site, line),
        "write" => site.write(line.file, 0, line.bytes),
        "sync" => site.sync(line.file),
        "say" if !line.bytes.is_empty() => site.say(line.bytes),
        "at" => return site.moment() == line.first,
        word => return word == "#",
    };
    answer.is_err() == line.fails
}
