// Case files.
//
// A file is a list of cases. A case has these lines, in this order; a line in brackets may be missing:
//
//     #### words W W ..       "" is a word without letters
//     [#### most-read N]      most bytes that a read gives (else 4,096)
//     [#### fails-read N ..]  the numbers of the reads that fail, from 1
//     [#### most-write N]     most bytes that a write takes (else 4,096)
//     [#### fails-write N ..] the numbers of the writes that fail, from 1
//     [#### repeat N]         how often the source's bytes stand behind one another (else once)
//     #### source [FILE]      a text, or the bytes of this file
//     #### status N
//     #### message TEXT
//     #### output             what goes out
//
// Behind `source` and `output` stands a text, from the next line to the line feed before the next line that begins with `#### `,
// or before the end of the file. So a text that ends with a line feed has an empty line behind it.
use std::alloc::{AllocError, Global};

/// What the source gives: bytes that stand in the case, or those of a file that lies where the program runs.
#[derive(Clone, Copy)]
pub enum Given<'a> {
    Here(&'a [u8]),
    File(&'a str),
}

/// One run of the top call, and what it must come to.
#[derive(Drop)]
pub struct Case<'a> {
    pub words: Vec<&'a str>,
    pub most_read: usize,
    pub fails_read: Vec<u64>,
    pub most_write: usize,
    pub fails_write: Vec<u64>,
    pub repeat: u64,
    pub source: Given<'a>,
    pub status: u64,
    pub message: &'a str,
    pub output: &'a [u8],
}

/// The first line and what follows its line feed.
fn split_line(bytes: &[u8]) -> Option<(&[u8], &[u8])> {
    let end = bytes.iter().position(|byte| *byte == b'\n')?;
    if end < bytes.len() {
        Some((&bytes[..end], &bytes[end + 1..]))
    } else {
        None
    }
}

/// What stands behind the word of the next line, where it is this word, and what follows the line.
fn field<'a>(bytes: &'a [u8], word: &str) -> Option<(&'a str, &'a [u8])> {
    let (line, rest) = split_line(bytes)?;
    let line = std::str::from_utf8(line).ok()?;
    let line = line.strip_prefix("#### ")?.strip_prefix(word)?;
    Some((line.trim(), rest))
}

/// A field that may be missing.
fn optional<'a>(bytes: &'a [u8], word: &str) -> (Option<&'a str>, &'a [u8]) {
    match field(bytes, word) {
        Some((text, rest)) => (Some(text), rest),
        None => (None, bytes),
    }
}

/// The text under a line with this word, up to the line feed before the next heading or the end.
fn text_under<'a>(bytes: &'a [u8], word: &str) -> Option<(&'a [u8], &'a [u8])> {
    let (_, rest) = field(bytes, word)?;
    let heading = rest
        .windows(6)
        .position(|window| window == b"\n#### ".as_slice());
    let end = heading.unwrap_or(rest.len().saturating_sub(1));
    if end < rest.len() {
        Some((&rest[..end], &rest[end + 1..]))
    } else {
        None
    }
}

/// What the source gives.
fn read_given<'a>(bytes: &'a [u8]) -> Option<(Given<'a>, &'a [u8])> {
    let (file, rest) = field(bytes, "source")?;
    if file.is_empty() {
        let (text, rest) = text_under(bytes, "source")?;
        Some((Given::Here(text), rest))
    } else {
        Some((Given::File(file), rest))
    }
}

fn words_of<'a>(alloc: Global, text: &'a str) -> Result<Vec<&'a str>, AllocError> {
    let mut words = Vec::new(alloc);
    for word in text.split(' ') {
        if word == "\"\"" {
            words.push("")?;
        } else if !word.is_empty() {
            words.push(word)?;
        }
    }
    Ok(words)
}

/// The numbers of a line; a word that is no number is left out.
fn numbers_of(alloc: Global, text: Option<&str>) -> Result<Vec<u64>, AllocError> {
    let mut numbers = Vec::new(alloc);
    for word in text.unwrap_or("").split(' ') {
        if let Ok(number) = word.parse::<u64>() {
            numbers.push(number)?;
        }
    }
    Ok(numbers)
}

/// The most bytes of a call: at least 1.
fn most_of(text: Option<&str>) -> usize {
    match text.unwrap_or("4096").parse::<usize>() {
        Ok(most) => most.max(1),
        Err(_) => 4096,
    }
}

/// A count: once where none is given.
fn count_of(text: Option<&str>) -> u64 {
    match text.unwrap_or("1").parse::<u64>() {
        Ok(count) => count,
        Err(_) => 1,
    }
}

/// What a case expects.
#[derive(Drop)]
struct Expected<'a> {
    status: u64,
    message: &'a str,
    output: &'a [u8],
    rest: &'a [u8],
}

fn read_expected(bytes: &[u8]) -> Option<Expected<'_>> {
    let (status, rest) = field(bytes, "status")?;
    let status = status.parse::<u64>().ok()?;
    let (message, rest) = field(rest, "message")?;
    let (output, rest) = text_under(rest, "output")?;
    Some(Expected {
        status,
        message,
        output,
        rest,
    })
}

/// The first case, and the bytes behind it. None where the bytes are no case.
pub fn next_case<'a>(
    alloc: Global,
    bytes: &'a [u8],
) -> Result<Option<(Case<'a>, &'a [u8])>, AllocError> {
    let Some((words, rest)) = field(bytes, "words") else {
        return Ok(None);
    };
    let (most_read, rest) = optional(rest, "most-read");
    let (fails_read, rest) = optional(rest, "fails-read");
    let (most_write, rest) = optional(rest, "most-write");
    let (fails_write, rest) = optional(rest, "fails-write");
    let (repeat, rest) = optional(rest, "repeat");
    let Some((source, rest)) = read_given(rest) else {
        return Ok(None);
    };
    let Some(expected) = read_expected(rest) else {
        return Ok(None);
    };
    let words = words_of(alloc, words)?;
    let fails_read = numbers_of(alloc, fails_read)?;
    let fails_write = numbers_of(alloc, fails_write)?;
    let case = Case {
        words,
        most_read: most_of(most_read),
        fails_read,
        most_write: most_of(most_write),
        fails_write,
        repeat: count_of(repeat),
        source,
        status: expected.status,
        message: expected.message,
        output: expected.output,
    };
    Ok(Some((case, expected.rest)))
}
