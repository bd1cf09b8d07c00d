// The command line.
ghost use Rattle.std.specs.Prelude.{◌≡◌, ◌&&◌, length, ◌==◌, nat_lt, slice_index};
ghost use Rattle.std.specs.Str.{bytes_eq};
ghost use Rattle.listing.specs.Command.{word_of, book_word_of};

use std::alloc::{AllocError, Global};
use std::vec::IntoIter;

// How a text is listed: in words for a person, or in tab-separated lines for a program.
#[derive(Clone, Copy, PartialEq, Eq, Debug, Drop)]
pub enum Format {
    Person,
    Plain,
}

// Which book is listed.
#[derive(Clone, Copy, PartialEq, Eq, Debug, Drop)]
pub enum Which {
    Recadv,
    Trial,
}

// What of a book is listed: its rows, or also their layouts.
#[derive(Clone, Copy, PartialEq, Eq, Debug, Drop)]
pub enum Detail {
    Rows,
    Layouts,
}

// What a word behind the command `cut` is.
#[derive(Clone, Copy, PartialEq, Eq, Debug, Drop)]
pub enum Word {
    Plain,
    Help,
    EndOfOptions,
    UnknownOption,
    File,
}

impl From<&str> for Word {
    ghost from_gives = { λ word kind. kind ≡ word_of word.now };

    // A lone `-` is a file: the standard input.
    fn from(word: &str) -> Word {
        match word {
            "--plain" => Word::Plain,
            "--help" => Word::Help,
            "--" => Word::EndOfOptions,
            "-" => Word::File,
            _ if word.starts_with('-') => Word::UnknownOption,
            _ => Word::File,
        }
    }
}

// What a word behind the command `book` is.
#[derive(Clone, Copy, PartialEq, Eq, Debug, Drop)]
pub enum BookWord {
    Trial,
    Layouts,
    Plain,
    Help,
    Unknown,
}

impl From<&str> for BookWord {
    ghost from_gives = { λ word kind. kind ≡ book_word_of word.now };

    fn from(word: &str) -> BookWord {
        match word {
            "--trial" => BookWord::Trial,
            "--layouts" => BookWord::Layouts,
            "--plain" => BookWord::Plain,
            "--help" => BookWord::Help,
            _ => BookWord::Unknown,
        }
    }
}

// What the program is asked for.
#[derive(Debug, Drop)]
pub enum Request {
    Help,
    // The command or a word behind it isn't known.
    Unknown(String),
    // Nothing is asked.
    Nothing,
    Cut(Format, Vec<String>),
    Book(Which, Detail, Format),
}

pub const USAGE: &str = "usage: savdugor cut [--plain] [FILE...]
       savdugor book [--trial] [--layouts] [--plain]
cut: cuts EDIFACT texts and lists their segments, elements and components.
Without a FILE, or where FILE is -, the standard input is read.
  --plain    print tab-separated lines for programs
  --help     print this
  --         take all further words as files
book: lists the rows of the built-in book RECADV.
  --trial    list the trial book
  --layouts  list the elements and components of each row too
  --plain    print tab-separated lines for programs
  --help     print this
";

// The request that the words behind `cut` make.
fn parse_cut(heap: Global, mut words: IntoIter<String>) -> Result<Request, AllocError> {
    let mut format = Format::Person;
    let mut files = Vec::new(heap);
    for word in &mut words {
        match Word::from(word.as_str()) {
            Word::Plain => format = Format::Plain,
            Word::Help => return Ok(Request::Help),
            Word::EndOfOptions => break,
            Word::UnknownOption => return Ok(Request::Unknown(word)),
            Word::File => files.push(word)?,
        }
    }
    // What is left behind the end of the options.
    for word in words {
        files.push(word)?;
    }
    Ok(Request::Cut(format, files))
}

// The request that the words behind `book` make.
fn parse_book(words: IntoIter<String>) -> Request {
    let mut which = Which::Recadv;
    let mut detail = Detail::Rows;
    let mut format = Format::Person;
    for word in words {
        match BookWord::from(word.as_str()) {
            BookWord::Trial => which = Which::Trial,
            BookWord::Layouts => detail = Detail::Layouts,
            BookWord::Plain => format = Format::Plain,
            BookWord::Help => return Request::Help,
            BookWord::Unknown => return Request::Unknown(word),
        }
    }
    Request::Book(which, detail, format)
}

// The request that the words behind the program's name make.
pub fn parse(heap: Global, words: Vec<String>) -> Result<Request, AllocError> {
    let mut words = words.into_iter();
    let Some(command) = words.next() else {
        return Ok(Request::Nothing);
    };
    match command.as_str() {
        "cut" => parse_cut(heap, words),
        "book" => Ok(parse_book(words)),
        "--help" => Ok(Request::Help),
        _ => Ok(Request::Unknown(command)),
    }
}
