// The program: cuts texts and lists what it found, and lists the built-in books.
#![tactic(auto)]

use anyhow::{anyhow, ensure};
use booklist::form::{BookForm, push_book};
use books::{recadv, trial};
use listing::command::{Detail, Format, Request, USAGE, Which, parse};
use listing::page::Page;
use listing::person::Person;
use listing::plain::Plain;
use listing::text::{TextForm, push_text};
use std::io::{Read, Write};
use std::{env, fs, io};

// The bytes of a file, or of the standard input for `-`.
fn read_text(rt: &HostRuntime, name: &str) -> io::Result<Vec<u8>> {
    if name == "-" {
        let mut text = Vec::new(rt.alloc());
        rt.stdin().read_to_end(&mut text)?;
        Ok(text)
    } else {
        fs::read(rt, name)
    }
}

// Lists one text; answers whether it was cut throughout.
fn list<F: TextForm>(rt: &HostRuntime, name: &str) -> anyhow::Result<bool> {
    let text = match read_text(rt, name) {
        Ok(text) => text,
        Err(why) => {
            eprintln!(rt; "savdugor: {name} can't be read: {why}")?;
            return Ok(false);
        }
    };
    let mut page = Page::new(rt.alloc());
    let fault = push_text::<F>(&mut page, name, text.as_slice())?;
    rt.stdout().write_all(page.as_slice())?;
    match fault {
        Some(fault) => {
            eprintln!(rt; "savdugor: {name} is stopped at {fault}")?;
            Ok(false)
        }
        None => Ok(true),
    }
}

// Lists all texts, and ends in an error if one wasn't cut throughout.
fn list_all<F: TextForm>(rt: &HostRuntime, names: Vec<String>) -> anyhow::Result<()> {
    // a flag: no other value stands beside it
    let mut good = true;
    if names.is_empty() {
        good = list::<F>(rt, "-")?;
    }
    for name in names {
        good &= list::<F>(rt, name.as_str())?;
    }
    ensure!(good, "not every text was cut throughout");
    Ok(())
}

// Lists the book that is asked.
fn list_book<F: BookForm>(rt: &HostRuntime, which: Which, detail: Detail) -> anyhow::Result<()> {
    let mut page = Page::new(rt.alloc());
    match which {
        Which::Recadv => push_book::<F, _>(&mut page, &recadv::book(), detail)?,
        Which::Trial => push_book::<F, _>(&mut page, &trial::book(), detail)?,
    }
    rt.stdout().write_all(page.as_slice())?;
    Ok(())
}

fn main(rt: HostRuntime) -> anyhow::Result<()> {
    let mut words = Vec::new(rt.alloc());
    for word in env::args(&rt)?.skip(1) {
        words.push(word)?;
    }
    match parse(rt.alloc(), words)? {
        Request::Cut(Format::Plain, names) => list_all::<Plain>(&rt, names),
        Request::Cut(Format::Person, names) => list_all::<Person>(&rt, names),
        Request::Book(which, detail, Format::Plain) => list_book::<Plain>(&rt, which, detail),
        Request::Book(which, detail, Format::Person) => list_book::<Person>(&rt, which, detail),
        Request::Help => {
            print!(rt; "{USAGE}")?;
            Ok(())
        }
        Request::Unknown(word) => {
            let word = word.as_str();
            eprint!(rt; "savdugor: {word} is unknown\n{USAGE}")?;
            Err(anyhow!("unknown word"))
        }
        Request::Nothing => {
            eprint!(rt; "{USAGE}")?;
            Err(anyhow!("no command"))
        }
    }
}
