// Runs trials through the public calls. What it prints is held to the stored output.
#![tactic(auto)]

mod edges;
#[cfg(test)]
mod tests;

use booklist::form::push_book;
use books::{recadv, trial};
use edges::EDGES;
use listing::command::Detail;
use listing::page::Page;
use listing::plain::Plain;
use listing::text::push_text;
use std::fs;
use std::io::Write;

// The worked examples whose last segment has no terminator.
const UNENDED: [&str; 3] = ["advice-5.edi", "advice-6.edi", "advice-7.edi"];

fn main(rt: HostRuntime) -> anyhow::Result<()> {
    let mut page = Page::new(rt.alloc());
    for name in UNENDED {
        let text = fs::read(&rt, name)?;
        push_text::<Plain>(&mut page, name, text.as_slice())?;
    }
    for edge in &EDGES {
        push_text::<Plain>(&mut page, edge.what, edge.text)?;
    }
    push_book::<Plain, _>(&mut page, &trial::book(), Detail::Layouts)?;
    push_book::<Plain, _>(&mut page, &recadv::book(), Detail::Layouts)?;
    rt.stdout().write_all(page.as_slice())?;
    Ok(())
}
