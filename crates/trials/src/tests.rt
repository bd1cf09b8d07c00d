// Tests over the public calls.
use crate::edges::EDGES;
use booklist::form::push_book;
use books::{recadv, trial};
use edifact::cutter::Cutter;
use listing::command::{BookWord, Detail, Format, Request, Which, Word, parse};
use listing::page::Page;
use listing::person::Person;
use listing::plain::Plain;
use listing::text::{push_elements, push_segment, push_text};
use message::book::Book;
use std::alloc::{AllocError, Global};
use std::process::Abort;
use std::test::Fail;
use syntax::fault::{CutFault, Place, Refusal};
use syntax::marks::DecimalMark;

// Each edge's listing ends in its line.
#[test]
fn edges_end_as_they_should(rt: HostRuntime) -> Result<(), Fail> {
    let heap = rt.alloc();
    for edge in &EDGES {
        let mut page = Page::new(heap);
        push_text::<Plain>(&mut page, edge.what, edge.text)?;
        let last = edge.last;
        let line = format!(in heap; "\n{last}\n")?;
        assert!(rt; page.as_slice().ends_with(line.as_bytes()), "{}", edge.what);
    }
    Ok(())
}

// A page holds what is pushed and written to it, in order.
#[test]
fn page_holds_what_is_pushed(rt: HostRuntime) -> Result<(), Fail> {
    let mut page = Page::new(rt.alloc());
    page.push(b'a')?;
    page.push_bytes(b"bc")?;
    write!(page, "{}-{:>3}", "d", 7)?;
    assert!(rt; page.as_slice() == b"abcd-  7".as_slice());
    Ok(())
}

// A page begins with the bytes that it is made of, and gives its bytes back.
#[test]
fn page_goes_on_with_bytes(rt: HostRuntime) -> Result<(), Fail> {
    let mut bytes = Vec::new(rt.alloc());
    bytes.extend_from_slice(b"ab")?;
    let mut page = Page::from(bytes);
    page.push(b'c')?;
    let whole = Vec::from(page);
    assert!(rt; whole.as_slice() == b"abc".as_slice());
    Ok(())
}

// A segment of a page in either form.
#[test]
fn segment_on_a_page(rt: HostRuntime) -> Result<(), Fail> {
    let mut cutter = Cutter::new(b"BGM+351+A:B'");
    let segment = cutter.next()?.ok_or("no segment")?;
    let mut plain = Page::new(rt.alloc());
    push_segment::<Plain>(&mut plain, &segment)?;
    assert!(rt;
        plain.as_slice()
            == b"segment\t1\tBGM\t0\t11\ncomponent\t1\t1\t351\ncomponent\t2\t1\tA\ncomponent\t2\t2\tB\n".as_slice()
    );
    let mut person = Page::new(rt.alloc());
    push_elements::<Person>(&mut person, &segment)?;
    assert!(rt; person.as_slice() == b"           1  351\n           2  A | B\n".as_slice());
    Ok(())
}

// What a segment tells of its parts.
#[test]
fn segment_tells_its_parts(rt: HostRuntime) -> Result<(), Fail> {
    let mut cutter = Cutter::new(b"UNA:+,? '\r\nUNH+1'BGM+A?+B::?:C+'");
    assert_eq!(rt; cutter.marks().decimal, DecimalMark::Comma);
    let header = cutter.next()?.ok_or("no segment")?;
    assert_eq!(rt; header.position(), 11);
    assert_eq!(rt; header.len(), 5);
    let segment = cutter.next()?.ok_or("no second segment")?;
    assert_eq!(rt; segment.number(), 2);
    assert_eq!(rt; segment.position(), 17);
    assert_eq!(rt; segment.tag() == *b"BGM", true);
    assert_eq!(rt; segment.element_count(), 3);
    let element = segment.element(1).ok_or("no element")?;
    assert_eq!(rt; element.component_count(), 3);
    assert!(rt; segment.component(1, 0).is_none());
    assert!(rt; segment.component(1, 4).is_none());
    assert!(rt; segment.component(3, 1).is_none());
    Ok(())
}

// A component's bytes have its release marks, and its characters don't.
#[test]
fn component_tells_its_characters(rt: HostRuntime) -> Result<(), Fail> {
    let mut cutter = Cutter::new(b"BGM+A?+B:+?:C'");
    let segment = cutter.next()?.ok_or("no segment")?;
    let component = segment.component(1, 1).ok_or("no component")?;
    assert_eq!(rt; component.bytes().len(), 4);
    assert_eq!(rt; component.character_count(), 3);
    assert!(rt; component.spells(b"A+B"));
    assert!(rt; !component.spells(b"A?+B"));
    let empty = segment.component(1, 2).ok_or("no empty component")?;
    assert!(rt; !empty.is_filled());
    let released = segment.component(2, 1).ok_or("no released component")?;
    assert!(rt; released.is_filled());
    assert!(rt; released.spells(b":C"));
    Ok(())
}

// At its end and at its first fault the cutter stays.
#[test]
fn cutter_stays_where_it_stops(rt: HostRuntime) -> Result<(), Fail> {
    let mut ended = Cutter::new(b"");
    assert!(rt; ended.next()?.is_none());
    assert!(rt; ended.next()?.is_none());
    let mut stopped = Cutter::new(b"BGM+A:");
    let fault = CutFault::UnendedSegment(Place {
        segment: 1,
        element: 1,
        component: 2,
    });
    for _ in 0..2 {
        match stopped.next() {
            Ok(_) => return Err(Fail::new("no fault")),
            Err(told) => assert_eq!(rt; told, fault),
        }
    }
    assert_eq!(rt; Refusal::from(fault).number, 3);
    Ok(())
}

#[test]
fn words_of_the_command_line(rt: HostRuntime) {
    assert_eq!(rt; Word::from("--plain"), Word::Plain);
    assert_eq!(rt; Word::from("--help"), Word::Help);
    assert_eq!(rt; Word::from("--"), Word::EndOfOptions);
    assert_eq!(rt; Word::from("-"), Word::File);
    assert_eq!(rt; Word::from("-x"), Word::UnknownOption);
    assert_eq!(rt; Word::from("--plan"), Word::UnknownOption);
    assert_eq!(rt; Word::from("advice.edi"), Word::File);
    assert_eq!(rt; Word::from(""), Word::File);
}

#[test]
fn words_behind_book(rt: HostRuntime) {
    assert_eq!(rt; BookWord::from("--trial"), BookWord::Trial);
    assert_eq!(rt; BookWord::from("--layouts"), BookWord::Layouts);
    assert_eq!(rt; BookWord::from("--plain"), BookWord::Plain);
    assert_eq!(rt; BookWord::from("--help"), BookWord::Help);
    assert_eq!(rt; BookWord::from("--"), BookWord::Unknown);
    assert_eq!(rt; BookWord::from("-"), BookWord::Unknown);
    assert_eq!(rt; BookWord::from("trial"), BookWord::Unknown);
    assert_eq!(rt; BookWord::from(""), BookWord::Unknown);
}

// The request that words with a space between them make.
fn asked(heap: Global, line: &str) -> Result<Request, AllocError> {
    let mut words = Vec::new(heap);
    for word in line.split_whitespace() {
        words.push(String::from_str(heap, word)?)?;
    }
    parse(heap, words)
}

#[test]
fn command_lines(rt: HostRuntime) -> Result<(), Fail> {
    let heap = rt.alloc();
    match asked(heap, "cut a --plain - -- --help")? {
        Request::Cut(format, files) => {
            assert_eq!(rt; format, Format::Plain);
            assert_eq!(rt; files.len(), 3);
        }
        _ => return Err(Fail::new("no cut")),
    }
    match asked(heap, "cut --plan a")? {
        Request::Unknown(word) => assert!(rt; word.as_str() == "--plan"),
        _ => return Err(Fail::new("no unknown option")),
    }
    match asked(heap, "read a")? {
        Request::Unknown(word) => assert!(rt; word.as_str() == "read"),
        _ => return Err(Fail::new("no unknown command")),
    }
    assert!(rt; matches!(asked(heap, "cut --help")?, Request::Help));
    assert!(rt; matches!(asked(heap, "")?, Request::Nothing));
    Ok(())
}

// The words ask for this listing of a book.
fn check_book(
    rt: &impl Abort,
    heap: Global,
    line: &str,
    which: Which,
    detail: Detail,
    format: Format,
) -> Result<(), Fail> {
    match asked(heap, line)? {
        Request::Book(told_which, told_detail, told_format) => {
            assert_eq!(rt; told_which, which, "{}", line);
            assert_eq!(rt; told_detail, detail, "{}", line);
            assert_eq!(rt; told_format, format, "{}", line);
            Ok(())
        }
        _ => Err(Fail::new("no book")),
    }
}

// The words are refused for one that isn't known.
fn check_unknown(rt: &impl Abort, heap: Global, line: &str, unknown: &str) -> Result<(), Fail> {
    match asked(heap, line)? {
        Request::Unknown(word) => {
            assert!(rt; word.as_str() == unknown, "{}", line);
            Ok(())
        },
        _ => Err(Fail::new("no unknown word")),
    }
}

#[test]
fn command_lines_of_book(rt: HostRuntime) -> Result<(), Fail> {
    let heap = rt.alloc();
    check_book(
        &rt,
        heap,
        "book",
        Which::Recadv,
        Detail::Rows,
        Format::Person,
    )?;
    check_book(
        &rt,
        heap,
        "book --plain",
        Which::Recadv,
        Detail::Rows,
        Format::Plain,
    )?;
    check_book(
        &rt,
        heap,
        "book --trial",
        Which::Trial,
        Detail::Rows,
        Format::Person,
    )?;
    check_book(
        &rt,
        heap,
        "book --plain --layouts --trial --plain",
        Which::Trial,
        Detail::Layouts,
        Format::Plain,
    )?;
    check_unknown(&rt, heap, "book advice.edi", "advice.edi")?;
    check_unknown(&rt, heap, "book --trial -", "-")?;
    check_unknown(&rt, heap, "book -- --plain", "--")?;
    check_unknown(&rt, heap, "cut --layouts", "--layouts")?;
    check_unknown(&rt, heap, "cut a --trial", "--trial")?;
    assert!(rt; matches!(asked(heap, "book --layouts --help")?, Request::Help));
    Ok(())
}

// The listing of a book for a person, without and with its layouts.
#[test]
fn book_for_a_person(rt: HostRuntime) -> Result<(), Fail> {
    let mut rows = Page::new(rt.alloc());
    push_book::<Person, _>(&mut rows, &trial::book(), Detail::Rows)?;
    assert!(rt;
        rows.as_slice().starts_with(
            b"TSTMSG:D:01B:UN:EAN005\n     0  UNH, required, up to 1 time\n     1  BGM, required, up to 1 time\n     2  DTM, required, up to 2 times\n     3    RFF group, optional, up to 2 times\n",
        )
    );
    let mut layouts = Page::new(rt.alloc());
    push_book::<Person, _>(&mut layouts, &recadv::book(), Detail::Layouts)?;
    assert!(rt;
        layouts.as_slice().starts_with(
            b"RECADV:D:01B:UN:EAN005\n     0  UNH, required, up to 1 time\n     1  BGM, required, up to 1 time\n           1 R composite\n           1.1 an..3 R one of 632\n           1.2 an..17 N\n",
        )
    );
    assert!(rt;
        layouts
            .as_slice()
            .ends_with(b"\n    31  UNT, required, up to 1 time\n")
    );
    Ok(())
}
