//! Causes, words of a line that stand in a row, numbered names, shelves and sinks. Numbers, names, lines and their
//! words are worked rows.

use crate::facts::{all_hold, hold};
use rail_text::{
    Cause, FetchFault, FileShelf, KeptEnds, LineFault, LineWords, MemShelf, MemSink, Names,
    NoMemory, OutSink, ReadError, Shelf, Sink, SinkFault, TextLine, cause_text, has_keyword,
    put_all, text_error,
};
use std::alloc::Global;
use std::io::Write;
use std::process::Abort;
use std::test::Fail;
use std::{fs, io};

// The words of the other causes stand in the case files of refused texts.
#[test]
fn causes_are_printed(rt: HostRuntime) {
    let line = 5;
    let cause = Cause::Cut;
    let refused = ReadError::Refused { line, cause };
    let delay = TextLine {
        number: 1,
        text: b"delay 60",
        ended: true,
    };
    let taken = LineFault::from(Cause::Taken);
    all_hold(
        &rt,
        &[
            (
                "words",
                cause_text(Cause::WrongKeyword) == "unexpected line",
            ),
            ("memory", ReadError::from(NoMemory) == ReadError::NoMemory),
            ("at its line", text_error(line, cause) == refused),
            ("from a cause", taken == LineFault::Cause(Cause::Taken)),
            (
                "from want of memory",
                LineFault::from(NoMemory) == LineFault::NoMemory,
            ),
            ("another keyword", !has_keyword(&delay, b"looks")),
        ],
    );
}

fn is_found(found: Option<&[u8]>, word: &[u8]) -> bool {
    match found {
        Some(found) => found == word,
        None => false,
    }
}

// Ten words, of which one is empty.
const MANY_WORDS: &[u8] = b"clear up a b c d  f g h";

// Eighteen words.
const LONG_LINE: &[u8] = b"0 1 2 3 4 5 6 7 8 9 a b c d e f g h";

// Words of some others in a row, if there are so many.
fn words_between<'a>(words: &LineWords<'a>, from: usize, to: usize) -> Option<LineWords<'a>> {
    if from <= to && to <= words.word_count() {
        Some(words.between(from, to))
    } else {
        None
    }
}

#[test]
fn some_words_stand_in_a_row(rt: HostRuntime) {
    let mut ends = KeptEnds::none();
    let many = LineWords::new(MANY_WORDS, &mut ends);
    let some = words_between(&many, 2, 7).expect(&rt, "five words");
    let two = words_between(&some, 1, 3).expect(&rt, "two words");
    let none = words_between(&some, 5, 5).expect(&rt, "no word");
    all_hold(
        &rt,
        &[
            ("five words", some.word_count() == 5),
            ("the first of them", some.keyword() == b"a".as_slice()),
            ("the last of them is empty", is_found(some.word(4), b"")),
            ("no word behind them", some.word(5).is_none()),
            (
                "behind the first of them",
                is_found(some.behind(0), b"b c d "),
            ),
            ("nothing behind the last", some.behind(4).is_none()),
            ("the number of one", some.number_of(b"c") == Some(2)),
            ("another has no number", some.number_of(b"f").is_none()),
            ("the last of two", is_found(two.word(1), b"c")),
            ("nothing behind the two", two.behind(1).is_none()),
            ("no word", none.word(0).is_none()),
            ("no keyword", none.keyword().is_empty()),
        ],
    );
}

#[test]
fn words_behind_the_first_are_sought(rt: HostRuntime) {
    // What was kept of another text doesn't matter.
    let mut ends = KeptEnds::none();
    LineWords::new(MANY_WORDS, &mut ends).word_count();
    let long = LineWords::new(LONG_LINE, &mut ends);
    all_hold(
        &rt,
        &[
            ("eighteen words", long.word_count() == 18),
            ("word 15", is_found(long.word(15), b"f")),
            ("word 16", is_found(long.word(16), b"g")),
            ("word 17", is_found(long.word(17), b"h")),
            ("no word 18", long.word(18).is_none()),
            ("behind word 15", is_found(long.behind(15), b"g h")),
            ("the number of the last", long.number_of(b"h") == Some(17)),
        ],
    );
}

fn add(rt: &impl Abort, names: &mut Names, name: &str) -> Option<u32> {
    assert!(rt; names.len() < 5);
    names.add(name).expect(rt, "memory")
}

// Names in turn, and the number that each has if it is new.
const ADDED: [(&str, Option<u32>); 6] = [
    ("Ash", Some(0)),
    ("Beech", Some(1)),
    ("Ash", None),
    ("ash", Some(2)),
    ("Beech", None),
    ("Cedar", Some(3)),
];

fn are_numbered(rt: &impl Abort, names: &mut Names) {
    hold(rt, "no name at first", names.is_empty());
    for (name, number) in ADDED.iter() {
        hold(rt, name, add(rt, names, name) == *number);
    }
    assert!(rt; names.len() == 4);
    all_hold(
        rt,
        &[
            ("the third name", names.name_of(2) == "ash"),
            ("a name's number", names.number_of("Beech") == Some(1)),
            ("no number", names.number_of("Dale").is_none()),
            ("a word's number", names.number_of_word(b"ash") == Some(2)),
            ("no word of these", names.number_of_word(b"ashes").is_none()),
            ("no text", names.number_of_word(b"\xff").is_none()),
            ("a name is there", names.contains("ash")),
            ("another isn't", !names.contains("Dale")),
        ],
    );
}

#[test]
fn names_are_numbered_as_they_come(rt: HostRuntime) {
    let mut names = Names::new(rt.alloc());
    are_numbered(&rt, &mut names);
}

// Fetches a text through the bound, as a program does. Are these bytes given, or with none the failure?
fn gives<S: Shelf>(
    shelf: &mut S,
    alloc: Global,
    name: &str,
    limit: u32,
    wanted: Option<&[u8]>,
) -> bool {
    match shelf.fetch(alloc, name, limit as usize) {
        Ok(bytes) => Some(bytes.as_slice()) == wanted,
        Err(fault) => wanted.is_none() && fault == FetchFault::Failed,
    }
}

fn text(rt: &impl Abort, alloc: Global, name: &str, bytes: &[u8]) -> (String, Vec<u8>) {
    let name = String::from_str(alloc, name).expect(rt, "memory");
    (name, bytes.to_vec(alloc).expect(rt, "memory"))
}

fn two_texts(rt: &impl Abort, alloc: Global) -> Vec<(String, Vec<u8>)> {
    let mut texts = Vec::new(alloc);
    texts
        .push(text(rt, alloc, "plan", b"plan 1\n"))
        .expect(rt, "memory");
    texts
        .push(text(rt, alloc, "ash", b"end\n"))
        .expect(rt, "memory");
    texts
}

// What is fetched from memory in turn: a name, the limit, and what is given. The second fetch and the fourth fail.
const FETCHES: [(&str, &str, u32, Option<&[u8]>); 7] = [
    ("the whole text", "plan", 100, Some(b"plan 1\n")),
    ("the second fetch", "plan", 100, None),
    ("one byte past the limit", "plan", 4, Some(b"plan ")),
    ("the fourth fetch", "ash", 100, None),
    ("up to the limit", "ash", 3, Some(b"end\n")),
    ("no such text", "beech", 100, None),
    ("at limit 0", "ash", 0, Some(b"e")),
];

fn fetch_all(rt: &impl Abort, shelf: &mut MemShelf, alloc: Global) {
    for (fact, name, limit, wanted) in FETCHES.iter() {
        hold(rt, fact, gives(shelf, alloc, name, *limit, *wanted));
    }
}

#[test]
fn memory_gives_its_texts(rt: HostRuntime) -> Result<(), Fail> {
    let alloc = rt.alloc();
    let mut shelf = MemShelf::new(two_texts(&rt, alloc), vec![in alloc; 2, 4]?);
    fetch_all(&rt, &mut shelf, alloc);
    Ok(())
}

const PIECE: &[u8] = b"0123456789abcdefghij";

// What is put to memory in turn, and the answers. The second put fails.
const PUTS: [(&str, &[u8], Result<usize, SinkFault>); 8] = [
    ("the first bytes", PIECE, Ok(10)),
    ("the second put", PIECE, Err(SinkFault::Failed)),
    ("a short piece", b"xyz", Ok(3)),
    ("an empty piece", b"", Ok(0)),
    ("bytes behind it", PIECE, Ok(10)),
    ("up to the room", PIECE, Ok(2)),
    ("no room", PIECE, Err(SinkFault::Failed)),
    ("an empty piece and no room", b"", Ok(0)),
];

fn put_in_turn(rt: &impl Abort, sink: &mut MemSink) {
    for (name, bytes, answer) in PUTS.iter() {
        hold(rt, name, sink.put(bytes) == *answer);
    }
    hold(
        rt,
        "all is taken",
        sink.taken() == b"0123456789xyz012345678901".as_slice(),
    );
}

#[test]
fn memory_takes_up_to_its_room(rt: HostRuntime) -> Result<(), Fail> {
    let alloc = rt.alloc();
    let mut sink = MemSink::new(alloc, 25, 10, vec![in alloc; 2]?)?;
    put_in_turn(&rt, &mut sink);
    Ok(())
}

fn put_whole(rt: &impl Abort, sink: &mut MemSink) {
    let piece = b"0123456789abcdefghijk".as_slice();
    let nothing = put_all(sink, b"");
    let whole = put_all(sink, piece);
    let is_taken = sink.taken() == piece;
    let part = put_all(sink, piece);
    all_hold(
        rt,
        &[
            ("nothing is put", nothing == Ok(())),
            ("all is put", whole == Ok(())),
            ("all is taken", is_taken),
            ("a fault", part == Err(SinkFault::Failed)),
            ("a proper prefix is taken", sink.taken().len() == 41),
        ],
    );
}

#[test]
fn all_is_put_or_a_proper_prefix(rt: HostRuntime) -> Result<(), Fail> {
    let alloc = rt.alloc();
    let mut sink = MemSink::new(alloc, 100, 10, vec![in alloc; 6]?)?;
    put_whole(&rt, &mut sink);
    Ok(())
}

#[test]
fn files_are_a_shelf(rt: HostRuntime) {
    let alloc = rt.alloc();
    let name = "rail_text_test.txt";
    fs::write(&rt, name, "plan 1\nend\n").expect(&rt, "a file");
    let mut shelf = FileShelf::new(&rt);
    let whole = gives(&mut shelf, alloc, name, 100, Some(b"plan 1\nend\n"));
    let first = gives(&mut shelf, alloc, name, 5, Some(b"plan 1"));
    fs::remove_file(&rt, name).expect(&rt, "a file");
    let gone = gives(&mut shelf, alloc, name, 5, None);
    all_hold(
        &rt,
        &[
            ("the whole file is given", whole),
            ("its first bytes are given", first),
            ("a file that is gone fails", gone),
        ],
    );
}

// Takes nothing, or refuses.
#[derive(Drop)]
struct FullWriter {
    refuses: bool,
}

impl Write for FullWriter {
    fn write(&mut self, _buf: &[u8]) -> io::Result<usize> {
        if self.refuses {
            return Err(io::Error::from(io::ErrorKind::BrokenPipe));
        }
        Ok(0)
    }

    fn flush(&mut self) -> io::Result<()> {
        Ok(())
    }
}

// A sink over such a writer takes nothing but the empty piece.
fn is_full(refuses: bool) -> bool {
    let mut full = OutSink::new(FullWriter { refuses });
    full.put(b"a") == Err(SinkFault::Failed)
        && full.put(b"") == Ok(0)
        && put_all(&mut full, b"a") == Err(SinkFault::Failed)
}

#[test]
fn writers_are_a_sink(rt: HostRuntime) {
    let mut out = OutSink::new(io::writer(&rt));
    let empty = out.put(b"");
    let nothing = put_all(&mut out, b"");
    all_hold(
        &rt,
        &[
            ("an empty piece is put", empty == Ok(0)),
            ("nothing is put", nothing == Ok(())),
            ("a writer that takes nothing", is_full(false)),
            ("a writer that refuses", is_full(true)),
        ],
    );
}
