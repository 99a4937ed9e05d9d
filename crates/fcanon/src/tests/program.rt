//! What the program says where it cannot go on, over streams that fail.
use super::command_line::words_of;
use super::streams::{NEVER, Pieces, Taking, pieces_of, writer_taking};
use fc_collect::{Counted, RunFault, Seed};
use fc_tool::{Streams, end_without_words, run_program};
use std::alloc::Global;
use std::io::{self, ErrorKind};

// Whether the program ends with status 3 over these streams, after it printed this and said that.
fn is_stopped(
    alloc: Global,
    line: &str,
    input: Pieces<'_>,
    output: Taking,
    (printed, said): (&[u8], &[u8]),
) -> bool {
    let Ok(words) = words_of(alloc, line) else {
        return false;
    };
    let mut streams = Streams {
        input: Counted::new(input),
        output: Counted::new(output),
        errors: Counted::new(Vec::new(alloc)),
    };
    let status = run_program(alloc, Seed::KNOWN, words.as_slice(), &mut streams);
    let (output, errors) = (streams.output.into_inner(), streams.errors.into_inner());
    status == 3 && output.taken.as_slice() == printed && errors.as_slice() == said
}

static WRITERS: [&str; 13] = [
    "fcanon --help",
    "fcanon deal 1",
    "fcanon show",
    "fcanon expand",
    "fcanon group",
    "fcanon share",
    "fcanon unique",
    "fcanon table",
    "fcanon table --header",
    "fcanon same",
    "fcanon symmetries",
    "fcanon count",
    "fcanon closed",
];

// Whether the program ends for want of a place to write.
fn meets_write_fault(alloc: Global, line: &str) -> bool {
    let full = writer_taking(alloc, NEVER, 0, true);
    let input = pieces_of(b"KC", NEVER, NEVER);
    is_stopped(alloc, line, input, full, (b"", b"fcanon: write fault\n"))
}

#[test]
fn texts_that_cannot_be_written(rt: HostRuntime) {
    for line in &WRITERS {
        assert!(rt; meets_write_fault(rt.alloc(), line), "of {line}");
    }
}

// Whether the program ends with this status and line where its words are not read for such an
// error.
fn is_ended(alloc: Global, kind: ErrorKind, status: u8, line: &str) -> bool {
    let mut errors = Counted::new(Vec::new(alloc));
    end_without_words(&io::Error::from(kind), &mut errors) == status
        && errors.into_inner().as_slice() == line.as_bytes()
}

#[test]
fn words_that_cannot_be_read(rt: HostRuntime) {
    let out_of_memory = "fcanon: out of memory\n";
    assert!(rt; is_ended(rt.alloc(), ErrorKind::OutOfMemory, 3, out_of_memory));
    let not_utf_8 = "fcanon: a word of the command line is not UTF-8\n";
    assert!(rt; is_ended(rt.alloc(), ErrorKind::InvalidData, 2, not_utf_8));
}

// Whether the program ends since its input, of which the second read fails, cannot be read on, after
// it printed this.
fn meets_read_fault(alloc: Global, line: &str, text: &[u8], most: usize, printed: &[u8]) -> bool {
    let output = writer_taking(alloc, NEVER, NEVER, false);
    let input = pieces_of(text, most, 1);
    is_stopped(
        alloc,
        line,
        input,
        output,
        (printed, b"fcanon: read fault\n"),
    )
}

#[test]
fn inputs_that_cannot_be_read(rt: HostRuntime) {
    assert!(rt; meets_read_fault(rt.alloc(), "fcanon show", b"KC", 2, b""));
}

static READERS: [&str; 12] = [
    "fcanon show",
    "fcanon canon",
    "fcanon check",
    "fcanon expand",
    "fcanon group",
    "fcanon share",
    "fcanon unique",
    "fcanon table",
    "fcanon same",
    "fcanon symmetries",
    "fcanon count",
    "fcanon closed",
];

// Whether the program ends by the read fault, after the first record, which a header ended.
fn ends_after_a_record(alloc: Global, line: &str) -> bool {
    let text = b"@ spider\n@ freecell x\nFound: H-K C-K D-K S-K\n";
    meets_read_fault(alloc, line, text, 64, b"# refused 1 at 2: bad header\n")
}

#[test]
fn inputs_that_cannot_be_read_to_their_end(rt: HostRuntime) {
    for line in &READERS {
        assert!(rt; ends_after_a_record(rt.alloc(), line), "of {line}");
    }
}

static WORDS: [(RunFault, &str); 5] = [
    (RunFault::Read, "read fault"),
    (RunFault::Write, "write fault"),
    (RunFault::Memory, "out of memory"),
    (RunFault::TooLarge, "input too large"),
    (RunFault::ReaderNeverEnds, "reader never ends"),
];

fn has_words(alloc: Global, fault: RunFault, words: &str) -> bool {
    matches!(format!(in alloc; "{fault}"), Ok(text) if text.as_str() == words)
}

#[test]
fn faults_have_words(rt: HostRuntime) {
    for &(fault, words) in &WORDS {
        assert!(rt; has_words(rt.alloc(), fault, words), "of {words}");
    }
}
