//! Runs over streams that hand over some bytes a call, or fail at a call.
ghost use Rattle.fc_collect.specs.Streams.{HasRoom};

use fc_collect::{
    CountFormat, Counted, Format, Limits, RunConfig, RunFault, RunKind, Seed, Summary, Variant,
    run_canon, run_check, run_expand, run_group, run_share, run_show, run_table, run_unique,
    run_within,
};
use std::alloc::{AllocError, Global};
use std::io::{self, ErrorKind, Read, Write};
use std::test::Fail;

/// Hands over at most so many bytes a call, and fails the call with this number alone.
#[derive(Drop)]
pub(crate) struct Pieces<'a> {
    pub(crate) bytes: &'a [u8],
    pub(crate) most: usize,
    pub(crate) calls: usize,
    pub(crate) fails_at: usize,
}

impl Read for Pieces<'_> {
    fn read(&mut self, buf: &mut [u8]) -> io::Result<usize> {
        let call = self.calls;
        self.calls = call.saturating_add(1);
        if call == self.fails_at {
            return Err(io::Error::from(ErrorKind::Interrupted));
        }
        let most = buf.len().min(self.most);
        self.bytes.read(&mut buf[..most])
    }
}

/// Takes at most so many bytes a call, and fails the write with this number alone, or each flush
/// after so many writes. It counts flushes, and knows how many bytes the last one that succeeded
/// sent on.
#[derive(Drop)]
pub(crate) struct Taking {
    pub(crate) taken: Vec<u8>,
    flushes: usize,
    sent_on: usize,
    most: usize,
    calls: usize,
    fails_at: usize,
    takes_nothing: bool,
}

impl Write for Taking {
    fn write(&mut self, buf: &[u8]) -> io::Result<usize> {
        let call = self.calls;
        self.calls = call.saturating_add(1);
        if call != self.fails_at {
            let most = buf.len().min(self.most);
            self.taken.write(&buf[..most])
        } else if self.takes_nothing {
            Ok(0)
        } else {
            Err(io::Error::from(ErrorKind::Interrupted))
        }
    }

    fn flush(&mut self) -> io::Result<()> {
        self.flushes = self.flushes.saturating_add(1);
        if self.calls == self.fails_at {
            return Err(io::Error::from(ErrorKind::Interrupted));
        }
        self.sent_on = self.taken.len();
        Ok(())
    }
}

pub(crate) const NEVER: usize = usize::MAX;

pub(crate) fn pieces_of(bytes: &[u8], most: usize, fails_at: usize) -> Pieces<'_> {
    Pieces {
        bytes,
        most,
        calls: 0,
        fails_at,
    }
}

pub(crate) fn writer_taking(
    alloc: Global,
    most: usize,
    fails_at: usize,
    takes_nothing: bool,
) -> Taking {
    Taking {
        taken: Vec::new(alloc),
        flushes: 0,
        sent_on: 0,
        most,
        calls: 0,
        fails_at,
        takes_nothing,
    }
}

/// What came of a run: its result, the reader's counts, the writer's, and the writer itself.
#[derive(Drop)]
struct Ran {
    result: Result<Summary, RunFault>,
    reads: (u64, u64, u64),
    writes: (u64, u64, bool),
    writer: Taking,
}

// What comes of a run, by the call of its own command if it has one.
fn result_of(
    alloc: Global,
    kind: RunKind,
    input: &mut Counted<Pieces<'_>>,
    output: &mut Counted<Taking>,
) -> Result<Summary, RunFault>
    requires input_low { HasRoom input.old }
    requires output_low { HasRoom output.old }
{
    let variant = Variant::FreeCell;
    match kind {
        RunKind::Show => run_show(alloc, variant, input, output),
        RunKind::Canon => run_canon(alloc, variant, input, output),
        RunKind::Check => run_check(alloc, variant, input, output),
        RunKind::Expand => run_expand(alloc, variant, input, output),
        RunKind::Group => run_group(alloc, variant, input, output),
        RunKind::Share => run_share(alloc, variant, input, output),
        RunKind::Unique => run_unique(alloc, variant, input, output),
        RunKind::Table(Format::Lines) => run_table(alloc, variant, input, output),
        _ => {
            let config = RunConfig {
                alloc,
                variant,
                limits: Limits::STANDARD,
                seed: Seed::KNOWN,
            };
            run_within(config, kind, input, output)
        }
    }
}

fn run(alloc: Global, kind: RunKind, reader: Pieces<'_>, writer: Taking) -> Ran {
    let mut input = Counted::new(reader);
    let mut output = Counted::new(writer);
    let result = result_of(alloc, kind, &mut input, &mut output);
    Ran {
        result,
        reads: (input.failures(), input.fills(), input.ends()),
        writes: (output.failures(), output.flushes(), output.is_flushed()),
        writer: output.into_inner(),
    }
}

// A run that is given and takes at most so many bytes a call, and whose read with this number fails.
fn run_reading(alloc: Global, kind: RunKind, text: &[u8], most: usize, fails_at: usize) -> Ran {
    let writer = writer_taking(alloc, most, NEVER, false);
    run(alloc, kind, pieces_of(text, most, fails_at), writer)
}

const GROUP_OF_TWO: &[u8] = b"@ freecell one
Foundations: H-K C-K D-Q S-K
: KD
@ freecell two
Foundations: H-K C-Q D-K S-K
:\n:
: KC
> 3h
";

const HEADERS_AND_STRAYS: &[u8] = b"Foundations: H-K C-K D-K S-K
>
: KC
@ spider x
: KC
@ freecell nnnnnnnnnnnnnnnnnnnnnnnnnnnnnnnnnnnnnnnnnnnnnnnnnnnnnnnnnnnnnnnn
Foundations: H-K C-K D-K S-K
@ freecell nnnnnnnnnnnnnnnnnnnnnnnnnnnnnnnnnnnnnnnnnnnnnnnnnnnnnnnnnnnnnnnnn
Foundations: H-K C-K D-K S-K
>
";

const LISTS_OF_RUNS: &[u8] = b"Foundations: H-K C-T D-T S-K
: KC QD JC
: KD QC JD
>> 23 1h 3h 3h 1h 1h 3h
@ freecell won
Foundations: H-K C-K D-K S-K
>>
";

// A command, a collection, what is printed for it, and how many records are refused.
type Row<'a> = (RunKind, &'a [u8], &'a [u8], usize);

static RUNS: [Row<'_>; 18] = [
    (
        RunKind::Show,
        GROUP_OF_TWO,
        b"@ freecell one
Foundations: H-K C-K D-Q S-K
Freecells: - - - -
: KD
:\n:\n:\n:\n:\n:\n:
@ freecell two
Foundations: H-K C-Q D-K S-K
Freecells: - - - -
:\n:
: KC
:\n:\n:\n:\n:
> 3h
",
        0,
    ),
    (
        RunKind::Canon,
        GROUP_OF_TWO,
        b"@ freecell one
Foundations: H-K C-K D-K S-Q
Freecells: - - - -
:\n:\n:\n:\n:\n:\n:
: KS
# renaming DSCH columns 23456781 cells abcd
@ freecell two
Foundations: H-K C-K D-K S-Q
Freecells: - - - -
:\n:\n:\n:\n:\n:\n:
: KS
# renaming SDHC columns 12456783 cells abcd
> 8h
",
        0,
    ),
    (
        RunKind::Check,
        GROUP_OF_TWO,
        b"one no list
two 1 wins 1
",
        0,
    ),
    (
        RunKind::Show,
        HEADERS_AND_STRAYS,
        b"# refused 1 at 31: stray line
# refused 2 at 38: bad header
@ freecell nnnnnnnnnnnnnnnnnnnnnnnnnnnnnnnnnnnnnnnnnnnnnnnnnnnnnnnnnnnnnnnn
Foundations: H-K C-K D-K S-K
Freecells: - - - -
:\n:\n:\n:\n:\n:\n:\n:
# refused 4 at 168: bad header
",
        3,
    ),
    (
        RunKind::Canon,
        HEADERS_AND_STRAYS,
        b"# refused 1 at 31: stray line
# refused 2 at 38: bad header
@ freecell nnnnnnnnnnnnnnnnnnnnnnnnnnnnnnnnnnnnnnnnnnnnnnnnnnnnnnnnnnnnnnnn
Foundations: H-K C-K D-K S-K
Freecells: - - - -
:\n:\n:\n:\n:\n:\n:\n:
# renaming CDHS columns 12345678 cells abcd
# refused 4 at 168: bad header
",
        3,
    ),
    (
        RunKind::Check,
        HEADERS_AND_STRAYS,
        b"# refused 1 at 31: stray line
# refused 2 at 38: bad header
nnnnnnnnnnnnnnnnnnnnnnnnnnnnnnnnnnnnnnnnnnnnnnnnnnnnnnnnnnnnnnnn no list
# refused 4 at 168: bad header
",
        3,
    ),
    (
        RunKind::Group,
        GROUP_OF_TWO,
        b"@ freecell one
# members 2: one two
Foundations: H-K C-K D-K S-Q
Freecells: - - - -
:\n:\n:\n:\n:\n:\n:
: KS
",
        0,
    ),
    (
        RunKind::Group,
        HEADERS_AND_STRAYS,
        b"# refused 1 at 31: stray line
# refused 2 at 38: bad header
# refused 4 at 168: bad header
@ freecell nnnnnnnnnnnnnnnnnnnnnnnnnnnnnnnnnnnnnnnnnnnnnnnnnnnnnnnnnnnnnnnn
# members 1: nnnnnnnnnnnnnnnnnnnnnnnnnnnnnnnnnnnnnnnnnnnnnnnnnnnnnnnnnnnnnnnn
Foundations: H-K C-K D-K S-K
Freecells: - - - -
:\n:\n:\n:\n:\n:\n:\n:
",
        3,
    ),
    (
        RunKind::Share,
        GROUP_OF_TWO,
        b"@ freecell one
Foundations: H-K C-K D-Q S-K
Freecells: - - - -
: KD
:\n:\n:\n:\n:\n:\n:
> 1h
@ freecell two
Foundations: H-K C-Q D-K S-K
Freecells: - - - -
:\n:
: KC
:\n:\n:\n:\n:
> 3h
",
        0,
    ),
    (
        RunKind::Share,
        HEADERS_AND_STRAYS,
        b"# refused 1 at 31: stray line
# refused 2 at 38: bad header
# refused 4 at 168: bad header
@ freecell nnnnnnnnnnnnnnnnnnnnnnnnnnnnnnnnnnnnnnnnnnnnnnnnnnnnnnnnnnnnnnnn
Foundations: H-K C-K D-K S-K
Freecells: - - - -
:\n:\n:\n:\n:\n:\n:\n:
",
        3,
    ),
    (
        RunKind::Expand,
        LISTS_OF_RUNS,
        b"Foundations: H-K C-T D-T S-K
Freecells: - - - -
: KC QD JC
: KD QC JD
:\n:\n:\n:\n:\n:
> 2a 2b 23 b3 a3 1h 3h 3h 1h 1h 3h
@ freecell won
Foundations: H-K C-K D-K S-K
Freecells: - - - -
:\n:\n:\n:\n:\n:\n:\n:
>
",
        0,
    ),
    (
        RunKind::Expand,
        HEADERS_AND_STRAYS,
        b"# refused 1 at 31: stray line
# refused 2 at 38: bad header
@ freecell nnnnnnnnnnnnnnnnnnnnnnnnnnnnnnnnnnnnnnnnnnnnnnnnnnnnnnnnnnnnnnnn
Foundations: H-K C-K D-K S-K
Freecells: - - - -
:\n:\n:\n:\n:\n:\n:\n:
# refused 4 at 168: bad header
",
        3,
    ),
    (
        RunKind::Unique,
        GROUP_OF_TWO,
        b"@ freecell one
Foundations: H-K C-K D-Q S-K
Freecells: - - - -
: KD
:\n:\n:\n:\n:\n:\n:
",
        0,
    ),
    (
        RunKind::Table(Format::Lines),
        GROUP_OF_TWO,
        b"one\tfreecell\tFoundations: H-K C-K D-K S-Q  Freecells: - - - -  :  :  :  :  :  :  :  : KS\tDSCH\t23456781\tabcd\t0\t-
two\tfreecell\tFoundations: H-K C-K D-K S-Q  Freecells: - - - -  :  :  :  :  :  :  :  : KS\tSDHC\t12456783\tabcd\t1\t1
",
        0,
    ),
    (
        RunKind::Table(Format::Lines),
        HEADERS_AND_STRAYS,
        b"# refused 1 at 31: stray line
# refused 2 at 38: bad header
nnnnnnnnnnnnnnnnnnnnnnnnnnnnnnnnnnnnnnnnnnnnnnnnnnnnnnnnnnnnnnnn\tfreecell\tFoundations: H-K C-K D-K S-K  Freecells: - - - -  :  :  :  :  :  :  :  :\tCDHS\t12345678\tabcd\t0\t-
# refused 4 at 168: bad header
",
        3,
    ),
    (
        RunKind::Same,
        GROUP_OF_TWO,
        b"two renaming DCSH columns 23145678 cells abcd\n",
        0,
    ),
    (
        RunKind::Symmetries,
        GROUP_OF_TWO,
        b"one renaming CDHS
one renaming SDHC
two renaming CDHS
two renaming CHDS
",
        0,
    ),
    (
        RunKind::Count(CountFormat::Words),
        HEADERS_AND_STRAYS,
        b"# refused 1 at 31: stray line
# refused 2 at 38: bad header
# refused 4 at 168: bad header
records 4 refused 3 groups 1 doubles 0 lists 0 wins 0 solved 0
",
        3,
    ),
];

// Whether the run came to the end of its reader, and sent on what is due.
fn is_whole(alloc: Global, &(kind, text, due, refused): &Row<'_>, most: usize) -> bool {
    let ran = run_reading(alloc, kind, text, most, NEVER);
    let records = if refused == 0 { 2 } else { 4 };
    let fills = if most == 1 { text.len() } else { 1 };
    ran.result == Ok(Summary { records, refused })
        && ran.reads == (0, fills as u64, 1)
        && ran.writes == (0, 1, true)
        && (ran.writer.flushes, ran.writer.sent_on) == (1, due.len())
        && ran.writer.taken.as_slice() == due
}

#[test]
fn collections_are_read_to_their_end(rt: HostRuntime) {
    for row in &RUNS {
        assert!(rt; is_whole(rt.alloc(), row, 1) && is_whole(rt.alloc(), row, NEVER));
    }
}

// Whether the run ended by this fault, and what went out is a beginning of what is due.
fn is_stopped(ran: &Ran, fault: RunFault, due: &[u8]) -> bool {
    let taken = ran.writer.taken.as_slice();
    ran.result == Err(fault) && due.get(..taken.len()) == Some(taken)
}

// Whether each read, of 4 bytes, stops the run.
fn stops_at_reads(alloc: Global, &(kind, text, due, _): &Row<'_>) -> bool {
    for fails_at in 0..=text.len().saturating_add(3) / 4 {
        let ran = run_reading(alloc, kind, text, 4, fails_at);
        if !is_stopped(&ran, RunFault::Read, due) || ran.reads != (1, fails_at as u64, 0) {
            return false;
        }
    }
    true
}

#[test]
fn each_read_may_fail(rt: HostRuntime) {
    for row in &RUNS {
        assert!(rt; stops_at_reads(rt.alloc(), row));
    }
}

#[test]
fn a_record_goes_out_before_the_next_ends(rt: HostRuntime) {
    let ran = run_reading(
        rt.alloc(),
        RunKind::Show,
        GROUP_OF_TWO,
        1,
        GROUP_OF_TWO.len(),
    );
    assert!(rt; is_stopped(&ran, RunFault::Read, RUNS[0].2) && ran.writer.taken.len() == 82);
}

// A run whose writer takes 8 bytes a call, and fails the write with this number.
fn run_writing(
    alloc: Global,
    kind: RunKind,
    text: &[u8],
    fails_at: usize,
    takes_nothing: bool,
) -> Ran {
    let writer = writer_taking(alloc, 8, fails_at, takes_nothing);
    run(alloc, kind, pieces_of(text, NEVER, NEVER), writer)
}

// Whether each of so many writes, of 8 bytes, stops the run, and the flush after the last one.
fn stops_at_writes(
    alloc: Global,
    &(kind, text, due, _): &Row<'_>,
    writes: usize,
    takes_nothing: bool,
) -> bool {
    for fails_at in 0..=writes {
        let ran = run_writing(alloc, kind, text, fails_at, takes_nothing);
        if !is_stopped(&ran, RunFault::Write, due)
            || (ran.reads.0, ran.writes) != (0, (1, 0, false))
            || ran.writer.flushes != usize::from(fails_at == writes)
        {
            return false;
        }
    }
    true
}

#[test]
fn each_write_may_fail(rt: HostRuntime) {
    for row in &RUNS {
        let writes = run_writing(rt.alloc(), row.0, row.1, NEVER, false)
            .writer
            .calls;
        assert!(rt; writes >= row.2.len() / 8);
        assert!(rt; stops_at_writes(rt.alloc(), row, writes, false));
        assert!(rt; stops_at_writes(rt.alloc(), row, writes, true));
    }
}

// The bytes, so many times.
fn repeated(alloc: Global, bytes: &[u8], count: usize) -> Result<Vec<u8>, AllocError> {
    let mut text = Vec::new(alloc);
    for _ in 0..count {
        text.extend_from_slice(bytes)?;
    }
    Ok(text)
}

// Of 65,536 headers, each of which names no game, 131,072 bytes are read, and some two million
// printed.
#[test]
fn reads_and_writes_are_large(rt: HostRuntime) -> Result<(), Fail> {
    let text = repeated(rt.alloc(), b"@\n", 65_536)?;
    let ran = run_reading(rt.alloc(), RunKind::Show, text.as_slice(), NEVER, NEVER);
    assert!(rt; ran.reads.1 <= 3);
    assert!(rt; ran.writer.calls >= 16 && ran.writer.calls <= 64);
    Ok(())
}

// Whether so many records are shown, or the text is too large and its end is not reached.
fn is_counted(alloc: Global, text: &[u8], records: Result<usize, RunFault>) -> bool {
    let ran = run_reading(alloc, RunKind::Show, text, NEVER, NEVER);
    let counted = match ran.result {
        Ok(summary) => Ok(summary.records),
        Err(fault) => Err(fault),
    };
    (ran.reads.2 == 0) == records.is_err() && counted == records
}

// Texts of so many headers, each of which names no game, or of so many blanks, and how many records
// are counted.
static SIZES: [(&[u8], usize, Result<usize, RunFault>); 5] = [
    (b"", 0, Ok(0)),
    (b"@\n", 65_536, Ok(65_536)),
    (b"@\n", 65_537, Err(RunFault::TooLarge)),
    (b" ", 65_536, Ok(0)),
    (b" ", 65_537, Err(RunFault::TooLarge)),
];

#[test]
fn records_and_bytes_are_counted(rt: HostRuntime) -> Result<(), Fail> {
    for &(bytes, count, records) in &SIZES {
        let text = repeated(rt.alloc(), bytes, count)?;
        assert!(rt; is_counted(rt.alloc(), text.as_slice(), records));
    }
    Ok(())
}
