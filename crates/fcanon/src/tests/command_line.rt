//! What command lines ask for.
use clap::error::ErrorKind;
use fc_collect::Variant::{self, BakersGame, EightOff, FreeCell};
use fc_collect::{Format, Limits};
use fc_import::{LinesAre, Noted};
use fc_tool::Task::{
    self, Canon, Check, Count, Expand, Group, Same, Share, Show, Symmetries, Table, Unique,
};
use fc_tool::{Options, Request, WordsFault, read_words};
use std::alloc::{AllocError, Global};

// The options of a command that is given none.
const PLAIN: Options = Options {
    format: Format::Lines,
    limits: Limits::STANDARD,
    lines_are: LinesAre::Unsaid,
    noted: Noted::Doubts,
};

// The words of a command line, which are apart by one blank.
pub(crate) fn words_of(alloc: Global, line: &str) -> Result<Vec<String>, AllocError> {
    let mut words = Vec::new(alloc);
    for word in line.split_whitespace() {
        words.push(String::from_str(alloc, word)?)?;
    }
    Ok(words)
}

fn read_line(alloc: Global, line: &str) -> Result<Option<Request>, WordsFault> {
    let Ok(words) = words_of(alloc, line) else {
        return Err(WordsFault::Memory);
    };
    read_words(alloc, words.as_slice())
}

fn is_read_as(
    alloc: Global,
    line: &str,
    task: Task,
    variant: Variant,
    number: Option<u32>,
) -> bool {
    let request = Request {
        task,
        variant,
        number,
        options: PLAIN,
    };
    matches!(read_line(alloc, line), Ok(Some(answer)) if answer == request)
}

static REQUESTS: [(&str, Task, Variant); 12] = [
    ("./elsewhere show --variant eight_off", Show, EightOff),
    ("fcanon canon --variant bakers_game", Canon, BakersGame),
    ("fcanon check --variant freecell", Check, FreeCell),
    ("fcanon expand --variant=bakers_game", Expand, BakersGame),
    ("fcanon group --variant=eight_off", Group, EightOff),
    ("fcanon share --variant=freecell", Share, FreeCell),
    ("fcanon unique --variant bakers_game", Unique, BakersGame),
    ("fcanon table --variant=eight_off", Table, EightOff),
    ("fcanon same --variant bakers_game", Same, BakersGame),
    ("fcanon symmetries", Symmetries, FreeCell),
    ("fcanon count --variant=eight_off", Count, EightOff),
    ("fcanon show", Show, FreeCell),
];

// The laws of `fc_tool` say the same of each command and game.
#[test]
fn requests(rt: HostRuntime) {
    for &(line, task, variant) in &REQUESTS {
        assert!(rt;
            is_read_as(rt.alloc(), line, task, variant, None),
            "of {line}"
        );
    }
}

static DEALS: [(&str, Variant, u32); 8] = [
    ("fcanon deal 1", FreeCell, 1),
    ("fcanon deal 0", FreeCell, 0),
    ("fcanon deal +1", FreeCell, 1),
    ("fcanon deal 007", FreeCell, 7),
    ("fcanon deal 4294967295", FreeCell, u32::MAX),
    ("fcanon deal -- -0", FreeCell, 0),
    ("fcanon deal 617 --variant bakers_game", BakersGame, 617),
    ("fcanon deal --variant=freecell 0617", FreeCell, 617),
];

#[test]
fn deals(rt: HostRuntime) {
    for &(line, variant, number) in &DEALS {
        assert!(rt;
            is_read_as(rt.alloc(), line, Task::Deal, variant, Some(number)),
            "of {line}"
        );
    }
}

fn is_answered(alloc: Global, line: &str, kind: ErrorKind) -> bool {
    matches!(read_line(alloc, line), Err(WordsFault::Parser(error)) if error.kind() == kind)
}

// Command lines, apart by `;`, and what the parser answers to each.
static ANSWERS: [(ErrorKind, &str); 9] = [
    (
        ErrorKind::DisplayHelpOnMissingArgumentOrSubcommand,
        "; fcanon",
    ),
    (
        ErrorKind::InvalidSubcommand,
        "fcanon spider; fcanon shows; fcanon help spider; fcanon canons; fcanon expands; fcanon groups; fcanon tables",
    ),
    (
        ErrorKind::UnknownArgument,
        "fcanon show deal-1.board; fcanon --variant=freecell show; fcanon show 1; \
         fcanon canon deal-1.board; fcanon show canon; fcanon check 1; fcanon expand 1; \
         fcanon group my.collection; fcanon share 1; fcanon unique 1; fcanon table 1; fcanon same 1; \
         fcanon deal -1; fcanon deal 1 2",
    ),
    (
        ErrorKind::InvalidValue,
        "fcanon show --variant; fcanon show --variant=spider; fcanon show --variant=FreeCell; \
         fcanon canon --variant=spider; fcanon check --variant; fcanon share --variant=spider; \
         fcanon deal 1 --variant=eight_off",
    ),
    (
        ErrorKind::ArgumentConflict,
        "fcanon show --variant=freecell --variant=freecell",
    ),
    (ErrorKind::MissingRequiredArgument, "fcanon deal"),
    (
        ErrorKind::ValueValidation,
        "fcanon deal x; fcanon deal 4294967296; fcanon deal -- -1",
    ),
    (
        ErrorKind::DisplayHelp,
        "fcanon --help; fcanon -h; fcanon help; fcanon help show; fcanon show --help; \
         fcanon canon --help; fcanon help check; fcanon help expand; fcanon group --help; \
         fcanon help share; fcanon unique --help; fcanon help table",
    ),
    (ErrorKind::DisplayVersion, "fcanon --version"),
];

#[test]
fn parser_answers(rt: HostRuntime) {
    for &(kind, lines) in &ANSWERS {
        for line in lines.split(';') {
            assert!(rt; is_answered(rt.alloc(), line, kind), "of {line}");
        }
    }
}
