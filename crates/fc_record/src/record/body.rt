//! The board of a record and the lists of moves after it.
ghost use Rattle.std.specs.Option.{option_map};
ghost use Rattle.std.specs.Prelude.{◌+◌, ◌^◌, ◌≡◌, ◌≤◌, All, Err, IfOk, length, Ok, take, true};
ghost use Rattle.fc_board.specs.Moves.{ListFits};
ghost use Rattle.fc_text.specs.{Lines.{lines_from}, Notation.{Listed, ListFault}};
ghost use Rattle.fc_text.specs.Spelling.{Spells};
ghost use Rattle.fc_record.specs.Grammar.{begins_with, contents_of, contents_seen, has_two_marks};
ghost use Rattle.fc_record.specs.Grammar.{list_fault, list_mark, list_read, lists_of, lists_start};
ghost use Rattle.fc_record.specs.inside.{ends_board, Fitting.{AllFit, IsPrinted}};
ghost use Rattle.fc_record.specs.inside.{IfFault, IsFirstFault, IsNoFurther, unread_for};

use crate::record::{Contents, MoveList, RecordFault, RecordFaultKind, begins_line};
use fc_board::{Board, Move, Rule, RunMove};
use fc_text::{Lines, MovesFault, Notated, read_spelled, take_printed};
use memchr::memchr;
use std::alloc::Global;

/// Why the contents of a record could not be read.
#[derive(Clone, Copy, PartialEq, Eq, Debug)]
pub enum Unread {
    /// The record is refused.
    Fault(RecordFault),
    /// There is no memory for its lists.
    Memory,
}

/// The board and the lists of a record's body, whose first byte has this place in the record, or
/// the first fault of them.
pub fn read_contents<'a, R: Rule>(
    alloc: Global,
    place: usize,
    body: &'a [u8],
) -> Result<Contents<'a, R>, Unread>
    requires { place + length body.now ≤ 2 ^ 60 }
    ensures contents { IfOk result (λ contents.
        contents_of R.game place body.now ≡ Ok (contents_seen contents)) }
    ensures fault { IfFault result (λ fault. contents_of R.game place body.now ≡ Err fault) }
    ensures small { IfFault result (λ fault. fault.place ≤ 2 ^ 61) }
{
    let mut left = body;
    if let Some(board) = take_printed::<R>(&mut left) {
        if ends_board(left) {
            let start = body.len() - left.len();
            return with_lists(alloc, place, body, start, board, Some(&body[..start]));
        }
    }
    let start = lists_start(body);
    match read_spelled::<R>(&body[..start]) {
        Ok(board) => with_lists(alloc, place, body, start, board, None),
        Err(fault) => Err(Unread::Fault(RecordFault {
            place: place + fault.place,
            kind: RecordFaultKind::Board(fault.kind),
        })),
    }
}

/// Whether a printed board is all of the board's text, by what comes after it: a list, or nothing.
fn ends_board(left: &[u8]) -> bool
    ensures { result ≡ ends_board left.now }
{
    match left.first() {
        Some(byte) => *byte == b'>',
        None => true,
    }
}

/// The board of a body, with its text where that is printed, and the lists of moves after it, of
/// which the first begins here.
#[inline(always)]
fn with_lists<'a, R: Rule>(
    alloc: Global,
    place: usize,
    body: &[u8],
    start: usize,
    board: Board<R>,
    printed: Option<&'a [u8]>,
) -> Result<Contents<'a, R>, Unread>
    requires within { place + length body.now ≤ 2 ^ 60 }
    requires inside { start ≤ length body.now }
    requires start { start ≡ lists_start body.now }
    requires board { Spells R.game (take start body.now) board }
    requires printed { IsPrinted (option_map (λ text. text.now) printed) board }
    ensures contents { IfOk result (λ contents.
        contents_of R.game place body.now ≡ Ok (contents_seen contents)) }
    ensures fault { IfFault result (λ fault. contents_of R.game place body.now ≡ Err fault) }
    ensures small { IfFault result (λ fault. fault.place ≤ 2 ^ 61) }
{
    let lists = lists_of_text::<R>(alloc, place + start, &body[start..])?;
    Ok(Contents {
        board,
        printed,
        lists,
    })
}

/// Where the first line of a list begins, or the end of the text.
fn lists_start(body: &[u8]) -> usize
    ensures value { result ≡ lists_start body.now }
    ensures within { result ≤ length body.now }
{
    let Some(place) = memchr(b'>', body) else {
        return body.len();
    };
    if begins_line(body, place) {
        return place;
    }
    first_list_line(body)
}

/// The same, line by line, for a text with a mark that begins no line.
fn first_list_line(body: &[u8]) -> usize
    ensures value { result ≡ lists_start body.now }
    ensures within { result ≤ length body.now }
{
    for line in Lines::new(body) {
        if is_list(line.text) {
            return line.start;
        }
    }
    body.len()
}

/// Whether the line is that of a list.
fn is_list(line: &[u8]) -> bool
    ensures { result ≡ begins_with list_mark line.now }
{
    line.first() == Some(&b'>')
}

/// The lists of the text after a board, which mostly is empty.
#[inline(always)]
fn lists_of_text<R: Rule>(alloc: Global, place: usize, text: &[u8]) -> Result<Vec<MoveList>, Unread>
    requires { place + length text.now ≤ 2 ^ 60 }
    ensures lists { IfOk result (λ lists.
        lists_of R.game (lines_from place text.now) ≡ Ok lists.items) }
    ensures fit { IfOk result (λ lists. AllFit R.game lists.items) }
    ensures fault { IfFault result (λ fault.
        lists_of R.game (lines_from place text.now) ≡ Err fault) }
    ensures small { IfFault result (λ fault. fault.place ≤ 2 ^ 61) }
{
    if text.is_empty() {
        return Ok(Vec::new(alloc));
    }
    read_lists::<R>(alloc, place, text)
}

/// The lists of lines of which each is a list, or is blank or a comment.
fn read_lists<R: Rule>(alloc: Global, place: usize, text: &[u8]) -> Result<Vec<MoveList>, Unread>
    requires { place + length text.now ≤ 2 ^ 60 }
    ensures lists { IfOk result (λ lists.
        lists_of R.game (lines_from place text.now) ≡ Ok lists.items) }
    ensures fit { IfOk result (λ lists. AllFit R.game lists.items) }
    ensures fault { IfFault result (λ fault.
        lists_of R.game (lines_from place text.now) ≡ Err fault) }
    ensures small { IfFault result (λ fault. fault.place ≤ 2 ^ 61) }
{
    let mut lists = Vec::new(alloc);
    for line in Lines::new(text) {
        if is_list(line.text) {
            let list = read_list::<R>(alloc, place + line.start, line.text)?;
            if lists.push(list).is_err() {
                return Err(Unread::Memory);
            }
        } else if !line.is_blank_or_comment() {
            return Err(Unread::Fault(RecordFault {
                place: place + line.start,
                kind: RecordFaultKind::StrayLine,
            }));
        }
    }
    Ok(lists)
}

/// The list of a line, which begins at this place of the record.
fn read_list<R: Rule>(alloc: Global, place: usize, line: &[u8]) -> Result<MoveList, Unread>
    requires within { place + length line.now ≤ 2 ^ 60 }
    requires marked { begins_with list_mark line.now ≡ true }
    ensures list { IfOk result (λ list. list_read R.game place line.now ≡ Ok list) }
    ensures fits { IfOk result (ListFits R.game) }
    ensures fault { IfFault result (λ fault. list_read R.game place line.now ≡ Err fault) }
    ensures small { IfFault result (λ fault. fault.place ≤ 2 ^ 61) }
{
    if has_two_marks(line) {
        match read_after::<R, RunMove>(alloc, place + 2, &line[2..]) {
            Ok(moves) => Ok(MoveList::runs(moves)),
            Err(unread) => Err(unread),
        }
    } else {
        match read_after::<R, Move>(alloc, place + 1, &line[1..]) {
            Ok(moves) => Ok(MoveList::one_card(moves)),
            Err(unread) => Err(unread),
        }
    }
}

/// Whether a second mark follows the first.
fn has_two_marks(line: &[u8]) -> bool
    ensures { result ≡ has_two_marks line.now }
{
    line.get(1) == Some(&b'>')
}

/// The moves in a text, of one card or of several, which begins at this place of the record.
fn read_after<R: Rule, M: Notated>(
    alloc: Global,
    place: usize,
    text: &[u8],
) -> Result<Vec<M>, Unread>
    requires { place + length text.now ≤ 2 ^ 60 }
    ensures listed { IfOk result (λ moves. Listed (M.is_token R.game) text.now moves.items) }
    ensures fits { IfOk result (λ moves. All (M.fits_game R.game) moves.items) }
    ensures fault { IfFault result (λ fault. (found : ListFault) × (fault ≡ list_fault place found)
        × IsFirstFault (M.is_token R.game) text.now found) }
    ensures small { IfFault result (λ fault. fault.place ≤ 2 ^ 61) }
{
    match fc_text::read_list::<R, M>(alloc, text) {
        Ok(moves) => Ok(moves),
        Err(fault) => Err(unread_list(place, fault)),
    }
}

/// Why a list is not read, whose text begins at this place of the record.
fn unread_list(place: usize, fault: MovesFault) -> Unread
    requires place { place ≤ 2 ^ 60 }
    requires fault { IsNoFurther (2 ^ 60) fault }
    ensures { result ≡ unread_for place fault }
{
    match fault {
        MovesFault::BadToken(at) => Unread::Fault(RecordFault {
            place: place + at,
            kind: RecordFaultKind::BadToken,
        }),
        MovesFault::TooMany(at) => Unread::Fault(RecordFault {
            place: place + at,
            kind: RecordFaultKind::TooManyMoves,
        }),
        MovesFault::Memory => Unread::Memory,
    }
}
