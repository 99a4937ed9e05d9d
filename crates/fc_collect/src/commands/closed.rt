//! The line of `closed`: whether the boards of a collection are closed, or what is in the way.
ghost use Rattle.std.specs.List.{find, list_any};
ghost use Rattle.std.specs.Prelude.{◌++◌, ◌≡◌, [], IfOk, List, map, not, OnOk};
ghost use Rattle.{fc_board.specs.declared.moves.Move.{Move as OneCard}, fc_card.specs.Types.{Text}};
ghost use Rattle.fc_bytes.specs.{HoldsMove, IsAllowed, legal_moves, move_bytes};
ghost use Rattle.fc_collect.specs.Closed.{Closed as IsClosed, Finding, finding_line};
ghost use Rattle.fc_collect.specs.Closed.{finding_object, finding_of, flaw_of, Flawed, flawless};
ghost use Rattle.fc_collect.specs.{Closed.{has_flaw, leads_out, opened}, Groups.{Member}};
ghost use Rattle.fc_collect.specs.inside.{AreKeys, IsOn, KeepsBoard, KeepsBoards, same_key};

use crate::commands::count::push_figure;
use crate::commands::unique::keep_key;
use crate::{
    Accepted, AnyBoard, AnyGame, Command, Counted, GroupKey, KeyHasher, RunFault, Seed, Summary,
    key_and_passage, write_full,
};
use arrayvec::ArrayVec;
use fc_board::{Board, Rule};
use fc_bytes::MoveBytes;
use fc_bytes::calls::children::push_legal_moves;
use fc_record::{PrintsRefusal, RefusalLine, RefusalObject, push_json_string, push_name};
use indexmap::IndexSet;
use std::alloc::{AllocError, Global};
use std::io::Write;
use std::marker::PhantomData;

/// What is wrong with a board of a collection that is to be closed.
#[derive(Clone, Copy)]
pub enum Flaw {
    /// It is won.
    Won,
    /// This move, the first of its board that does, leads to a board that is equivalent to none of
    /// them.
    Open(MoveBytes),
}

/// What is kept of an accepted record: its name as it is printed, and its board.
#[derive(Drop)]
pub struct KeptBoard {
    pub name: Vec<u8>,
    pub board: AnyBoard,
}

/// What is kept of all: the keys of their groups, and each by itself.
#[derive(Drop)]
pub struct KeptBoards {
    pub keys: IndexSet<GroupKey, KeyHasher>,
    pub boards: Vec<KeptBoard>,
}

/// Prints at the end whether the boards of a collection are closed.
#[derive(Drop)]
pub(crate) struct Closed<P: PrintsFinding> {
    format: PhantomData<P>,
}

impl<P: PrintsFinding> Command for Closed<P> {
    type Refusal = P::Refusal;

    type Kept = KeptBoards;

    ghost lines = { λ members number heading contents. [] };

    ghost ending = { λ summary members. P.text (finding_of summary members) };

    ghost fails = { has_flaw };

    ghost keeps = { KeepsBoards };

    fn start(alloc: Global, seed: Seed) -> KeptBoards {
        KeptBoards {
            keys: IndexSet::with_hasher(alloc, KeyHasher::new(seed)),
            boards: Vec::new(alloc),
        }
    }

    fn accept<R: AnyGame>(
        alloc: Global,
        kept: &mut KeptBoards,
        accepted: Accepted<'_, R>,
        _out: &mut Vec<u8>,
    ) -> Result<(), AllocError> {
        let board = &accepted.contents.board;
        let (key, _) = key_and_passage(board);
        keep_key(&mut kept.keys, key)?;
        let mut name = Vec::new(alloc);
        push_name(accepted.number, accepted.heading.name, &mut name)?;
        kept.boards.push(KeptBoard {
            name,
            board: R::any_board(board),
        })?;
        Ok(())
    }

    fn end<Wr: Write>(
        _alloc: Global,
        kept: &KeptBoards,
        summary: Summary,
        pending: &mut Vec<u8>,
        output: &mut Counted<Wr>,
    ) -> Result<bool, RunFault> {
        let failed = push_finding::<P>(kept, summary, pending)?;
        write_full(pending, output)?;
        Ok(failed)
    }
}

// Prints what is found, and returns whether a board has a flaw.
fn push_finding<P: PrintsFinding>(
    kept: &KeptBoards,
    summary: Summary,
    out: &mut Vec<u8>,
) -> Result<bool, AllocError>
    ensures printed { OnOk result ((members : List Member) → KeepsBoards kept.now members
        → out.new.items ≡ out.old.items ++ P.text (finding_of summary members)) }
    ensures found { IfOk result (λ found. (members : List Member) → KeepsBoards kept.now members
        → found ≡ has_flaw members) }
{
    let boards = kept.boards.as_slice();
    for at in 0..boards.len() {
        if let Some(flaw) = boards[at].flaw(&kept.keys) {
            P::print_flawed(boards[at].name.as_slice(), flaw, out)?;
            return Ok(true);
        }
    }
    P::print_flawless(summary, kept.keys.len(), out)?;
    Ok(false)
}

impl KeptBoard {
    /// What is wrong with the board among the members that have these keys.
    fn flaw(&self, keys: &IndexSet<GroupKey, KeyHasher>) -> Option<Flaw>
        ensures { (all : List Member) (member : Member) → AreKeys keys.now.keys all
            → KeepsBoard self.now member → result ≡ flaw_of all member }
    {
        match &self.board {
            AnyBoard::FreeCell(board) => flaw_of(board, keys),
            AnyBoard::BakersGame(board) => flaw_of(board, keys),
            AnyBoard::EightOff(board) => flaw_of(board, keys),
        }
    }
}

// What is wrong with the board among the members that have these keys.
fn flaw_of<R: Rule>(board: &Board<R>, keys: &IndexSet<GroupKey, KeyHasher>) -> Option<Flaw>
    ensures { (all : List Member) (member : Member) → AreKeys keys.now.keys all
        → IsOn R.VARIANT board.now member → result ≡ flaw_of all member }
{
    if board.is_won() {
        return Some(Flaw::Won);
    }
    let mut legal = ArrayVec::new();
    push_legal_moves(&mut legal, board);
    first_out(board, legal.as_slice(), keys)
}

// The first of the legal moves that leads out.
fn first_out<R: Rule>(
    board: &Board<R>,
    moves: &[MoveBytes],
    keys: &IndexSet<GroupKey, KeyHasher>,
) -> Option<Flaw>
    requires moves { moves.now ≡ map move_bytes (legal_moves R.game board.now) }
    ensures { (all : List Member) (member : Member) → AreKeys keys.now.keys all
        → IsOn R.VARIANT board.now member
        → result ≡ opened (find (leads_out all member) (legal_moves R.game board.now)) }
{
    for at in 0..moves.len() {
        if !stays_in(board, moves[at], keys) {
            return Some(Flaw::Open(moves[at]));
        }
    }
    None
}

// Whether the move, which the game allows, leads to a board of the members that have these keys.
fn stays_in<R: Rule>(board: &Board<R>, mv: MoveBytes, keys: &IndexSet<GroupKey, KeyHasher>) -> bool
    requires { (one : OneCard) × HoldsMove R.game mv one × IsAllowed R.game board.now one }
    ensures { (all : List Member) (member : Member) (one : OneCard) → AreKeys keys.now.keys all
        → IsOn R.VARIANT board.now member → HoldsMove R.game mv one
        → leads_out all member one ≡ not result }
{
    let Some(one) = mv.one_card::<R>() else {
        unreachable!();
    };
    let mut after = board.copy();
    after.step_allowed(one);
    let (key, _) = key_and_passage(&after);
    is_kept(&key, keys)
}

// Whether the key is one of these.
fn is_kept(key: &GroupKey, keys: &IndexSet<GroupKey, KeyHasher>) -> bool
    ensures { result ≡ list_any (same_key key.now) keys.now.keys }
{
    keys.contains(key)
}

/// A format of what is found of a collection.
pub(crate) trait PrintsFinding {
    /// What is printed for each refused record.
    type Refusal: PrintsRefusal;

    /// The text of what is found.
    ghost text: { Finding → Text };

    /// Prints the name of a record, and what is wrong with its board.
    fn print_flawed(name: &[u8], flaw: Flaw, out: &mut Vec<u8>) -> Result<(), AllocError>
        ensures printed { OnOk result (out.new.items
            ≡ out.old.items ++ text (Flawed name.now flaw)) };

    /// Prints how many records there are in how many classes, or how many are refused.
    fn print_flawless(summary: Summary, classes: usize, out: &mut Vec<u8>) -> Result<(), AllocError>
        ensures printed { OnOk result (out.new.items
            ≡ out.old.items ++ text (flawless summary classes)) };
}

/// A line of words.
#[derive(Drop)]
pub(crate) struct FindingLine;

impl PrintsFinding for FindingLine {
    type Refusal = RefusalLine;

    ghost text = { finding_line };

    fn print_flawed(name: &[u8], flaw: Flaw, out: &mut Vec<u8>) -> Result<(), AllocError> {
        match flaw {
            Flaw::Won => {
                out.extend_from_slice(b"won ")?;
                out.extend_from_slice(name)?;
                out.push(b'\n')?;
            }
            Flaw::Open(mv) => {
                out.extend_from_slice(b"open ")?;
                out.extend_from_slice(name)?;
                out.extend_from_slice(&[b' ', mv.from, mv.to, b'\n'])?;
            }
        }
        Ok(())
    }

    fn print_flawless(
        summary: Summary,
        classes: usize,
        out: &mut Vec<u8>,
    ) -> Result<(), AllocError> {
        if summary.refused == 0 {
            push_figure(b"closed ", summary.records, out)?;
            push_figure(b" records ", classes, out)?;
            return out.extend_from_slice(b" classes\n");
        }
        push_figure(b"refused ", summary.refused, out)?;
        out.extend_from_slice(b" records\n")
    }
}

/// An object of JSON.
#[derive(Drop)]
pub(crate) struct FindingObject;

impl PrintsFinding for FindingObject {
    type Refusal = RefusalObject;

    ghost text = { finding_object };

    fn print_flawed(name: &[u8], flaw: Flaw, out: &mut Vec<u8>) -> Result<(), AllocError> {
        match flaw {
            Flaw::Won => {
                out.extend_from_slice(b"{\"finding\":\"won\",\"name\":")?;
                push_json_string(name, out)?;
                out.extend_from_slice(b"}\n")?;
            }
            Flaw::Open(mv) => {
                out.extend_from_slice(b"{\"finding\":\"open\",\"name\":")?;
                push_json_string(name, out)?;
                out.extend_from_slice(b",\"move\":")?;
                push_json_string(&[mv.from, mv.to], out)?;
                out.extend_from_slice(b"}\n")?;
            }
        }
        Ok(())
    }

    fn print_flawless(
        summary: Summary,
        classes: usize,
        out: &mut Vec<u8>,
    ) -> Result<(), AllocError> {
        if summary.refused == 0 {
            return push_closed_object(summary.records, classes, out);
        }
        push_figure(
            b"{\"finding\":\"refused\",\"records\":",
            summary.refused,
            out,
        )?;
        out.extend_from_slice(b"}\n")
    }
}

// Prints that so many records are closed, in so many classes.
fn push_closed_object(records: usize, classes: usize, out: &mut Vec<u8>) -> Result<(), AllocError>
    ensures printed { OnOk result (out.new.items
        ≡ out.old.items ++ finding_object (IsClosed records classes)) }
{
    push_figure(b"{\"finding\":\"closed\",\"records\":", records, out)?;
    push_figure(b",\"classes\":", classes, out)?;
    out.extend_from_slice(b"}\n")?;
    Ok(())
}
