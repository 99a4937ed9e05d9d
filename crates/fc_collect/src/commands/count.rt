//! The line of `count`: figures of a whole collection.
ghost use Rattle.std.specs.{Fmt.{decimal}, List.{count_by, filter}, Option.{is_some}};
ghost use Rattle.std.specs.Prelude.{◌++◌, ◌+◌, ◌||◌, ◌∷◌, ◌≡◌, [], false, IfOk, length, List, OnOk};
ghost use Rattle.std.specs.Prelude.{ℕ};
ghost use Rattle.{fc_board.specs.Play.{list_verdict}, fc_card.specs.Types.{Text}};
ghost use Rattle.fc_record.specs.{inside.Fitting.{AllFit}, Tables.{is_win}};
ghost use Rattle.fc_collect.specs.Groups.{figures, figures_line, figures_object, Member};
ghost use Rattle.fc_collect.specs.{Groups.{solution_of}, inside.{figures_seen, Gathers, group_key}};
ghost use Rattle.fc_collect.specs.inside.{HasBoard, KeepsSolved, KeepsTally};

use crate::{
    Accepted, AnyGame, Command, Counted, Gathered, GroupKey, RunFault, Seed, Summary,
    key_and_passage, write_full,
};
use fc_board::{Board, Rule};
use fc_record::{MoveList, PrintsRefusal, RefusalLine, RefusalObject, push_number};
use std::alloc::{AllocError, Global};
use std::io::Write;
use std::marker::PhantomData;

/// What is kept of the members: their groups, each with whether a list of it wins, and how many
/// members, lists and lists that win there are.
#[derive(Drop)]
pub struct Tally {
    pub groups: Gathered<bool>,
    pub members: usize,
    pub lists: usize,
    pub wins: usize,
}

/// What `count` prints.
#[derive(Clone, Copy)]
pub struct Figures {
    pub records: usize,
    pub refused: usize,
    pub groups: usize,
    pub doubles: usize,
    pub lists: usize,
    pub wins: usize,
    pub solved: usize,
}

/// Prints the figures of a collection at the end.
#[derive(Drop)]
pub(crate) struct Count<P: PrintsFigures> {
    format: PhantomData<P>,
}

impl<P: PrintsFigures> Command for Count<P> {
    type Refusal = P::Refusal;

    type Kept = Tally;

    ghost lines = { λ members number heading contents. [] };

    ghost ending = { λ summary members. P.text (figures summary members) };

    ghost fails = { λ _. false };

    ghost keeps = { KeepsTally };

    fn start(alloc: Global, seed: Seed) -> Tally {
        Tally {
            groups: Gathered::new(alloc, seed),
            members: 0,
            lists: 0,
            wins: 0,
        }
    }

    fn accept<R: AnyGame>(
        _alloc: Global,
        tally: &mut Tally,
        accepted: Accepted<'_, R>,
        _out: &mut Vec<u8>,
    ) -> Result<(), AllocError> {
        let contents = &accepted.contents;
        let lists = contents.lists.as_slice();
        let wins = count_wins(&contents.board, lists);
        let (key, _) = key_and_passage(&contents.board);
        join(&mut tally.groups, key, wins != 0)?;
        tally.members = sum(tally.members, 1)?;
        tally.lists = sum(tally.lists, lists.len())?;
        tally.wins = sum(tally.wins, wins)?;
        Ok(())
    }

    fn end<Wr: Write>(
        _alloc: Global,
        tally: &Tally,
        summary: Summary,
        pending: &mut Vec<u8>,
        output: &mut Counted<Wr>,
    ) -> Result<bool, RunFault> {
        P::print(&tally.figures(summary), pending)?;
        write_full(pending, output)?;
        Ok(false)
    }
}

// How many of the lists win from the board.
fn count_wins<R: Rule>(board: &Board<R>, lists: &[MoveList]) -> usize
    requires fit { AllFit R.game lists.now }
    ensures { result
        ≡ length (filter (λ list. is_win (list_verdict R.game board.now list)) lists.now) }
{
    let mut count = 0;
    for list in lists {
        count += usize::from(list.wins(board));
    }
    count
}

// Puts a member in the group of its key, by whether a list of it wins.
fn join(groups: &mut Gathered<bool>, key: GroupKey, solved: bool) -> Result<(), AllocError>
    ensures kept { OnOk result ((members : List Member) → (member : Member) → HasBoard member
        → key ≡ group_key member → solved ≡ is_some (solution_of member)
        → Gathers KeepsSolved groups.old members
        → Gathers KeepsSolved groups.new (members ++ member ∷ [])) }
{
    match groups.place_of(key)? {
        Some(place) => {
            let kept = &mut groups.groups[place];
            *kept = either(*kept, solved);
            Ok(())
        }
        None => {
            groups.groups.push(solved)?;
            Ok(())
        }
    }
}

fn either(one: bool, other: bool) -> bool
    ensures { result ≡ (one || other) }
{
    one || other
}

// The sum of two counts. One that is too large is want of memory: no collection that a run can read
// has so many lists.
fn sum(count: usize, more: usize) -> Result<usize, AllocError>
    ensures { IfOk result (λ sum. sum ≡ count + more) }
{
    match count.checked_add(more) {
        Some(sum) => Ok(sum),
        None => Err(AllocError),
    }
}

impl Tally {
    /// The figures of a collection with these members.
    fn figures(&self, summary: Summary) -> Figures
        ensures { (members : List Member) → KeepsTally self.now members
            → figures_seen result ≡ figures summary members }
    {
        let groups = self.groups.groups.as_slice();
        Figures {
            records: summary.records,
            refused: summary.refused,
            groups: groups.len(),
            doubles: self.members.saturating_sub(groups.len()),
            lists: self.lists,
            wins: self.wins,
            solved: count_true(groups),
        }
    }
}

fn count_true(flags: &[bool]) -> usize
    ensures { result ≡ count_by (λ flag. flag) flags.now }
{
    let mut count = 0;
    for flag in flags {
        count += usize::from(*flag);
    }
    count
}

/// A format of figures.
pub(crate) trait PrintsFigures {
    /// What is printed for each refused record.
    type Refusal: PrintsRefusal;

    /// The text of figures with their names.
    ghost text: { List (Text × ℕ) → Text };

    /// Prints the figures.
    fn print(figures: &Figures, out: &mut Vec<u8>) -> Result<(), AllocError>
        ensures printed { OnOk result (out.new.items
            ≡ out.old.items ++ text (figures_seen figures.now)) };
}

/// The figures in one line, each after its name.
#[derive(Drop)]
pub(crate) struct FiguresLine;

impl PrintsFigures for FiguresLine {
    type Refusal = RefusalLine;

    ghost text = { figures_line };

    fn print(figures: &Figures, out: &mut Vec<u8>) -> Result<(), AllocError> {
        push_figure(b"records ", figures.records, out)?;
        push_figure(b" refused ", figures.refused, out)?;
        push_figure(b" groups ", figures.groups, out)?;
        push_figure(b" doubles ", figures.doubles, out)?;
        push_figure(b" lists ", figures.lists, out)?;
        push_figure(b" wins ", figures.wins, out)?;
        push_figure(b" solved ", figures.solved, out)?;
        out.push(b'\n')?;
        Ok(())
    }
}

/// The figures as an object of JSON.
#[derive(Drop)]
pub(crate) struct FiguresObject;

impl PrintsFigures for FiguresObject {
    type Refusal = RefusalObject;

    ghost text = { figures_object };

    fn print(figures: &Figures, out: &mut Vec<u8>) -> Result<(), AllocError> {
        push_figure(b"{\"records\":", figures.records, out)?;
        push_figure(b",\"refused\":", figures.refused, out)?;
        push_figure(b",\"groups\":", figures.groups, out)?;
        push_figure(b",\"doubles\":", figures.doubles, out)?;
        push_figure(b",\"lists\":", figures.lists, out)?;
        push_figure(b",\"wins\":", figures.wins, out)?;
        push_figure(b",\"solved\":", figures.solved, out)?;
        out.extend_from_slice(b"}\n")?;
        Ok(())
    }
}

/// Prints a number after what comes before it.
pub(crate) fn push_figure(front: &[u8], number: usize, out: &mut Vec<u8>) -> Result<(), AllocError>
    ensures printed { OnOk result (out.new.items
        ≡ out.old.items ++ (front.now ++ decimal number)) }
{
    out.extend_from_slice(front)?;
    push_number(number, out)
}
