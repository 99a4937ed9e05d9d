//! The lines of `share`: each member of a group with the group's solution.
ghost use Rattle.std.specs.{List.{find}, Option.{option_map}};
ghost use Rattle.std.specs.Prelude.{◌++◌, ◌≡◌, IfOk, IfSome, List, OnOk, Option, Some};
ghost use Rattle.fc_board.specs.{Moves.{ListFits, MoveList as SaidList}, Play.{list_verdict}};
ghost use Rattle.fc_canon.specs.{chosen_passage};
ghost use Rattle.fc_record.specs.{Grammar.{heading_seen}, inside.Fitting.{AllFit}, Tables.{is_win}};
ghost use Rattle.fc_collect.specs.Groups.{Member, member_lines, share_lines, solution_line};
ghost use Rattle.fc_collect.specs.inside.{Held.{held, variant_of}, KeepsMember, KeepsOwner};
ghost use Rattle.fc_collect.specs.inside.{KeepsShared, KeepsSolution, member_of, output_counts};
ghost use Rattle.fc_collect.specs.inside.{SameGame, SendingFits};
ghost use Rattle.fc_collect.specs.Streams.{GrowsBy, HasRoom, inner_of};

use crate::groups::solution::{Shared, SharedMember, Solution, first_winning_list};
use crate::groups::{Gathering, GroupKey};
use crate::{Accepted, AnyGame, ByGame, Counted, RunFault, write_full};
use fc_board::{Board, Rule};
use fc_canon::Passage;
use fc_card::Group;
use fc_record::{Contents, Heading, MoveList, push_header, push_image, push_list, push_name};
use std::alloc::{AllocError, Global};
use std::io::Write;

/// Prints each member of a group with the group's solution.
#[derive(Drop)]
pub struct ShareLines;

impl Gathering for ShareLines {
    type Kept = Shared;

    ghost keeps = { KeepsShared };

    ghost lines = { share_lines };

    // Most groups have one member, so the first one gets room for itself alone.
    fn first<R: AnyGame>(
        alloc: Global,
        accepted: Accepted<'_, R>,
        passage: Passage<R>,
    ) -> Result<Shared, AllocError> {
        let mut kept = Shared::new(alloc);
        kept.members.reserve_exact(1)?;
        ShareLines::add::<R>(alloc, &mut kept, accepted, passage)?;
        Ok(kept)
    }

    // After the first list that wins, no list is played or kept.
    fn add<R: AnyGame>(
        alloc: Global,
        kept: &mut Shared,
        accepted: Accepted<'_, R>,
        passage: Passage<R>,
    ) -> Result<(), AllocError> {
        let Accepted {
            number,
            heading,
            contents,
        } = accepted;
        let Contents { board, lists, .. } = contents;
        let member = kept_member(alloc, number, heading, &board, &passage)?;
        kept.members.push(member)?;
        if kept.solution.is_some() {
            return Ok(());
        }
        kept.solution = solution_among(number, &board, lists, &passage);
        Ok(())
    }

    fn send_group<Wr: Write>(
        alloc: Global,
        _key: &GroupKey,
        kept: &Shared,
        pending: &mut Vec<u8>,
        output: &mut Counted<Wr>,
    ) -> Result<(), RunFault> {
        for member in kept.members.as_slice() {
            send_member(alloc, member, &kept.solution, pending, output)?;
        }
        Ok(())
    }
}

// What is kept of a member.
fn kept_member<R: AnyGame>(
    alloc: Global,
    number: usize,
    heading: Heading<'_>,
    board: &Board<R>,
    passage: &Passage<R>,
) -> Result<SharedMember, AllocError>
    requires passage { passage.now ≡ chosen_passage R.renamings board.now }
    ensures kept { IfOk result (λ kept. (lists : List SaidList) → KeepsMember kept
        (member_of number (heading_seen R.VARIANT heading.entry)
        (record { board = board.now; lists = lists }))) }
{
    let mut name = Vec::new(alloc);
    push_name(number, heading.name, &mut name)?;
    Ok(SharedMember {
        number,
        name,
        board: R::any_board(board),
        back: R::any_inverse(passage),
    })
}

// The first list of a member that wins, if one does.
fn solution_among<R: AnyGame>(
    owner: usize,
    board: &Board<R>,
    lists: Vec<MoveList>,
    passage: &Passage<R>,
) -> Option<Solution>
    requires fit { AllFit R.game lists.items }
    ensures first { option_map (λ solution. solution.list) result
        ≡ find (λ list. is_win (list_verdict R.game board.now list)) lists.items }
    ensures owner { IfSome result (λ solution. solution.owner ≡ owner) }
    ensures variant { IfSome result (λ solution. variant_of solution.passage ≡ R.VARIANT) }
    ensures passage { IfSome result (λ solution. held solution.passage ≡ passage.now) }
{
    let list = first_winning_list(board, lists)?;
    Some(Solution {
        owner,
        passage: R::any_passage(passage),
        list,
    })
}

// Prints a member with the solution, if there is one. What is printed is written once enough of it
// is pending.
fn send_member<Wr: Write>(
    alloc: Global,
    member: &SharedMember,
    solution: &Option<Solution>,
    pending: &mut Vec<u8>,
    output: &mut Counted<Wr>,
) -> Result<(), RunFault>
    requires { HasRoom output.old }
    ensures counted { GrowsBy output.old output.new (output_counts result) }
    ensures sent { (said : Member) → (owner : Option Member)
        → KeepsMember member.now said → KeepsOwner solution.now owner → IfSome owner (SameGame said)
        → SendingFits (member_lines owner said) pending.old.items pending.new.items
        (Wr.contents (inner_of output.old)) (Wr.contents (inner_of output.new)) result }
{
    push_member(alloc, member, solution, pending)?;
    write_full(pending, output)
}

// Prints a member with the solution, if there is one.
fn push_member(
    alloc: Global,
    member: &SharedMember,
    solution: &Option<Solution>,
    out: &mut Vec<u8>,
) -> Result<(), AllocError>
    ensures printed { OnOk result ((said : Member) → (owner : Option Member)
        → KeepsMember member.now said → KeepsOwner solution.now owner
        → IfSome owner (SameGame said) → out.new.items ≡ out.old.items ++ member_lines owner said) }
{
    push_header(member.back.variant(), member.name.as_slice(), out)?;
    member.board.push_text(out)?;
    match solution {
        Some(solution) => push_solution(alloc, member, solution, out),
        None => Ok(()),
    }
}

// Prints the solution for a member: to its owner as it is, and to every other member by the passage
// from the owner's board to its own.
fn push_solution(
    alloc: Global,
    member: &SharedMember,
    solution: &Solution,
    out: &mut Vec<u8>,
) -> Result<(), AllocError>
    ensures printed { OnOk result ((said owner : Member)
        → KeepsMember member.now said → KeepsSolution solution.now owner → SameGame said owner
        → out.new.items ≡ out.old.items ++ solution_line said (Some owner)) }
{
    if solution.owner == member.number {
        return push_list(&solution.list, out);
    }
    let list = solution.list.copy(alloc)?;
    match (&solution.passage, &member.back) {
        (ByGame::FreeCell(to), ByGame::FreeCell(back)) => push_image(&to.then(back), list, out),
        (ByGame::BakersGame(to), ByGame::BakersGame(back)) => push_image(&to.then(back), list, out),
        (ByGame::EightOff(to), ByGame::EightOff(back)) => push_image(&to.then(back), list, out),
        // The members of a group are of one game.
        _ => Ok(()),
    }
}
