//! What `share` keeps of a group.
ghost use Rattle.std.specs.{List.{find}, Prelude.{◌≡◌, [], IfSome}};
ghost use Rattle.fc_board.specs.{Moves.{ListFits}, Play.{list_verdict}};
ghost use Rattle.fc_record.specs.{inside.Fitting.{AllFit, ListFits-prop}, Tables.{is_win}};
ghost use Rattle.fc_collect.specs.inside.Held.{game_held};

use crate::{AnyBoard, AnyPassage};
use fc_board::{Board, Rule};
use fc_record::MoveList;
use std::alloc::Global;

/// What is kept of a group: what is to be printed of each member, in input order, and the first
/// list that wins.
#[derive(Drop)]
pub struct Shared {
    pub members: Vec<SharedMember>,
    pub solution: Option<Solution>,
}

/// What is kept of a member: its number, its name as it is printed, its own board, and the passage
/// back to it from the canonical board.
#[derive(Drop)]
pub struct SharedMember {
    pub number: usize,
    pub name: Vec<u8>,
    pub board: AnyBoard,
    pub back: AnyPassage,
}

/// A list that wins from the board of its owner, with the number of that record and its passage to
/// the canonical board.
#[derive(Drop)]
pub struct Solution {
    pub owner: usize,
    pub passage: AnyPassage,
    pub list: MoveList,
    ghost fit: { ListFits (game_held passage) list } by { ListFits-prop (game_held passage) list },
}

impl Shared {
    /// What is kept of a group before its first member.
    pub(crate) fn new(alloc: Global) -> Shared
        ensures members { result.members.items ≡ [] }
        ensures solution { result.solution ≡ None }
    {
        Shared {
            members: Vec::new(alloc),
            solution: None,
        }
    }
}

/// The first of the lists that wins from the board, if one does.
pub(crate) fn first_winning_list<R: Rule>(
    board: &Board<R>,
    lists: Vec<MoveList>,
) -> Option<MoveList>
    requires fit { AllFit R.game lists.items }
    ensures first { result
        ≡ find (λ list. is_win (list_verdict R.game board.now list)) lists.items }
    ensures fits { IfSome result (ListFits R.game) }
{
    for list in lists {
        if list.wins(board) {
            return Some(list);
        }
    }
    None
}
