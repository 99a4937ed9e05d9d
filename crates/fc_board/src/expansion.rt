//! The moves of one card that move a run.
ghost use Rattle.arrayvec.specs.ArrayVec.{array_vec_len};
ghost use Rattle.std.specs.Prelude.{◌++◌, ◌+◌, ◌≡◌, ◌≤◌, length};
ghost use Rattle.fc_board.specs.Moves.{expansion, half, move_between, over_cells};
ghost use Rattle.fc_board.specs.declared.moves.Place.TheVariants.{Column as ToColumn};
ghost use Rattle.fc_board.specs.declared.moves.Source.TheVariants.{Column as FromColumn};

use crate::{Move, Place, Source};
use arrayvec::ArrayVec;

/// The least of reach, twice reach, four times reach and so on that is half of the count or more,
/// doubled once for each helper at most.
fn half(reach: usize, count: usize, spare_columns: &[u8]) -> usize
    requires reach { reach ≤ 13 }
    requires count { count ≤ 13 }
    ensures { result ≡ half reach count spare_columns.now }
{
    match spare_columns {
        [] => reach,
        [_, rest @ ..] => {
            if count <= 2 * reach {
                reach
            } else {
                half(2 * reach, count, rest)
            }
        }
    }
}

fn across(from: u8, to: u8) -> Move
    ensures { result ≡ move_between (FromColumn from) (ToColumn to) }
{
    Move {
        from: Source::Column(from),
        to: Place::Column(to),
    }
}

/// One card goes to the target while those after it wait in the cells.
fn put_over_cells(moves: &mut ArrayVec<Move, 49>, cells: &[u8], from: u8, to: u8)
    requires { array_vec_len moves.old + length (over_cells from to cells.now) ≤ 49 }
    ensures moves { moves.new.items ≡ moves.old.items ++ over_cells from to cells.now }
    ensures len { array_vec_len moves.new
        ≡ array_vec_len moves.old + length (over_cells from to cells.now) }
{
    match cells {
        [] => moves.push(across(from, to)),
        [cell, rest @ ..] => {
            moves.push(Move {
                from: Source::Column(from),
                to: Place::Cell(*cell),
            });
            put_over_cells(moves, rest, from, to);
            moves.push(Move {
                from: Source::Cell(*cell),
                to: Place::Column(to),
            });
        }
    }
}

/// So many cards go from column to column over these cells and helper columns.
pub fn put_expansion(
    moves: &mut ArrayVec<Move, 49>,
    cells: &[u8],
    count: usize,
    from: u8,
    to: u8,
    spare_columns: &[u8],
)
    requires count { (1 ≤ count) × (count ≤ 13) }
    requires cells { length cells.now ≤ 8 }
    requires room { array_vec_len moves.old
        + length (expansion cells.now count from to spare_columns.now) ≤ 49 }
    ensures moves { moves.new.items
        ≡ moves.old.items ++ expansion cells.now count from to spare_columns.now }
    ensures len { array_vec_len moves.new
        ≡ array_vec_len moves.old + length (expansion cells.now count from to spare_columns.now) }
{
    let reach = cells.len() + 1;
    match spare_columns {
        [helper, rest @ ..] if count > reach => {
            let high = half(reach, count, rest);
            let low = count - high;
            put_expansion(moves, cells, low, from, *helper, rest);
            put_expansion(moves, cells, high, from, to, rest);
            put_expansion(moves, cells, low, *helper, to, rest);
        }
        _ => put_over_cells(moves, &cells[..(count - 1).min(cells.len())], from, to),
    }
}
