//! The lines of `symmetries`: the renamings that carry a board onto itself.
ghost use Rattle.std.specs.{List.{flat_map}, Option.{option_map}, Prelude.{◌++◌, ◌≡◌, OnOk}};
ghost use Rattle.fc_record.specs.Printing.{name_of, symmetry_line, symmetry_lines};

use super::heading::push_name;
use super::passage::push_renaming;
use crate::printing::{PrintsRecord, RefusalLine};
use crate::record::{Contents, Heading};
use fc_board::Rule;
use fc_canon::symmetries;
use fc_card::Renaming;
use std::alloc::{AllocError, Global};

/// A line for each symmetry of a record's board.
#[derive(Drop)]
pub struct SymmetryLines;

impl PrintsRecord for SymmetryLines {
    type Refusal = RefusalLine;

    ghost lines = { symmetry_lines };

    fn print<R: Rule>(
        _alloc: Global,
        number: usize,
        heading: Heading<'_>,
        contents: Contents<'_, R>,
        out: &mut Vec<u8>,
    ) -> Result<(), AllocError> {
        let found = symmetries(&contents.board);
        push_symmetries(number, heading.name, found.as_slice(), out)
    }
}

// Prints a line for each of the renamings, with what the record of this number is called.
fn push_symmetries(
    number: usize,
    name: Option<&[u8]>,
    renamings: &[Renaming],
    out: &mut Vec<u8>,
) -> Result<(), AllocError>
    ensures printed { OnOk result (out.new.items ≡ out.old.items
        ++ flat_map (symmetry_line (name_of number (option_map (λ name. name.now) name.entry)))
        renamings.now) }
{
    for renaming in renamings {
        push_symmetry(number, name, *renaming, out)?;
    }
    Ok(())
}

fn push_symmetry(
    number: usize,
    name: Option<&[u8]>,
    renaming: Renaming,
    out: &mut Vec<u8>,
) -> Result<(), AllocError>
    ensures printed { OnOk result (out.new.items ≡ out.old.items
        ++ symmetry_line (name_of number (option_map (λ name. name.now) name.entry)) renaming) }
{
    push_name(number, name, out)?;
    out.extend_from_slice(b" renaming ")?;
    push_renaming(renaming, out)?;
    out.push(b'\n')?;
    Ok(())
}
