//! Numbers, the names of records and their headers, as they are printed.
ghost use Rattle.std.specs.{Fmt.{decimal}, Option.{option_map}};
ghost use Rattle.std.specs.Prelude.{◌++◌, ◌∷◌, ◌≡◌, ◌≤◌, [], codes, length, OnOk};
ghost use Rattle.{fc_board.specs.Games.{variant_word}, fc_text.specs.Bytes.{blank}};
ghost use Rattle.fc_record.specs.Grammar.{heading_seen};
ghost use Rattle.fc_record.specs.Printing.{header_text, heading_line, name_of};

use crate::record::Heading;
use fc_board::Variant;
use itoa::Buffer;
use std::alloc::AllocError;

/// What comes before the name in a printed header of FreeCell.
pub(crate) const FREECELL_FRONT: [u8; 11] = *b"@ freecell ";

/// What comes before the name in a printed header of Baker's Game.
pub(crate) const BAKERS_GAME_FRONT: [u8; 14] = *b"@ bakers_game ";

/// What comes before the name in a printed header of Eight Off.
pub(crate) const EIGHT_OFF_FRONT: [u8; 12] = *b"@ eight_off ";

/// Prints the number in decimal digits.
pub fn push_number(number: usize, out: &mut Vec<u8>) -> Result<(), AllocError>
    ensures printed { OnOk result (out.new.items ≡ out.old.items ++ decimal number) }
    ensures grows { length out.old.items ≤ length out.new.items }
{
    let mut digits = Buffer::new();
    out.extend_from_slice(digits.format(number).as_bytes())
}

/// Prints what the record of this number is called: its name, or the number where it has none.
pub fn push_name(number: usize, name: Option<&[u8]>, out: &mut Vec<u8>) -> Result<(), AllocError>
    ensures printed { OnOk result (out.new.items
        ≡ out.old.items ++ name_of number (option_map (λ name. name.now) name.entry)) }
    ensures grows { length out.old.items ≤ length out.new.items }
{
    match name {
        Some(name) => out.extend_from_slice(name),
        None => push_number(number, out),
    }
}

/// Prints the header of the record of this number, if it had one.
pub(crate) fn push_heading(
    number: usize,
    variant: Variant,
    heading: Heading<'_>,
    out: &mut Vec<u8>,
) -> Result<(), AllocError>
    ensures printed { OnOk result (out.new.items
        ≡ out.old.items ++ heading_line number (heading_seen variant heading.entry)) }
{
    if heading.has_header {
        push_own_header(number, variant, heading.name, out)
    } else {
        Ok(())
    }
}

/// Prints a header with what the record of this number is called.
fn push_own_header(
    number: usize,
    variant: Variant,
    name: Option<&[u8]>,
    out: &mut Vec<u8>,
) -> Result<(), AllocError>
    ensures printed { OnOk result (out.new.items ≡ out.old.items
        ++ header_text variant (name_of number (option_map (λ name. name.now) name.entry))) }
{
    match name {
        Some(name) => push_header(variant, name, out),
        None => push_header(variant, Buffer::new().format(number).as_bytes(), out),
    }
}

/// Prints a header with this name.
pub fn push_header(variant: Variant, name: &[u8], out: &mut Vec<u8>) -> Result<(), AllocError>
    ensures printed { OnOk result (out.new.items ≡ out.old.items ++ header_text variant name.now) }
{
    push_front(variant, out)?;
    out.extend_from_slice(name)?;
    out.push(b'\n')?;
    Ok(())
}

/// Prints what comes before the name in a header of the variant.
#[inline(always)]
fn push_front(variant: Variant, out: &mut Vec<u8>) -> Result<(), AllocError>
    ensures printed { OnOk result (out.new.items
        ≡ out.old.items ++ (codes "@ " ++ variant_word variant ++ blank ∷ [])) }
{
    match variant {
        Variant::FreeCell => out.extend_from_slice(&FREECELL_FRONT),
        Variant::BakersGame => out.extend_from_slice(&BAKERS_GAME_FRONT),
        Variant::EightOff => out.extend_from_slice(&EIGHT_OFF_FRONT),
    }
}
