//! Laws of what `symmetries` prints.
ghost use Rattle.std.specs.List.{Contains, flat_map};
ghost use Rattle.std.specs.Prelude.{◌++◌, ◌↔◌, ◌∷◌, ◌≡◌, [], codes, List};
ghost use Rattle.fc_card.specs.{renaming_text, Types.{Renaming, Text}};
ghost use Rattle.fc_board.specs.{declared.rule.Variant.{Variant}, Games.{AscendByWord, game_of}};
ghost use Rattle.{fc_canon.specs.{IsSymmetry}, fc_text.specs.Bytes.{line_feed}};
ghost use Rattle.fc_record.specs.Printing.{symmetry_lines};
ghost use Rattle.fc_collect.specs.Groups.{Member, members_among, name_of_member};
ghost use Rattle.fc_collect.specs.Records.{records_of};

/// `symmetries` prints for an accepted record one line for each symmetry of its board, with the
/// record's name, and for no other renaming; the lines ascend by the words of the renamings.
pub fn each_symmetry_has_a_line()
    ensures { (variant : Variant) (collection : Text) (member : Member)
        → Contains (members_among variant (records_of collection)) member
        → (renamings : List Renaming) × AscendByWord renamings
        × ((renaming : Renaming) → Contains renamings renaming
        ↔ IsSymmetry (game_of member.heading.variant) member.contents.board renaming)
        × (symmetry_lines member.number member.heading member.contents
        ≡ flat_map (λ renaming. name_of_member member ++ codes " renaming "
        ++ renaming_text renaming ++ line_feed ∷ []) renamings) }
{}
