//! Laws of the figures that `count` prints.
ghost use Rattle.std.specs.{Fmt.{decimal}, List.{Contains, count_by, filter, flat_map, list_any}};
ghost use Rattle.std.specs.Prelude.{◌++◌, ◌+◌, ◌↔◌, ◌∷◌, ◌≡◌, [], Bool, codes, false, length, List};
ghost use Rattle.std.specs.Prelude.{map, slice_index_or, true, ℕ};
ghost use Rattle.{fc_board.specs.declared.rule.Variant.{Variant}, fc_card.specs.Types.{Text}};
ghost use Rattle.fc_board.specs.{Games.{game_of}, Moves.{move_count, MoveList}, Play.{Wins}};
ghost use Rattle.fc_text.specs.Bytes.{blank, line_feed};
ghost use Rattle.fc_record.specs.{Printing.{verdict_line}, RecordTexts.{RecordText}};
ghost use Rattle.fc_collect.specs.Groups.{belong_together, figures, groups_of, Member};
ghost use Rattle.fc_collect.specs.Groups.{members_among, name_of_member, summary_of};
ghost use Rattle.fc_collect.specs.Records.{records_of};
ghost use Rattle.fc_collect.specs.declared.streams.faults.Summary.{Summary};

/// The records are those that are refused, one for each group, and the doubles.
pub fn each_record_is_counted_once()
    ensures { (variant : Variant) (records : List RecordText) → (numbers : List ℕ)
        → map (λ figure. figure.1)
        (figures (summary_of variant records) (members_among variant records)) ≡ numbers
        → slice_index_or numbers 0 0 ≡ slice_index_or numbers 1 0
        + (slice_index_or numbers 2 0 + slice_index_or numbers 3 0) }
{}

/// One more accepted record is a double if an earlier one belongs together with it, and else begins
/// a group.
pub fn one_more_record_is_a_group_or_a_double()
    ensures double { (summary : Summary) (members : List Member) (member : Member)
        (before after : Text)
        → list_any (λ other. belong_together other member) members ≡ true
        → map (λ figure. figure.1) (figures summary members) ≡ before
        → map (λ figure. figure.1) (figures summary (members ++ member ∷ [])) ≡ after
        → (slice_index_or after 2 0 ≡ slice_index_or before 2 0)
        × (slice_index_or after 3 0 ≡ slice_index_or before 3 0 + 1) }
    ensures group { (summary : Summary) (members : List Member) (member : Member)
        (before after : Text)
        → list_any (λ other. belong_together other member) members ≡ false
        → map (λ figure. figure.1) (figures summary members) ≡ before
        → map (λ figure. figure.1) (figures summary (members ++ member ∷ [])) ≡ after
        → (slice_index_or after 2 0 ≡ slice_index_or before 2 0 + 1)
        × (slice_index_or after 3 0 ≡ slice_index_or before 3 0) }
{}

/// The lists are those of the accepted records, and the wins those of them that pass a test, which
/// a list passes exactly if it wins from its record's board. The solved groups are those that pass
/// a test, which a group passes exactly if a list of one of its members wins.
pub fn solved_groups_have_a_list_that_wins()
    ensures lists { (summary : Summary) (members : List Member) (numbers : List ℕ)
        → map (λ figure. figure.1) (figures summary members) ≡ numbers
        → slice_index_or numbers 4 0
        ≡ length (flat_map (λ member. member.contents.lists) members) }
    ensures wins { (summary : Summary) (variant : Variant) (collection : Text) (numbers : List ℕ)
        → map (λ figure. figure.1)
        (figures summary (members_among variant (records_of collection))) ≡ numbers
        → (test : Member → MoveList → Bool)
        × (slice_index_or numbers 5 0
        ≡ length (flat_map (λ member. filter (test member) member.contents.lists)
        (members_among variant (records_of collection))))
        × ((member : Member) (list : MoveList)
        → Contains (members_among variant (records_of collection)) member
        → Contains member.contents.lists list
        → (test member list ≡ true)
        ↔ Wins (game_of member.heading.variant) member.contents.board list) }
    ensures solved { (summary : Summary) (variant : Variant) (collection : Text)
        (numbers : List ℕ)
        → map (λ figure. figure.1)
        (figures summary (members_among variant (records_of collection))) ≡ numbers
        → (test : List Member → Bool)
        × (slice_index_or numbers 6 0
        ≡ count_by test (groups_of (members_among variant (records_of collection))))
        × ((group : List Member)
        → Contains (groups_of (members_among variant (records_of collection))) group
        → (test group ≡ true) ↔ ((member : Member) × (list : MoveList) × Contains group member
        × Contains member.contents.lists list
        × Wins (game_of member.heading.variant) member.contents.board list)) }
{}

/// The wins are as many as the lists of accepted records of which `check` says that they win: those
/// whose line, with whatever number, says so.
pub fn wins_are_those_that_check_names()
    ensures { (summary : Summary) (members : List Member) (numbers : List ℕ)
        → map (λ figure. figure.1) (figures summary members) ≡ numbers
        → (is_named : Member → MoveList → Bool)
        × (slice_index_or numbers 5 0
        ≡ length (flat_map (λ member. filter (is_named member) member.contents.lists) members))
        × ((member : Member) (list : MoveList) (number : ℕ) → (is_named member list ≡ true)
        ↔ (verdict_line (name_of_member member) (game_of member.heading.variant)
        member.contents.board number list
        ≡ name_of_member member ++ blank ∷ decimal number ++ codes " wins "
        ++ decimal (move_count list) ++ line_feed ∷ [])) }
{}
