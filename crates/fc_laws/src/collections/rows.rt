//! What is printed for collections as keepers write them.
ghost use Rattle.std.specs.Prelude.{◌++◌, ◌∷◌, ◌≡◌, [], codes, Err, None, Ok, replicate, Some};
ghost use Rattle.fc_board.specs.declared.rule.Variant.TheVariants.{BakersGame, EightOff, FreeCell};
ghost use Rattle.fc_record.specs.{Grammar.{heading_of, with_header}, Tables.{table_header}};
ghost use Rattle.fc_record.specs.declared.record.RecordFaultKind.TheVariants.{BadHeader};
ghost use Rattle.fc_collect.specs.declared.commands.CountFormat.TheVariants.{Json, Words};
ghost use Rattle.fc_collect.specs.declared.commands.RunKind.TheVariants.{Check, Count, Group, Same};
ghost use Rattle.fc_collect.specs.declared.commands.RunKind.TheVariants.{Show, Symmetries};
ghost use Rattle.fc_laws.specs.{
  CanonicalExamples.{clubs_king_text},
  CollectionExamples.{bad_name_and_word, bad_variant, bad_word_in_a_list},
  CollectionExamples.{blank_lines_made_canonical, empty_header, group_of_two, group_of_two_in_json},
  CollectionExamples.{group_of_two_shared, group_of_two_shown, group_of_two_tabulated},
  CollectionExamples.{header_with_name_of, king_before_queen, mixed, mixed_checked, mixed_compared},
  CollectionExamples.{mixed_counted, mixed_expanded, mixed_in_groups, mixed_made_canonical},
  CollectionExamples.{mixed_made_unique, mixed_shared, mixed_shown, mixed_symmetries},
  CollectionExamples.{mixed_tabulated, output_of_canon, output_of_check, output_of_expand},
  CollectionExamples.{output_of_group, output_of_json_table, output_of_piece, output_of_run},
  CollectionExamples.{output_of_share, output_of_show, output_of_table, output_of_unique},
  CollectionExamples.{refused_in_group, refused_in_group_counted, seven_header, solved_list},
  CollectionExamples.{solved_list_made_canonical, stray_column, two_variants, won_passage},
  CollectionExamples.{won_with_empty_list},
  TextExamples.{blank_lines, lines_text, won_text},
};

/// A header that names no game, a column after a list, and a board that misses a king.
pub fn refused_records()
    ensures bad_variant { output_of_show bad_variant
        ≡ lines_text (codes "# refused 1 at 2: bad header" ∷ []) }
    ensures stray_column { output_of_show stray_column
        ≡ lines_text (codes "# refused 1 at 31: stray line" ∷ []) }
    ensures missing_king { output_of_check refused_in_group ≡ lines_text (codes "a no list"
        ∷ codes "# refused b at 84: missing card KS" ∷ codes "a no list" ∷ []) }
{}

/// The empty list wins the won board, which is its own canonical board.
pub fn the_empty_list_wins_the_won_board()
    ensures shown { output_of_show won_with_empty_list ≡ won_text ++ lines_text (codes ">" ∷ []) }
    ensures checked { output_of_check won_with_empty_list ≡ lines_text (codes "1 1 wins 0" ∷ []) }
    ensures canonical { output_of_canon won_with_empty_list
        ≡ won_text ++ lines_text (won_passage ∷ codes ">" ∷ []) }
{}

/// Two records with headers, of which the second has a solution.
pub fn two_records()
    ensures checked { output_of_check group_of_two
        ≡ lines_text (codes "one no list" ∷ codes "two 1 wins 1" ∷ []) }
    ensures shown { output_of_show group_of_two ≡ group_of_two_shown }
    ensures tabulated { output_of_table group_of_two ≡ group_of_two_tabulated }
    ensures in_json { output_of_json_table group_of_two ≡ group_of_two_in_json }
    ensures header { table_header
        ≡ codes "name\tvariant\tboard\trenaming\tcolumns\tcells\tlists\twin\n" }
{}

/// They are in one group, and both get the solution; boards of two games are apart. Of each
/// group the first record is unique, and a refused one is printed where it was.
pub fn groups_of_records()
    ensures grouped { output_of_group group_of_two ≡ lines_text (codes "@ freecell one"
        ∷ codes "# members 2: one two" ∷ []) ++ clubs_king_text }
    ensures shared { output_of_share group_of_two ≡ group_of_two_shared }
    ensures refused { output_of_group refused_in_group
        ≡ lines_text (codes "# refused b at 84: missing card KS" ∷ codes "@ freecell a"
        ∷ codes "# members 2: a a" ∷ []) ++ won_text }
    ensures apart { output_of_group two_variants ≡ lines_text (codes "@ freecell a"
        ∷ codes "# members 1: a" ∷ []) ++ (won_text ++ (lines_text (codes "@ bakers_game b"
        ∷ codes "# members 1: b" ∷ []) ++ won_text)) }
    ensures unique { output_of_unique refused_in_group ≡ lines_text (codes "@ freecell a" ∷ [])
        ++ (won_text ++ lines_text (codes "# refused b at 84: missing card KS" ∷ [])) }
    ensures unique_apart { output_of_unique two_variants ≡ lines_text (codes "@ freecell a" ∷ [])
        ++ (won_text ++ (lines_text (codes "@ bakers_game b" ∷ []) ++ won_text)) }
{}

/// Without a header all lines are one record; blank lines between columns are columns.
pub fn a_board_without_a_header()
    ensures canonical { output_of_canon blank_lines ≡ blank_lines_made_canonical }
{}

/// A header's word in any case, at the mark or apart from it; names of 1 to 64 printing bytes; and
/// where a header is at fault: at the end of its text, at its name or at a further word.
pub fn headers_are_read()
    ensures game { heading_of FreeCell seven_header
        ≡ Ok (with_header EightOff (Some (codes "seven"))) }
    ensures at_the_mark { heading_of FreeCell (codes "@BAKERS_GAME b")
        ≡ Ok (with_header BakersGame (Some (codes "b"))) }
    ensures unnamed { heading_of EightOff (codes "@freecell") ≡ Ok (with_header FreeCell None) }
    ensures longest { heading_of EightOff (header_with_name_of 64)
        ≡ Ok (with_header FreeCell (Some (replicate 64 120))) }
    ensures too_long { heading_of EightOff (header_with_name_of 65)
        ≡ Err (record { place = 11; kind = BadHeader }) }
    ensures further { heading_of FreeCell (codes "@ freecell a b")
        ≡ Err (record { place = 13; kind = BadHeader }) }
    ensures bad_name { heading_of FreeCell bad_name_and_word
        ≡ Err (record { place = 11; kind = BadHeader }) }
    ensures no_word { heading_of FreeCell empty_header
        ≡ Err (record { place = 3; kind = BadHeader }) }
{}

/// Lists are numbered and checked one by one, carried with their board, and refused at their word.
pub fn lists_of_records()
    ensures carried { output_of_canon solved_list ≡ solved_list_made_canonical }
    ensures checked { output_of_check king_before_queen ≡ lines_text (codes "seven 1 legal 1"
        ∷ codes "seven 2 illegal 0 not next" ∷ []) }
    ensures bad_token { output_of_show bad_word_in_a_list
        ≡ lines_text (codes "# refused 1 at 38: bad token" ∷ []) }
{}

/// A piece that is said to begin with a record numbers the records without a name from there, and
/// one that is said to begin at a byte counts places from there, each also alone.
pub fn pieces_begin_where_they_are_said_to()
    ensures record { output_of_piece Check 7 0 won_with_empty_list
        ≡ lines_text (codes "7 1 wins 0" ∷ []) }
    ensures byte { output_of_piece Group 1 100 refused_in_group
        ≡ lines_text (codes "# refused b at 184: missing card KS" ∷ codes "@ freecell a"
        ∷ codes "# members 2: a a" ∷ []) ++ won_text }
    ensures both { output_of_piece Show 3 100 bad_word_in_a_list
        ≡ lines_text (codes "# refused 3 at 138: bad token" ∷ []) }
{}

/// Boards of the three games, of which two records that are apart are one group and have winning
/// lists of their own; renamings and orders of cells that are not their own inverses; a list that
/// is refused at its third move, and one of moves of several cards at its first; names of the first
/// and last printing bytes, and none; a word in upper case; a front of comments; and records with
/// two faults, of which the first is named.
pub fn all_at_once()
    ensures shown { output_of_show mixed ≡ mixed_shown }
    ensures checked { output_of_check mixed ≡ mixed_checked }
    ensures expanded { output_of_expand mixed ≡ mixed_expanded }
    ensures canonical { output_of_canon mixed ≡ mixed_made_canonical }
    ensures grouped { output_of_group mixed ≡ mixed_in_groups }
    ensures shared { output_of_share mixed ≡ mixed_shared }
    ensures unique { output_of_unique mixed ≡ mixed_made_unique }
    ensures tabulated { output_of_table mixed ≡ mixed_tabulated }
    ensures compared { output_of_run Same mixed ≡ mixed_compared }
    ensures symmetries { output_of_run Symmetries mixed ≡ mixed_symmetries }
    ensures counted { output_of_run (Count Words) mixed ≡ mixed_counted }
    ensures in_json { output_of_run (Count Json) refused_in_group ≡ refused_in_group_counted }
{}
