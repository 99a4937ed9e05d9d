//! Moves of several cards on boards at the end of games.
ghost use Rattle.std.specs.Prelude.{◌∷◌, ◌≡◌, [], length, map, None, Some};
ghost use Rattle.fc_card.specs.{places};
ghost use Rattle.fc_board.specs.{Boards.{IsWellFormed}, Games.{eight_off, freecell}};
ghost use Rattle.fc_board.specs.{Moves.{RunFits}, Passages.{run_image}, Play.{expansion_of}};
ghost use Rattle.fc_board.specs.Play.{expansions, OnlyLegal, run_verdict, verdict, Won};
ghost use Rattle.fc_board.specs.Steps.{after_move, capacity, column_at, Confined, moved_count};
ghost use Rattle.fc_board.specs.Steps.{run_refusal};
ghost use Rattle.fc_board.specs.declared.fault.StepFault.TheVariants.{EmptySource, KingsOnly};
ghost use Rattle.fc_board.specs.declared.fault.StepFault.TheVariants.{NoRun, NotBuilding};
ghost use Rattle.fc_board.specs.declared.fault.StepFault.TheVariants.{OverCapacity, SamePile};
ghost use Rattle.fc_board.specs.declared.fault.StepFault.TheVariants.{WrongCount};
ghost use Rattle.fc_board.specs.declared.run_move.RunMove.TheVariants.{One};
ghost use Rattle.fc_laws.specs.BoardExamples.{across, away, back, eight_cells_full, helper_empty};
ghost use Rattle.fc_laws.specs.BoardExamples.{home, nothing_empty, one_column_empty, run};
ghost use Rattle.fc_laws.specs.BoardExamples.{run_of_count, thirteen_in_a_run, three_clubs_left};
ghost use Rattle.fc_laws.specs.BoardExamples.{three_columns_left, two_runs_left, winning_tokens};

/// KD QC JD go to the empty column 3 over two cells, then all goes home: 23 1h 3h 3h 1h 1h 3h wins.
/// Two go where the move says two, and not four; and as a move of one card 23 takes JD alone.
pub fn a_run_goes_to_an_empty_column()
    ensures wins { run_verdict freecell two_runs_left winning_tokens ≡ Won }
    ensures expansion { expansions freecell two_runs_left winning_tokens
        ≡ away 1 0 ∷ away 1 1 ∷ across 1 2 ∷ back 1 2 ∷ back 0 2
        ∷ home 0 ∷ home 2 ∷ home 2 ∷ home 0 ∷ home 0 ∷ home 2 ∷ [] }
    ensures two { run_refusal freecell two_runs_left (run_of_count 2 1 2) ≡ None }
    ensures over_one_cell { expansion_of freecell two_runs_left (run_of_count 2 1 2)
        ≡ away 1 0 ∷ across 1 2 ∷ back 0 2 ∷ [] }
    ensures four { run_refusal freecell two_runs_left (run_of_count 4 1 2) ≡ Some NoRun }
    ensures one { column_at (after_move two_runs_left (across 1 2)) 2 ≡ 41 ∷ [] }
    ensures capacity { capacity freecell two_runs_left 2 ≡ 160 }
{}

/// With the columns in the order 34567812 the list 23 1h 3h 3h 1h 1h 3h becomes 81 7h 1h 1h 7h 7h
/// 1h, and the number that a move says stays.
pub fn images_name_the_columns_anew()
    ensures tokens { map (run_image (2 ∷ 3 ∷ 4 ∷ 5 ∷ 6 ∷ 7 ∷ 0 ∷ 1 ∷ []) (places 4)) winning_tokens
        ≡ run 7 0 ∷ One (home 6) ∷ One (home 0) ∷ One (home 0) ∷ One (home 6) ∷ One (home 6)
        ∷ One (home 0) ∷ [] }
    ensures number { run_image (2 ∷ 3 ∷ 4 ∷ 5 ∷ 6 ∷ 7 ∷ 0 ∷ 1 ∷ []) (places 4) (run_of_count 2 1 2)
        ≡ run_of_count 2 7 0 }
{}

/// QD JC go onto KC, since the ranks say two: one is a wrong number. QC does not go onto KC of its
/// colour, nor onto JC, which is lower. And QD JC may go back.
pub fn ranks_say_how_many_cards_go()
    ensures two { run_refusal freecell three_columns_left (run 1 0) ≡ None }
    ensures counted { moved_count freecell three_columns_left 1 0 None ≡ 2 }
    ensures expansion { expansion_of freecell three_columns_left (run 1 0)
        ≡ away 1 0 ∷ across 1 0 ∷ back 0 0 ∷ [] }
    ensures one { run_refusal freecell three_columns_left (run_of_count 1 1 0) ≡ Some WrongCount }
    ensures its_colour { run_refusal freecell three_columns_left (run 2 0) ≡ Some NotBuilding }
    ensures lower { run_refusal freecell three_columns_left (run 2 1) ≡ Some NotBuilding }
    ensures and_back { run_verdict freecell three_columns_left (run 1 0 ∷ run_of_count 2 0 1 ∷ [])
        ≡ OnlyLegal }
    ensures moves { length
        (expansions freecell three_columns_left (run 1 0 ∷ run_of_count 2 0 1 ∷ []))
        ≡ 6 }
{}

/// Where neither a cell nor a column is empty two cards do not go.
pub fn two_cards_need_an_empty_pile()
    ensures two { run_refusal freecell nothing_empty (run 1 0) ≡ Some OverCapacity }
    ensures capacity { capacity freecell nothing_empty 0 ≡ 1 }
{}

/// In Eight Off KC QC JC go from column 1 to the empty column 2, over two cells; the last two or
/// the last four do not.
pub fn kings_take_their_run_along()
    ensures three { run_refusal eight_off three_clubs_left (run 0 1) ≡ None }
    ensures counted { moved_count eight_off three_clubs_left 0 1 None ≡ 3 }
    ensures two { run_refusal eight_off three_clubs_left (run_of_count 2 0 1) ≡ Some KingsOnly }
    ensures four { run_refusal eight_off three_clubs_left (run_of_count 4 0 1) ≡ Some NoRun }
    ensures capacity { capacity eight_off three_clubs_left 1 ≡ 9 }
    ensures expansion { expansion_of eight_off three_clubs_left (run 0 1)
        ≡ away 0 0 ∷ away 0 1 ∷ across 0 1 ∷ back 1 1 ∷ back 0 1 ∷ [] }
{}

/// Where no cell is empty, and no column but the target, one card goes and not two.
pub fn the_target_is_no_helper()
    ensures two { run_refusal freecell one_column_empty (run_of_count 2 1 0) ≡ Some OverCapacity }
    ensures one { run_refusal freecell one_column_empty (run 1 0) ≡ None }
    ensures counted { moved_count freecell one_column_empty 1 0 None ≡ 1 }
    ensures capacity { capacity freecell one_column_empty 0 ≡ 1 }
    ensures expansion { expansion_of freecell one_column_empty (run 1 0) ≡ across 1 0 ∷ [] }
{}

/// Two cards go over one empty column.
pub fn an_empty_column_helps()
    ensures allowed { run_refusal freecell helper_empty (run 1 0) ≡ None }
    ensures expansion { expansion_of freecell helper_empty (run 1 0)
        ≡ across 1 2 ∷ across 1 0 ∷ across 2 0 ∷ [] }
{}

/// Thirteen cards go to an empty column over five others, by 49 moves.
pub fn the_longest_expansion()
    ensures allowed { run_refusal freecell thirteen_in_a_run (run 0 2) ≡ None }
    ensures moves { length (expansion_of freecell thirteen_in_a_run (run 0 2)) ≡ 49 }
{}

/// Three cards go over the first two of the other empty columns, in their order.
pub fn helper_columns_are_used_in_order()
    ensures { expansion_of freecell thirteen_in_a_run (run_of_count 3 0 2)
        ≡ across 0 3 ∷ across 0 4 ∷ across 0 2 ∷ across 4 2 ∷ across 3 2 ∷ [] }
{}

/// Of several reasons the first is given. Towards a column with cards: one pile, nothing there, not
/// lower, a wrong number, no run, not building, over capacity.
pub fn reasons_onto_cards_come_in_order()
    ensures same_pile { run_refusal freecell three_columns_left (run_of_count 2 1 1)
        ≡ Some SamePile }
    ensures same_empty_pile { run_refusal freecell three_columns_left (run 7 7) ≡ Some SamePile }
    ensures nothing_there { run_refusal freecell three_columns_left (run 7 0) ≡ Some EmptySource }
    ensures right_number { run_refusal freecell three_columns_left (run_of_count 2 1 0) ≡ None }
    ensures not_lower { run_refusal freecell three_columns_left (run_of_count 1 2 1)
        ≡ Some NotBuilding }
    ensures equal_ranks { run_refusal freecell two_runs_left (run_of_count 1 0 1)
        ≡ Some NotBuilding }
    ensures wrong_number { run_refusal freecell nothing_empty (run_of_count 1 5 0)
        ≡ Some WrongCount }
    ensures no_run { run_refusal freecell nothing_empty (run 5 0) ≡ Some NoRun }
    ensures not_building { run_refusal freecell nothing_empty (run 1 2) ≡ Some NotBuilding }
{}

/// Towards an empty column: no run, over capacity, kings only. In Eight Off a run with its king
/// that is longer than the capacity goes neither as a whole nor in part.
pub fn reasons_onto_nothing_come_in_order()
    ensures no_run { run_refusal freecell one_column_empty (run_of_count 3 1 0) ≡ Some NoRun }
    ensures over_capacity { run_refusal eight_off eight_cells_full (run_of_count 2 0 1)
        ≡ Some OverCapacity }
    ensures kings_only { run_refusal eight_off eight_cells_full (run 0 1) ≡ Some KingsOnly }
    ensures capacity { capacity eight_off eight_cells_full 1 ≡ 1 }
{}

/// A number of cards is 1 to 13, and one card goes from column to column as a run alone.
pub fn run_moves_that_fit()
    ensures without_number { RunFits freecell (run 0 7) }
    ensures one { RunFits freecell (run_of_count 1 0 7) }
    ensures thirteen { RunFits freecell (run_of_count 13 0 7) }
    ensures none { ¬ RunFits freecell (run_of_count 0 0 7) }
    ensures fourteen { ¬ RunFits freecell (run_of_count 14 0 7) }
    ensures ninth_column { ¬ RunFits freecell (run 0 8) }
    ensures away { RunFits freecell (One (away 0 3)) }
    ensures fifth_cell { ¬ RunFits freecell (One (away 0 4)) }
    ensures across { ¬ RunFits freecell (One (across 0 1)) }
{}

/// Where column 3 is empty QD JC go over it, and no other card may be taken. Where nothing is empty
/// they could go over QH, but that is a column with cards, and a foundation is no help either. Nor
/// may a card come from such a column, or from a cell that is taken, or go to one.
pub fn confined_moves()
    ensures over_empty_column { Confined helper_empty 1 0 (45 ∷ 40 ∷ []) helper_empty
        (across 1 2 ∷ across 1 0 ∷ across 2 0 ∷ []) }
    ensures other_card { ¬ Confined helper_empty 1 0 (45 ∷ 40 ∷ []) helper_empty
        (across 0 2 ∷ []) }
    ensures over_cards { verdict freecell nothing_empty (across 1 3 ∷ across 1 0 ∷ across 3 0 ∷ [])
        ≡ OnlyLegal }
    ensures over_no_cards { ¬ Confined nothing_empty 1 0 (45 ∷ 40 ∷ []) nothing_empty
        (across 1 3 ∷ across 1 0 ∷ across 3 0 ∷ []) }
    ensures detour { Confined two_runs_left 1 2 (49 ∷ 44 ∷ 41 ∷ []) two_runs_left
        (away 1 0 ∷ back 0 1 ∷ across 1 3 ∷ across 3 2 ∷ across 2 1 ∷ []) }
    ensures home { ¬ Confined two_runs_left 1 2 (49 ∷ 44 ∷ 41 ∷ []) two_runs_left (home 1 ∷ []) }
    ensures other_column { ¬ Confined nothing_empty 1 0 (46 ∷ []) nothing_empty
        (across 3 1 ∷ []) }
    ensures other_cell { ¬ Confined nothing_empty 1 0 (44 ∷ []) nothing_empty (back 0 1 ∷ []) }
    ensures taken_cell { ¬ Confined nothing_empty 1 0 (40 ∷ []) nothing_empty (away 1 0 ∷ []) }
{}

/// These boards are well formed.
pub fn run_boards_are_well_formed()
    ensures two_runs { IsWellFormed freecell two_runs_left }
    ensures three_columns { IsWellFormed freecell three_columns_left }
    ensures three_clubs { IsWellFormed eight_off three_clubs_left }
    ensures nothing_empty { IsWellFormed freecell nothing_empty }
    ensures one_column { IsWellFormed freecell one_column_empty }
    ensures helper { IsWellFormed freecell helper_empty }
    ensures eight_cells { IsWellFormed eight_off eight_cells_full }
    ensures thirteen { IsWellFormed freecell thirteen_in_a_run }
{}
