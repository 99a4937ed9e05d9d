//! Laws of what `closed` finds of a collection.
ghost use Rattle.std.specs.List.{Contains, count_by};
ghost use Rattle.std.specs.Prelude.{◌++◌, ◌<◌, ◌↔◌, ◌≡◌, All, codes, length, List, Some, ℕ};
ghost use Rattle.{fc_board.specs.declared.rule.Variant.{Variant}, fc_card.specs.Types.{Text}};
ghost use Rattle.fc_board.specs.{Games.{game_of}, Play.{IsWon}, Steps.{Step}};
ghost use Rattle.{fc_bytes.specs.{legal_moves, move_bytes}, fc_canon.specs.{Equivalent}};
ghost use Rattle.fc_closed.specs.{IsClosed, IsUnsolvable};
ghost use Rattle.fc_record.specs.{Printing.{is_refused}, RecordTexts.{RecordText}};
ghost use Rattle.fc_collect.specs.Closed.{boards_of, Closed, finding_of, Flawed, Refused};
ghost use Rattle.fc_collect.specs.Groups.{groups_of, members_among, summary_of};
ghost use Rattle.fc_collect.specs.{Promises.{OutputOf}, Records.{records_from}, Runs.{printing_of}};
ghost use Rattle.fc_collect.specs.declared.commands.CountFormat.TheVariants.{Words};
ghost use Rattle.fc_collect.specs.declared.commands.RunKind.TheVariants as runs;
ghost use Rattle.fc_collect.specs.declared.commands.closed.Flaw.{Flaw};
ghost use Rattle.fc_collect.specs.declared.streams.faults.Summary.{Summary};
ghost use Rattle.fc_collect.specs.declared.streams.limits.Limits.{Limits};
ghost use Rattle.fc_laws.specs.Findings.{IsFirstFlawed, IsShutIn};

/// Where a run of `closed` writes `closed`, no list of moves, of one card or of several, wins from
/// the board of any accepted record, and none is refused. It writes that exactly where it ends with
/// status 0, for which nothing may count as refused.
pub fn what_is_written_closed_is_unsolvable()
    ensures unsolvable { (limits : Limits) (variant : Variant) (read written rest : Text)
        (summary : Summary)
        → OutputOf limits (printing_of (runs.Closed Words) variant) read written summary
        → written ≡ codes "closed" ++ rest
        → All (λ member. IsUnsolvable (game_of member.heading.variant) member.contents.board)
        (members_among variant (records_from limits read)) }
    ensures none_refused { (limits : Limits) (variant : Variant) (read written rest : Text)
        (summary : Summary)
        → OutputOf limits (printing_of (runs.Closed Words) variant) read written summary
        → written ≡ codes "closed" ++ rest
        → count_by (is_refused variant) (records_from limits read) ≡ 0 }
    ensures status { (limits : Limits) (variant : Variant) (read written : Text)
        (summary : Summary)
        → OutputOf limits (printing_of (runs.Closed Words) variant) read written summary
        → (summary.refused ≡ 0) ↔ ((rest : Text) × (written ≡ codes "closed" ++ rest)) }
{}

/// A collection is found closed exactly where no record is refused and, in each game by itself, no
/// board is won and each move of one card leads to a board that is equivalent to one of them. The
/// counts are those of its records and of their groups.
pub fn closed_is_found_exactly()
    ensures exactly { (variant : Variant) (records : List RecordText)
        → finding_of (summary_of variant records) (members_among variant records)
        ≡ Closed (length records) (length (groups_of (members_among variant records)))
        ↔ ((count_by (is_refused variant) records ≡ 0)
        × ((of : Variant) → IsClosed (game_of of) (boards_of of (members_among variant records)))) }
    ensures counts { (variant : Variant) (records : List RecordText) (count classes : ℕ)
        → finding_of (summary_of variant records) (members_among variant records)
        ≡ Closed count classes
        → (count ≡ length records)
        × (classes ≡ length (groups_of (members_among variant records))) }
{}

/// A record that is named is the first that is in the way: where `won` names it, its board is won;
/// where `open` names it with a move, that is the first of its legal moves that leads to a board
/// which is equivalent to none of its game's. None is in the way where refused records are counted.
pub fn what_is_named_is_in_the_way_first()
    ensures named { (variant : Variant) (records : List RecordText) (name : Text) (flaw : Flaw)
        → finding_of (summary_of variant records) (members_among variant records)
        ≡ Flawed name flaw
        → IsFirstFlawed (members_among variant records) name flaw }
    ensures refused { (variant : Variant) (records : List RecordText) (count : ℕ)
        → finding_of (summary_of variant records) (members_among variant records)
        ≡ Refused count
        → (count ≡ count_by (is_refused variant) records) × (0 < count)
        × All (IsShutIn (members_among variant records)) (members_among variant records) }
{}
