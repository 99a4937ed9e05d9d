//! Laws of the definitions in specs/: functions that do nothing, each with a law for its contract.
ghost use Rattle.clap.specs.declared.error.Error.{Error};
ghost use Rattle.clap.specs.declared.error.kind.ErrorKind.TheVariants.{DisplayHelp, InvalidValue};
ghost use Rattle.clap.specs.declared.error.kind.ErrorKind.TheVariants.{MissingRequiredArgument};
ghost use Rattle.clap.specs.declared.error.kind.ErrorKind.TheVariants.{UnknownArgument};
ghost use Rattle.clap.specs.declared.error.kind.ErrorKind.TheVariants.{ValueValidation};
ghost use Rattle.clap.specs.Words.{kind_of, Text};
ghost use Rattle.std.specs.{Io.KnownBytes.{Appends}, Prelude.{◌++◌, ◌<◌, ◌∷◌, ◌≡◌, ◌≢◌, [], codes}};
ghost use Rattle.std.specs.Prelude.{Err, IsSome, List, None, Ok, Option, Result, Some, ℕ};
ghost use Rattle.{fc_board.specs.Games.{Game}, fc_text.specs.Printed.{text_of}};
ghost use Rattle.fc_board.specs.declared.rule.Variant.TheVariants.{BakersGame, EightOff, FreeCell};
ghost use Rattle.fc_deal.specs.{deal, dealt_board, IsDealNumber};
ghost use Rattle.fc_collect.specs.{Limits.{largest, standard}, Records.{records_from}};
ghost use Rattle.fc_collect.specs.Runs.{ending_of_kind, output_of_kind};
ghost use Rattle.fc_collect.specs.Streams.{counts_of, inner_of, stream};
ghost use Rattle.fc_collect.specs.declared.commands.CountFormat.TheVariants.{Words};
ghost use Rattle.fc_collect.specs.declared.commands.CountFormat.TheVariants as figures;
ghost use Rattle.fc_collect.specs.declared.commands.Format.{Format};
ghost use Rattle.fc_collect.specs.declared.commands.Format.TheVariants.{Header, Json, Lines};
ghost use Rattle.fc_collect.specs.declared.commands.RunKind.{RunKind};
ghost use Rattle.fc_collect.specs.declared.commands.RunKind.TheVariants as runs;
ghost use Rattle.fc_collect.specs.declared.streams.faults.{RunFault.{RunFault}, Summary.{Summary}};
ghost use Rattle.fc_import.specs.declared.options.LinesAre.TheVariants.{Columns, Rows};
ghost use Rattle.fc_import.specs.declared.options.Noted.TheVariants.{Changes, Strict};
ghost use Rattle.fc_tool.specs.{command_of, deal_request, EndsDealing, EndsProgram, fault_line};
ghost use Rattle.fc_tool.specs.{job_of, limits_from, plain_options, plain_request, reading_request};
ghost use Rattle.fc_tool.specs.{Reads, run_of_task, status_of, TriesToWrite};
ghost use Rattle.fc_tool.specs.declared.program.DealtGame.TheVariants as dealt;
ghost use Rattle.fc_tool.specs.declared.program.Job.TheVariants as job;
ghost use Rattle.fc_tool.specs.declared.request.{Request.{Request}, Task.{Task}};
ghost use Rattle.fc_tool.specs.declared.request.Task.TheVariants.{Canon, Check, Closed, Count};
ghost use Rattle.fc_tool.specs.declared.request.Task.TheVariants.{Deal, Expand, Group, Import};
ghost use Rattle.fc_tool.specs.declared.request.Task.TheVariants.{Same, Share, Show, Symmetries};
ghost use Rattle.fc_tool.specs.declared.request.Task.TheVariants.{Table, Unique};
ghost use Rattle.fc_tool.specs.declared.request.WordsFault.TheVariants.{Parser};

use crate::Streams;
use fc_collect::Counted;
use std::io::{Read, Write};

/// Each command has its own word.
pub fn commands_have_their_words()
    ensures show { command_of Show ≡ codes "show" }
    ensures canon { command_of Canon ≡ codes "canon" }
    ensures check { command_of Check ≡ codes "check" }
    ensures expand { command_of Expand ≡ codes "expand" }
    ensures group { command_of Group ≡ codes "group" }
    ensures share { command_of Share ≡ codes "share" }
    ensures unique { command_of Unique ≡ codes "unique" }
    ensures table { command_of Table ≡ codes "table" }
    ensures same { command_of Same ≡ codes "same" }
    ensures symmetries { command_of Symmetries ≡ codes "symmetries" }
    ensures count { command_of Count ≡ codes "count" }
    ensures closed { command_of Closed ≡ codes "closed" }
    ensures import { command_of Import ≡ codes "import" }
    ensures deal { command_of Deal ≡ codes "deal" }
{}

/// Without an option each command is for FreeCell, whatever the program is called.
pub fn freecell_is_the_default()
    ensures { (task : Task) (called : Text) (answer : Option Request) → task ≢ Deal
        → Reads (called ∷ command_of task ∷ []) (Ok answer)
        → answer ≡ Some (plain_request task FreeCell) }
{}

/// `--variant=V` names the game of each command that reads records.
pub fn variant_names_the_game()
    ensures freecell { (task : Task) (called : Text) (answer : Option Request) → task ≢ Deal
        → Reads (called ∷ command_of task ∷ codes "--variant=freecell" ∷ []) (Ok answer)
        → answer ≡ Some (plain_request task FreeCell) }
    ensures bakers_game { (task : Task) (called : Text) (answer : Option Request) → task ≢ Deal
        → Reads (called ∷ command_of task ∷ codes "--variant=bakers_game" ∷ []) (Ok answer)
        → answer ≡ Some (plain_request task BakersGame) }
    ensures eight_off { (task : Task) (called : Text) (answer : Option Request) → task ≢ Deal
        → Reads (called ∷ command_of task ∷ codes "--variant=eight_off" ∷ []) (Ok answer)
        → answer ≡ Some (plain_request task EightOff) }
{}

/// `--any-size` lets each command that reads records read a collection of any size.
pub fn any_size_is_asked_for()
    ensures request { (task : Task) (called : Text) (answer : Option Request)
        → task ≢ Deal → task ≢ Import
        → Reads (called ∷ command_of task ∷ codes "--any-size" ∷ []) (Ok answer)
        → answer ≡ Some (reading_request task FreeCell largest) }
    ensures variant { (task : Task) (called : Text) (answer : Option Request)
        → task ≢ Deal → task ≢ Import
        → Reads (called ∷ command_of task ∷ codes "--any-size" ∷ codes "--variant=eight_off" ∷ [])
        (Ok answer)
        → answer ≡ Some (reading_request task EightOff largest) }
    ensures accepted { (task : Task) (called : Text) (error : Error)
        → task ≢ Deal → task ≢ Import
        → ¬ Reads (called ∷ command_of task ∷ codes "--any-size" ∷ []) (Err (Parser error)) }
{}

/// `--from-record` and `--from-byte` say where a piece of a collection of any size begins. Records
/// are numbered from 1, and no number is past what a run can count to.
pub fn pieces_begin_where_they_say()
    ensures both { (task : Task) (called : Text) (answer : Option Request)
        → task ≢ Deal → task ≢ Import → task ≢ Same → task ≢ Count → task ≢ Closed
        → Reads (called ∷ command_of task ∷ codes "--from-record=3" ∷ codes "--from-byte=100" ∷ [])
        (Ok answer)
        → answer ≡ Some (reading_request task FreeCell (limits_from 3 100)) }
    ensures record { (task : Task) (called : Text) (answer : Option Request)
        → task ≢ Deal → task ≢ Import → task ≢ Same → task ≢ Count → task ≢ Closed
        → Reads (called ∷ command_of task ∷ codes "--from-record" ∷ codes "65537" ∷ [])
        (Ok answer)
        → answer ≡ Some (reading_request task FreeCell (limits_from 65537 0)) }
    ensures accepted { (task : Task) (called : Text) (error : Error)
        → task ≢ Deal → task ≢ Import → task ≢ Same → task ≢ Count → task ≢ Closed
        → ¬ Reads
        (called ∷ command_of task ∷ codes "--from-record=3" ∷ codes "--from-byte=100" ∷ [])
        (Err (Parser error)) }
    ensures no_record_0 { (task : Task) (called : Text) (error : Error)
        → task ≢ Deal → task ≢ Import → task ≢ Same → task ≢ Count → task ≢ Closed
        → Reads (called ∷ command_of task ∷ codes "--from-record=0" ∷ []) (Err (Parser error))
        → kind_of error ≡ ValueValidation }
    ensures no_byte_past_all { (task : Task) (called : Text) (error : Error)
        → task ≢ Deal → task ≢ Import → task ≢ Same → task ≢ Count → task ≢ Closed
        → Reads (called ∷ command_of task ∷ codes "--from-byte=1152921504606846977" ∷ [])
        (Err (Parser error))
        → kind_of error ≡ ValueValidation }
{}

/// `same`, `count` and `closed` take no piece: which record is the first of all, and which boards
/// are equivalent to one of it, only the whole can say.
pub fn some_commands_take_no_piece()
    ensures no_record { (called : Text) (answer : Option Request)
        → ¬ Reads (called ∷ codes "same" ∷ codes "--from-record=3" ∷ []) (Ok answer) }
    ensures no_byte { (called : Text) (answer : Option Request)
        → ¬ Reads (called ∷ codes "same" ∷ codes "--from-byte=100" ∷ []) (Ok answer) }
    ensures kind { (called : Text) (error : Error)
        → Reads (called ∷ codes "same" ∷ codes "--from-record=3" ∷ []) (Err (Parser error))
        → kind_of error ≡ UnknownArgument }
    ensures count { (called : Text) (answer : Option Request)
        → ¬ Reads (called ∷ codes "count" ∷ codes "--from-record=3" ∷ []) (Ok answer) }
    ensures closed { (called : Text) (answer : Option Request)
        → ¬ Reads (called ∷ codes "closed" ∷ codes "--from-record=3" ∷ []) (Ok answer) }
{}

/// `--json` asks `count`, `closed` and `table` for JSON, also where `--header` is there, which
/// alone asks `table` for a header. No other command takes them.
pub fn formats_are_asked_for()
    ensures count { (called : Text) (answer : Option Request)
        → Reads (called ∷ codes "count" ∷ codes "--json" ∷ []) (Ok answer)
        → answer ≡ Some (record (plain_request Count FreeCell)
        { options = record plain_options { format = Json } }) }
    ensures closed { (called : Text) (answer : Option Request)
        → Reads (called ∷ codes "closed" ∷ codes "--json" ∷ []) (Ok answer)
        → answer ≡ Some (record (plain_request Closed FreeCell)
        { options = record plain_options { format = Json } }) }
    ensures table { (called : Text) (answer : Option Request)
        → Reads (called ∷ codes "table" ∷ codes "--json" ∷ []) (Ok answer)
        → answer ≡ Some (record (plain_request Table FreeCell)
        { options = record plain_options { format = Json } }) }
    ensures header { (called : Text) (answer : Option Request)
        → Reads (called ∷ codes "table" ∷ codes "--header" ∷ []) (Ok answer)
        → answer ≡ Some (record (plain_request Table FreeCell)
        { options = record plain_options { format = Header } }) }
    ensures both { (called : Text) (answer : Option Request)
        → Reads (called ∷ codes "table" ∷ codes "--header" ∷ codes "--json" ∷ []) (Ok answer)
        → answer ≡ Some (record (plain_request Table FreeCell)
        { options = record plain_options { format = Json } }) }
    ensures no_group { (called : Text) (answer : Option Request)
        → ¬ Reads (called ∷ codes "group" ∷ codes "--json" ∷ []) (Ok answer) }
    ensures no_header { (called : Text) (answer : Option Request)
        → ¬ Reads (called ∷ codes "count" ∷ codes "--header" ∷ []) (Ok answer) }
{}

/// `--columns` and `--rows` say what lines of cards are to `import`, columns where both are said.
/// No other command takes them.
pub fn lines_are_said_to_be_columns_or_rows()
    ensures columns { (called : Text) (answer : Option Request)
        → Reads (called ∷ codes "import" ∷ codes "--columns" ∷ []) (Ok answer)
        → answer ≡ Some (record (plain_request Import FreeCell)
        { options = record plain_options { lines_are = Columns } }) }
    ensures rows { (called : Text) (answer : Option Request)
        → Reads (called ∷ codes "import" ∷ codes "--rows" ∷ []) (Ok answer)
        → answer ≡ Some (record (plain_request Import FreeCell)
        { options = record plain_options { lines_are = Rows } }) }
    ensures both { (called : Text) (answer : Option Request)
        → Reads (called ∷ codes "import" ∷ codes "--rows" ∷ codes "--columns" ∷ []) (Ok answer)
        → answer ≡ Some (record (plain_request Import FreeCell)
        { options = record plain_options { lines_are = Columns } }) }
    ensures no_show { (called : Text) (answer : Option Request)
        → ¬ Reads (called ∷ codes "show" ∷ codes "--rows" ∷ []) (Ok answer) }
{}

/// `--explain` and `--strict` say what `import` notes, the latter where both are said. No other
/// command takes them.
pub fn notes_are_asked_for()
    ensures explain { (called : Text) (answer : Option Request)
        → Reads (called ∷ codes "import" ∷ codes "--explain" ∷ []) (Ok answer)
        → answer ≡ Some (record (plain_request Import FreeCell)
        { options = record plain_options { noted = Changes } }) }
    ensures strict { (called : Text) (answer : Option Request)
        → Reads (called ∷ codes "import" ∷ codes "--strict" ∷ []) (Ok answer)
        → answer ≡ Some (record (plain_request Import FreeCell)
        { options = record plain_options { noted = Strict } }) }
    ensures both { (called : Text) (answer : Option Request)
        → Reads (called ∷ codes "import" ∷ codes "--strict" ∷ codes "--explain" ∷ []) (Ok answer)
        → answer ≡ Some (record (plain_request Import FreeCell)
        { options = record plain_options { noted = Strict } }) }
    ensures no_show { (called : Text) (answer : Option Request)
        → ¬ Reads (called ∷ codes "show" ∷ codes "--strict" ∷ []) (Ok answer) }
{}

/// The game may be a word of its own.
pub fn variant_may_be_a_word_of_its_own()
    ensures { (task : Task) (called : Text) (answer : Option Request) → task ≢ Deal
        → Reads (called ∷ command_of task ∷ codes "--variant" ∷ codes "eight_off" ∷ []) (Ok answer)
        → answer ≡ Some (plain_request task EightOff) }
{}

/// The words of the examples are accepted: each command that reads records, with and without a
/// game, and `deal` with a number.
pub fn words_of_examples_are_accepted()
    ensures no_variant { (task : Task) (called : Text) (error : Error) → task ≢ Deal
        → ¬ Reads (called ∷ command_of task ∷ []) (Err (Parser error)) }
    ensures freecell { (task : Task) (called : Text) (error : Error) → task ≢ Deal
        → ¬ Reads (called ∷ command_of task ∷ codes "--variant=freecell" ∷ [])
        (Err (Parser error)) }
    ensures bakers_game { (task : Task) (called : Text) (error : Error) → task ≢ Deal
        → ¬ Reads (called ∷ command_of task ∷ codes "--variant=bakers_game" ∷ [])
        (Err (Parser error)) }
    ensures eight_off { (task : Task) (called : Text) (error : Error) → task ≢ Deal
        → ¬ Reads (called ∷ command_of task ∷ codes "--variant=eight_off" ∷ [])
        (Err (Parser error)) }
    ensures deal { (called : Text) → (error : Error)
        → ¬ Reads (called ∷ codes "deal" ∷ codes "1" ∷ []) (Err (Parser error)) }
{}

/// Without a command there is no request.
pub fn a_command_is_wanted()
    ensures no_words { (answer : Option Request) → ¬ Reads [] (Ok answer) }
    ensures name_alone { (called : Text) → (answer : Option Request)
        → ¬ Reads (called ∷ []) (Ok answer) }
{}

/// Help that is asked for is no request, and no mistake either.
pub fn help_is_asked_for()
    ensures no_request { (called : Text) → (answer : Option Request)
        → ¬ Reads (called ∷ codes "--help" ∷ []) (Ok answer) }
    ensures kind { (called : Text) → (error : Error)
        → Reads (called ∷ codes "--help" ∷ []) (Err (Parser error)) → kind_of error ≡ DisplayHelp }
{}

/// `deal N` is for FreeCell unless `--variant` names Baker's Game; the words take each number of 32
/// bits, also those that are no deal's.
pub fn deal_has_a_number()
    ensures first { (called : Text) → (answer : Option Request)
        → Reads (called ∷ codes "deal" ∷ codes "1" ∷ []) (Ok answer)
        → answer ≡ Some (deal_request FreeCell 1) }
    ensures none { (called : Text) → (answer : Option Request)
        → Reads (called ∷ codes "deal" ∷ codes "0" ∷ []) (Ok answer)
        → answer ≡ Some (deal_request FreeCell 0) }
    ensures largest { (called : Text) → (answer : Option Request)
        → Reads (called ∷ codes "deal" ∷ codes "4294967295" ∷ []) (Ok answer)
        → answer ≡ Some (deal_request FreeCell 4294967295) }
    ensures bakers_game { (called : Text) → (answer : Option Request)
        → Reads (called ∷ codes "deal" ∷ codes "617" ∷ codes "--variant=bakers_game" ∷ [])
        (Ok answer)
        → answer ≡ Some (deal_request BakersGame 617) }
{}

/// `deal` without a number is refused, and so is a word that is no number of 32 bits.
pub fn deal_wants_a_number()
    ensures nothing { (called : Text) → (error : Error)
        → Reads (called ∷ codes "deal" ∷ []) (Err (Parser error))
        → kind_of error ≡ MissingRequiredArgument }
    ensures word { (called : Text) → (error : Error)
        → Reads (called ∷ codes "deal" ∷ codes "x" ∷ []) (Err (Parser error))
        → kind_of error ≡ ValueValidation }
    ensures large { (called : Text) → (error : Error)
        → Reads (called ∷ codes "deal" ∷ codes "4294967296" ∷ []) (Err (Parser error))
        → kind_of error ≡ ValueValidation }
    ensures no_request { (called : Text) → (answer : Option Request)
        → ¬ Reads (called ∷ codes "deal" ∷ []) (Ok answer) }
{}

/// Each request that words are read as has a job. So what the program does where there is none is
/// done for no words.
pub fn each_request_has_a_job()
    ensures { (words : List Text) (request : Request) → Reads words (Ok (Some request))
        → IsSome (job_of request) }
{}

/// The run of a command over records prints what its name says; `table` and `count` print it in the
/// format that was asked for, of which `count` and `closed` have no header.
pub fn commands_have_their_runs()
    ensures show { (format : Format) → run_of_task format Show ≡ Some runs.Show }
    ensures canon { (format : Format) → run_of_task format Canon ≡ Some runs.Canon }
    ensures check { (format : Format) → run_of_task format Check ≡ Some runs.Check }
    ensures group { (format : Format) → run_of_task format Group ≡ Some runs.Group }
    ensures share { (format : Format) → run_of_task format Share ≡ Some runs.Share }
    ensures expand { (format : Format) → run_of_task format Expand ≡ Some runs.Expand }
    ensures unique { (format : Format) → run_of_task format Unique ≡ Some runs.Unique }
    ensures table { (format : Format) → run_of_task format Table ≡ Some (runs.Table format) }
    ensures same { (format : Format) → run_of_task format Same ≡ Some runs.Same }
    ensures symmetries { (format : Format)
        → run_of_task format Symmetries ≡ Some runs.Symmetries }
    ensures count { run_of_task Lines Count ≡ Some (runs.Count Words) }
    ensures count_with_header { run_of_task Header Count ≡ Some (runs.Count Words) }
    ensures count_in_json { run_of_task Json Count ≡ Some (runs.Count figures.Json) }
    ensures closed { run_of_task Lines Closed ≡ Some (runs.Closed Words) }
    ensures closed_with_header { run_of_task Header Closed ≡ Some (runs.Closed Words) }
    ensures closed_in_json { run_of_task Json Closed ≡ Some (runs.Closed figures.Json) }
    ensures import { (format : Format) → run_of_task format Import ≡ None }
    ensures deal { (format : Format) → run_of_task format Deal ≡ None }
{}

/// What a request asks for is the run of its command over the records of its game within its
/// limits, the import for its game, or the deal of its number.
pub fn jobs_are_what_requests_ask_for()
    ensures run { (request : Request) (kind : RunKind)
        → run_of_task request.options.format request.task ≡ Some kind
        → job_of request ≡ Some (job.Run kind request.variant request.options.limits) }
    ensures import { (request : Request) → request.task ≡ Import
        → job_of request ≡ Some (job.Import request.variant request.options.lines_are
        request.options.noted) }
    ensures freecell { (number : ℕ)
        → job_of (deal_request FreeCell number) ≡ Some (job.Deal dealt.FreeCell number) }
    ensures bakers_game { (number : ℕ)
        → job_of (deal_request BakersGame number) ≡ Some (job.Deal dealt.BakersGame number) }
{}

/// Eight Off is not dealt.
pub fn eight_off_is_not_dealt()
    ensures no_request { (called : Text) → (answer : Option Request)
        → ¬ Reads (called ∷ codes "deal" ∷ codes "1" ∷ codes "--variant=eight_off" ∷ [])
        (Ok answer) }
    ensures kind { (called : Text) → (error : Error)
        → Reads (called ∷ codes "deal" ∷ codes "1" ∷ codes "--variant=eight_off" ∷ [])
        (Err (Parser error))
        → kind_of error ≡ InvalidValue }
{}

/// A run that ends with 0 or 1 has nothing for standard error; so of the commands that read boards
/// only `import` says there what it did.
pub fn good_runs_say_nothing()
    ensures { (result : Result Summary RunFault) → status_of result < 2 → fault_line result ≡ [] }
{}

/// What was to be said on standard error and did not go there whole shows in its counts: a write or
/// the flush failed. So nothing said is lost in silence.
pub fn nothing_said_is_lost_in_silence<Er: Write>(silent: &Counted<Er>, said: &Counted<Er>)
    ensures { (text : Text)
        → TriesToWrite (stream Er.contents silent.now said.now) text
        → (counts_of said.now).failures ≡ (counts_of silent.now).failures
        → Appends (Er.contents (inner_of silent.now)) (Er.contents (inner_of said.now)) text }
{}

/// A deal that ends well has written the board of its number, whole, and nothing is said. So an
/// output that stays as it was does not fit, nor a text that is not that board's.
pub fn a_deal_that_ends_well_is_written<Wr: Write>(before: &Counted<Wr>, after: &Counted<Wr>)
    ensures written { (game : Game) (number : ℕ) (message : Text)
        → EndsDealing game number
        (record {
          output = stream Wr.contents before.now after.now;
          status = 0;
          message = message;
        })
        → (message ≡ []) × IsDealNumber number
        × Appends (Wr.contents (inner_of before.now)) (Wr.contents (inner_of after.now))
        (text_of (dealt_board game.cells (deal number))) }
    ensures moved { (game : Game) (number : ℕ) (message held : Text)
        → EndsDealing game number
        (record {
          output = stream Wr.contents before.now after.now;
          status = 0;
          message = message;
        })
        → Wr.contents (inner_of before.now) ≡ Some held
        → Wr.contents (inner_of after.now) ≢ Some held }
{}

/// Where the words are those of a command over records, and the program ends with 0 or 1, its
/// output has got what the command prints for all that its input had, and nothing else. So an
/// output that stays as it was fits only where nothing is printed, and that of another input only
/// where both are printed alike.
pub fn a_program_that_ends_well_has_written_what_is_due<Rd: Read, Wr: Write, Er: Write>(
    before: &Streams<Rd, Wr, Er>,
    after: &Streams<Rd, Wr, Er>,
)
    ensures { (task : Task) (kind : RunKind) (called : Text) (status : ℕ) (read held : Text)
        → run_of_task Lines task ≡ Some kind
        → EndsProgram (called ∷ command_of task ∷ [])
        (stream Rd.remaining before.now.input after.now.input)
        (stream Wr.contents before.now.output after.now.output)
        (stream Er.contents before.now.errors after.now.errors) status → status < 2
        → Rd.remaining (inner_of before.now.input) ≡ Some read
        → Wr.contents (inner_of before.now.output) ≡ Some held
        → Wr.contents (inner_of after.now.output) ≡ Some (held
        ++ (output_of_kind kind FreeCell (records_from standard read)
        ++ ending_of_kind kind FreeCell (records_from standard read))) }
{}
