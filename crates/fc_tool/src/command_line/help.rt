//! What the help says.

use crate::request::Task;

pub(super) const ABOUT: &str =
    "fcanon reads boards of FreeCell, Baker's Game and Eight Off, and deals the first
two.";

/// Options come after the command, which whoever puts one before it reads here.
pub(super) const USAGE: &str = "fcanon <COMMAND> [OPTIONS]
       fcanon show --variant eight_off < my.board";

pub(super) const NOTES: &str =
    "deal reads nothing, the other commands read standard input, and all of them
write standard output.

Examples: fcanon show < my.board
          fcanon deal 1 | fcanon canon

Status: 0 if all was accepted, 1 if a record was refused or closed finds that a
collection is not, 2 if the command line was refused or the deal number is out
of range, 3 if the run gave up.";

/// What the help of a command says: how it is used, unless the parser says that by its arguments,
/// what it does, and notes.
#[derive(Clone, Copy)]
pub(super) struct Help {
    pub(super) usage: Option<&'static str>,
    pub(super) about: &'static str,
    pub(super) notes: &'static str,
}

impl Help {
    /// That of the command of a task.
    pub(super) fn of(task: Task) -> Help {
        match task {
            Task::Show => SHOW,
            Task::Canon => CANON,
            Task::Check => CHECK,
            Task::Group => GROUP,
            Task::Share => SHARE,
            Task::Expand => EXPAND,
            Task::Unique => UNIQUE,
            Task::Table => TABLE,
            Task::Same => SAME,
            Task::Symmetries => SYMMETRIES,
            Task::Count => COUNT,
            Task::Closed => CLOSED,
            Task::Import => IMPORT,
            Task::Deal => DEAL,
        }
    }
}

const SHOW: Help = Help {
    usage: Some("fcanon show [OPTIONS] < FILE"),
    about: "Print each record in one spelling, or name its first fault",
    notes: "freecell     4 cells, a card goes on one of the other colour
bakers_game  4 cells, a card goes on one of its own suit
eight_off    8 cells, as bakers_game, and only kings go to an empty column

Boards are read from standard input to its end; at a terminal Ctrl-D at the
start of a line ends it. A board may be spelled in many ways of Freecell
Solver's board text, and is printed in one. A blank line is an empty column, and
an empty cell before a taken one is written -. Lists of moves and further boards
may follow: see fcanon canon --help.

For a record that is refused one line is printed, as
# refused 1 at 36: repeated card
which gives its name or its number, the place of the first fault, in bytes from
0, and what it is.

Example: fcanon show < my.board",
};

const CANON: Help = Help {
    usage: Some("fcanon canon [OPTIONS] < FILE"),
    about: "Print the canonical board of each record",
    notes: "A record is a board, spelled as for show, and after it any number of lists of
moves, each in a line of its own, as
> 3a 8h
A move is two characters: where the card is taken from and where it is put. The
columns are 1 to 8, the cells a b c d (in Eight Off also e f g k), home is h.
A line that begins with >> holds moves of several cards, as
>> 23 41v2 1h
From column to column go as many cards as the ranks say, and to an empty column
as many as can go at once, or the number after v (1 to 9, a to d for 10 to 13).

Records follow one another, each after a line as
@ eight_off seven
which gives its game and its name. Without a name the record is named by its
number. A first record without such a line is of the game of --variant.

Printed for each record are such a line, where it has one, and its canonical
board, the same one for all boards that differ only in the order of columns, the
order of cells and an exchange of suits that keeps the rule of building; then
# renaming DCSH columns 25876314 cells abcd
which says what clubs, diamonds, hearts and spades become, and which column and
which cell comes to each place; then the lists, as they go on that board. For a
record that is refused one line is printed, as
# refused seven at 36: repeated card

Example: fcanon deal 1 | fcanon canon",
};

const CHECK: Help = Help {
    usage: Some("fcanon check [OPTIONS] < FILE"),
    about: "Play each list of moves on the board of its record",
    notes: "Records with their lists of moves are read as by canon. Each list is played from
its record's board, and one line is printed for it, with the record's name and
the list's number:
seven 1 wins 52              after its 52 moves all cards are home
seven 2 legal 3              after its 3 moves some are not
seven 3 illegal 0 not next   the move at 0, the first, is refused, and why
A record without a list gets one line, as
eight no list

An illegal list leaves the status as it is.

Example: (fcanon deal 1; echo '> 3a') | fcanon check",
};

const GROUP: Help = Help {
    usage: Some("fcanon group [OPTIONS] < FILE"),
    about: "Print each group of equivalent boards, with its records' names",
    notes: "Records are read as by canon. Two of them are in one group if they are of one
game and have one canonical board. Lists of moves make no difference here, and a
record that is like no other is a group by itself.

Printed for each group are a line with its game and the name of its first
record, the number of its records with their names, and its canonical board, as
@ freecell one
# members 2: one two
Foundations: H-K C-K D-K S-Q
and so on. The groups are in the order of their first records, and the names of
a group in the order of its records. So what is printed is a collection again,
with each board in it once.

For a record that is refused one line is printed, as by canon. All these lines
come before the groups.

Example: fcanon group < my.collection",
};

const SHARE: Help = Help {
    usage: Some("fcanon share [OPTIONS] < FILE"),
    about: "Print each board with a solution of its group, if there is one",
    notes: "Records are read as by canon, and grouped as by group. A list of moves that wins
from one board of a group can be carried over to all of them. So of each group
the first list that wins from its own record's board is taken, and every board
gets it.

Printed for each group are its records in their order: for each a line with its
game and its name, its own board as by show, and then the list, as it goes on
that board. The record that the list comes from keeps it as it was read. All
other lists are left out, and the boards of a group of which no list wins are
printed without one.

For a record that is refused one line is printed, as by canon. All these lines
come before the groups.

Example: fcanon share < my.collection | fcanon check",
};

const EXPAND: Help = Help {
    usage: Some("fcanon expand [OPTIONS] < FILE"),
    about: "Print each record with its lists as moves of one card",
    notes: "Records are read as by canon and printed as by show, but each list that its
record's board allows is printed by moves of one card: a list with > as it is,
and of a list with >> each move of several cards by the moves over empty cells
and columns that it is short for. So
>> 23 1h
may become
> 2a 2b 23 b3 a3 1h
Where a list is not allowed, or would have more than 4096 moves, one of these
lines takes its place, with the number of the list:
# list 1 illegal 0 no run
# list 2 too long

Example: fcanon expand < my.collection | fcanon check",
};

const UNIQUE: Help = Help {
    usage: Some("fcanon unique [OPTIONS] < FILE"),
    about: "Print the first record of each group of equivalent boards",
    notes: "Records are read as by canon, and grouped as by group. The first record of each
group is printed as by show, with its lists, as soon as it is read; the others
of the group are left out. So what is printed is a collection with each board in
it once, in the spelling and the order in which it came.

For a record that is refused one line is printed, as by canon.

Example: fcanon unique < my.collection",
};

const TABLE: Help = Help {
    usage: Some("fcanon table [OPTIONS] < FILE"),
    about: "Print a line of columns for each record, for other programs",
    notes: "Records are read as by canon. Printed for each is one line of eight columns,
with a tab between two:
name      its name, or its number where it has none
variant   freecell, bakers_game or eight_off
board     its canonical board, with two blanks in place of each line's end
renaming, columns, cells   as in the line # renaming .. of canon
lists     how many lists of moves it has
win       the number of the first list that wins from its board, or - for none
With --header a line with these names comes first. With --json, with or without
--header, each line is an object of JSON with these members, as
{\"name\":\"seven\",\"variant\":\"freecell\",..,\"lists\":1,\"win\":null}

Two records are in one group, as by group, if they have one variant and one
board here. A program that sorts, joins or counts lines by their columns can
group a collection of any size so.

For a record that is refused one line is printed, as by canon, which has no tab,
or with --json an object, as
{\"refused\":\"seven\",\"place\":36,\"reason\":\"repeated card\"}

Example: fcanon table < my.collection | cut -s -f 3 | sort | uniq -c",
};

const SAME: Help = Help {
    usage: Some("fcanon same [OPTIONS] < FILE"),
    about: "Print the passage from the first board to that of each later one",
    notes: "Records are read as by canon. Each is compared with the first one that is not
refused, and for that one nothing is printed. For each later record one line is
printed, with its name. If it is of the same game and the boards are equivalent,
that is
looks-new renaming DCSH columns 25876314 cells abcd
which says, in the words of canon, what clubs, diamonds, hearts and spades of
the first board become, and which column and which cell of it comes to each
place of this one. Else it is
other apart

For a record that is refused one line is printed, as by canon.

Example: cat my.board my.collection | fcanon same",
};

const SYMMETRIES: Help = Help {
    usage: Some("fcanon symmetries [OPTIONS] < FILE"),
    about: "Print the symmetries of the board of each record",
    notes: "Records are read as by canon. A symmetry of a board is an exchange of suits that
keeps the rule of building and with which the board becomes itself, but for the
order of columns and cells. For each one line is printed with the record's name
and the suits that clubs, diamonds, hearts and spades become, as
seven renaming CDHS
seven renaming DCHS
The first changes nothing, and every board has it.

For a record that is refused one line is printed, as by canon.

Example: fcanon symmetries < my.collection",
};

const COUNT: Help = Help {
    usage: Some("fcanon count [OPTIONS] < FILE"),
    about: "Print figures of the whole collection, in one line",
    notes: "Records are read as by canon, and grouped as by group. At the end one line is
printed:
records 10 refused 1 groups 8 doubles 1 lists 10 wins 7 solved 7
records   how many there are
refused   how many of them are refused
groups    how many groups the others make
doubles   how many of them are in a group with an earlier one
lists     how many lists of moves they have
wins      how many of these win from the board of their record, as by check
solved    how many groups have one that wins
With --json the line is an object of JSON, as {\"records\":10,\"refused\":1,..}.

For a record that is refused one line is printed, as by canon, or with --json an
object, as by table. All these lines come before the figures.

Example: fcanon count < my.collection",
};

const CLOSED: Help = Help {
    usage: Some("fcanon closed [OPTIONS] < FILE"),
    about: "Say whether play never leaves a collection, nor wins",
    notes: "Records are read as by canon, and grouped as by group; their lists of moves are
not looked at. A collection is closed if none of its boards is won and each move
of one card leads from one of them to a board that is equivalent to one of them.
Then no list of moves, of one card or of several, wins from any of them. At the
end one line is printed:
closed 3 records 3 classes   it is closed, and the status is 0
open seven 1h                the first record that has a move which leads out,
                             and its first such move, in the order of piles
won seven                    the first record whose board is won
refused 1 records            neither, but not all records were accepted
Records of several games are judged each in its own. With --json the line is an
object of JSON, as {\"finding\":\"open\",\"name\":\"seven\",\"move\":\"1h\"}.

For a record that is refused one line is printed, as by canon, or with --json an
object, as by table. All these lines come before that one.

Example: fcanon closed < my.collection",
};

const IMPORT: Help = Help {
    usage: Some("fcanon import [OPTIONS] < FILE"),
    about: "Make a collection of boards as other programs print them",
    notes: "Read are boards as sites, books and programs print them, one or many: suits as
signs or letters, before or after the rank, 10 or T, in columns, in rows or in
one line, with titles, with moves after them, and solutions of Freecell Solver.
Each is printed as a record, named by the header before it, by its title or by
its number.

Nothing is said of a board that its lines spell out. What is turned, left out or
not taken is said on standard error, a line each: its place as NAME:LINE:COLUMN
and what to write instead. The last line counts all. The status is 1 if a board
or a list is not taken, and with --strict if anything is noted.

Example: fcanon import < found.txt > my.collection",
};

const DEAL: Help = Help {
    usage: None,
    about: "Print the board of one of Microsoft's numbered deals",
    notes: "A deal has the same cards on the same eight columns in both games, and its cells
and foundations are empty. Eight Off is dealt in another way, and not by number.

Example: fcanon deal 617 | fcanon show",
};

/// What the help of `--variant` says in a command that reads boards.
pub(super) const GAME_READ: &str = "The game of a board without a header
[default: freecell]
[possible values: freecell, bakers_game, eight_off]";

/// What it says in `deal`.
pub(super) const GAME_DEALT: &str = "The game that is dealt [default: freecell]
[possible values: freecell, bakers_game]";

/// What the other options do.
pub(super) const ANY_SIZE: &str = "Read more than 65536 records or 16 MiB, as far as
there is memory";

pub(super) const FROM_RECORD: &str = "The number of the first record, in a piece of a
larger collection, from 1 to 1152921504606846976";

pub(super) const FROM_BYTE: &str = "The place of the first byte, in a piece of a
larger collection, from 0 to 1152921504606846976";

pub(super) const COLUMNS: &str = "Take lines of cards for columns, where they may be
rows as well";

pub(super) const ROWS: &str = "Take lines of cards for rows, where they may be
columns as well";

pub(super) const EXPLAIN: &str = "Note also each board and list that is written in
another spelling, as TH for 10h";

pub(super) const STRICT: &str = "Note the same as with --explain, and end with status
1 if anything is noted";

pub(super) const JSON: &str = "Print an object of JSON in place of a line";

pub(super) const HEADER: &str = "Print a line with the names of the columns first";
