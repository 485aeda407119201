// Why a call is refused: the question that fails.
ghost use Rattle.std.specs.Prelude.{◌≡◌, Some};
ghost use Rattle.table.specs.Faults.{number_of, layer_of, place_of, words_of};

use std::error::Error;
use std::fmt;

// Numbers and no `Option`: by the rules a fault is printed so.
/// Where on a sheet a fault lies, all counted from 1; 0 means no sheet, no line, or the whole line.
#[derive(Clone, Copy, PartialEq, Eq, Debug)]
pub struct Place {
    pub sheet: u32,
    pub line: u32,
    pub field: u32,
}

impl Place {
    /// Where there is no sheet.
    pub const NOWHERE: Place = Place {
        sheet: 0,
        line: 0,
        field: 0,
    };
}

/// Which layer asked the question.
#[derive(Clone, Copy, PartialEq, Eq, Debug)]
pub enum Layer {
    Sheet,
    Pair,
    Table,
    Board,
    Study,
}

/// Why a call is refused.
#[derive(Clone, Copy, PartialEq, Eq, Debug)]
pub enum Fault {
    /// The text is empty, too long, or has no line feed at its end.
    BadText(Place),
    /// Line 1 has not just the sheet's names, each once.
    BadNames(Place),
    /// The line has not as many fields as line 1.
    BadFieldCount(Place),
    /// The field has not the form of its kind.
    BadField(Place),
    /// The sheet has too few or too many value lines.
    BadLineCount(Place),
    /// The name stands on an earlier line of the tasks sheet too.
    RepeatedTask(Place),
    /// The answered name is not on the tasks sheet, or stands on an earlier line of the answer
    /// sheet too.
    BadAnswer(Place),
    /// The task is not on the answer sheet.
    NoAnswer(Place),
    /// The table has no place for one more row.
    Full,
    /// The table has no row of that number.
    NoRow,
    /// The three numbers make no row.
    BadRow(Place),
    /// The test, its processors or its overhead are out of range.
    BadTest(Place),
    /// The table has no row at all.
    Empty,
    /// A lent list has not 1 to 4,096 whole slots and nothing over.
    BadSlots,
    /// No search is running.
    NotRunning,
    /// The lists are not those that the search left, by their lengths or by the last pending range.
    OtherLists,
    /// The order does not name each row once, or there is not one estimate for each row from its
    /// C to its D.
    BadOrder(Place),
    /// The list for the bounds has not exactly one place for each row.
    BadLength,
}

impl Fault {
    /// The number of the question that fails: the rules number them, and print the number.
    pub fn number(self) -> u32
        ensures { result ≡ number_of self }
    {
        match self {
            Fault::BadText(_) => 1,
            Fault::BadNames(_) => 2,
            Fault::BadFieldCount(_) => 3,
            Fault::BadField(_) => 4,
            Fault::BadLineCount(_) => 5,
            Fault::RepeatedTask(_) => 6,
            Fault::BadAnswer(_) => 7,
            Fault::NoAnswer(_) => 8,
            Fault::Full => 9,
            Fault::NoRow => 10,
            Fault::BadRow(_) => 11,
            Fault::BadTest(_) => 12,
            Fault::Empty => 13,
            Fault::BadSlots => 14,
            Fault::NotRunning => 15,
            Fault::OtherLists => 16,
            Fault::BadOrder(_) => 17,
            Fault::BadLength => 18,
        }
    }

    /// The layer that asked it.
    pub fn layer(self) -> Layer
        ensures { result ≡ layer_of self }
    {
        match self {
            Fault::BadText(_)
            | Fault::BadNames(_)
            | Fault::BadFieldCount(_)
            | Fault::BadField(_)
            | Fault::BadLineCount(_) => Layer::Sheet,
            Fault::RepeatedTask(_) | Fault::BadAnswer(_) | Fault::NoAnswer(_) => Layer::Pair,
            Fault::Full | Fault::NoRow | Fault::BadRow(_) => Layer::Table,
            Fault::BadTest(_) => Layer::Board,
            Fault::Empty
            | Fault::BadSlots
            | Fault::NotRunning
            | Fault::OtherLists
            | Fault::BadOrder(_)
            | Fault::BadLength => Layer::Study,
        }
    }

    /// The place on a sheet, if the fault has one.
    pub fn place(self) -> Place
        ensures { result ≡ place_of self }
    {
        match self {
            Fault::BadText(place)
            | Fault::BadNames(place)
            | Fault::BadFieldCount(place)
            | Fault::BadField(place)
            | Fault::BadLineCount(place)
            | Fault::RepeatedTask(place)
            | Fault::BadAnswer(place)
            | Fault::NoAnswer(place)
            | Fault::BadRow(place)
            | Fault::BadTest(place)
            | Fault::BadOrder(place) => place,
            Fault::Full
            | Fault::NoRow
            | Fault::Empty
            | Fault::BadSlots
            | Fault::NotRunning
            | Fault::OtherLists
            | Fault::BadLength => Place::NOWHERE,
        }
    }
}

/// A fault is said in words. Its number, layer and place are for the program to print.
impl fmt::Display for Fault {
    ghost output = { λ fault. Some (words_of fault) };

    fn fmt<W: fmt::Write>(&self, f: &mut fmt::Formatter<W>) -> fmt::Result {
        f.write_str(match self {
            Fault::BadText(_) => "the text is empty, too long, or has no line feed at its end",
            Fault::BadNames(_) => "line 1 has not just the names of the sheet, each once",
            Fault::BadFieldCount(_) => "the line has not as many fields as line 1",
            Fault::BadField(_) => "the field has not the form of its kind",
            Fault::BadLineCount(_) => "the sheet has too few or too many value lines",
            Fault::RepeatedTask(_) => "the name stands on an earlier line too",
            Fault::BadAnswer(_) => "the name is no task, or stands on an earlier line too",
            Fault::NoAnswer(_) => "the task has no answer",
            Fault::Full => "the table is full",
            Fault::NoRow => "there is no such row",
            Fault::BadRow(_) => "the numbers make no row",
            Fault::BadTest(_) => "there is no such test",
            Fault::Empty => "the table is empty",
            Fault::BadSlots => "a list has not 1 to 4096 whole slots",
            Fault::NotRunning => "no search is running",
            Fault::OtherLists => "the lists are not as the search left them",
            Fault::BadOrder(_) => "the order or its estimates are not right",
            Fault::BadLength => "the list has another length than the table",
        })
    }
}

impl Error for Fault {}
