// The three forms of sheet: what differs among them is data.
ghost use Rattle.std.specs.Prelude.{◌≡◌, ◌≢◌, MatchOption};
ghost use Rattle.std.specs.Str.{bytes_eq};
ghost use Rattle.sheets.specs.declared.form.Column.{Column};
ghost use Rattle.sheets.specs.Forms.{name_of, kind_of, columns_of, most_of, place};

use table::fault::Place;

/// A column of a sheet.
#[derive(Clone, Copy, PartialEq, Eq, Debug)]
pub enum Column {
    Processors,
    Overhead,
    Test,
    Task,
    Wcet,
    Period,
    Deadline,
    Estimate,
}

/// What a field under a column is.
#[derive(Clone, Copy)]
pub(crate) enum Kind {
    Name,
    Number,
}

/// A form of sheet.
#[derive(Clone, Copy, PartialEq, Eq, Debug)]
pub enum Form {
    Board,
    Tasks,
    Answer,
}

// The columns' names, as line 1 of a sheet has them.
const PROCESSORS: &[u8] = b"processors";

const OVERHEAD: &[u8] = b"overhead";

const TEST: &[u8] = b"test";

const TASK: &[u8] = b"task";

const WCET: &[u8] = b"wcet";

const PERIOD: &[u8] = b"period";

const DEADLINE: &[u8] = b"deadline";

const ESTIMATE: &[u8] = b"estimate";

/// The most columns that a form may have.
pub(crate) const MOST_COLUMNS: usize = 8;

/// The most value lines that a sheet may have.
pub const MOST_LINES: usize = 32;

impl Column {
    /// The column of this name.
    pub(crate) fn named(name: &[u8]) -> Option<Column>
        ensures { MatchOption result
            ((column : Column) → name.now ≢ name_of column)
            (λ column. name.now ≡ name_of column) }
    {
        match name {
            PROCESSORS => Some(Column::Processors),
            OVERHEAD => Some(Column::Overhead),
            TEST => Some(Column::Test),
            TASK => Some(Column::Task),
            WCET => Some(Column::Wcet),
            PERIOD => Some(Column::Period),
            DEADLINE => Some(Column::Deadline),
            ESTIMATE => Some(Column::Estimate),
            _ => None,
        }
    }

    /// Its name, as line 1 of a sheet has it.
    pub fn name(self) -> &'static [u8]
        ensures { result.now ≡ name_of self }
    {
        match self {
            Column::Processors => PROCESSORS,
            Column::Overhead => OVERHEAD,
            Column::Test => TEST,
            Column::Task => TASK,
            Column::Wcet => WCET,
            Column::Period => PERIOD,
            Column::Deadline => DEADLINE,
            Column::Estimate => ESTIMATE,
        }
    }

    /// Whether it is the other column, which is so exactly when both have one name.
    pub(crate) fn is(self, other: Column) -> bool
        ensures { result ≡ bytes_eq (name_of self) (name_of other) }
    {
        self == other
    }

    /// The kind of the fields under it.
    pub(crate) fn kind(self) -> Kind
        ensures { result ≡ kind_of self }
    {
        match self {
            Column::Test | Column::Task => Kind::Name,
            _ => Kind::Number,
        }
    }
}

impl Form {
    /// Its columns.
    pub(crate) fn columns(self) -> &'static [Column]
        ensures { result.now ≡ columns_of self }
    {
        match self {
            Form::Board => &[Column::Processors, Column::Overhead, Column::Test],
            Form::Tasks => &[Column::Task, Column::Wcet, Column::Period, Column::Deadline],
            Form::Answer => &[Column::Task, Column::Estimate],
        }
    }

    /// The most value lines that it may have; the least is 1.
    pub(crate) fn most(self) -> usize
        ensures { result ≡ most_of self }
    {
        match self {
            Form::Board => 1,
            Form::Tasks | Form::Answer => MOST_LINES,
        }
    }
}

/// A place on the sheet of this number.
pub(crate) fn place(sheet: u32, line: u32, field: u32) -> Place
    ensures { result ≡ place sheet line field }
{
    Place { sheet, line, field }
}
