// What a chart shows.

/// How a lane fares in a column.
#[derive(Clone, Copy)]
pub enum Cell {
    /// It does the work on which others wait.
    Strong,
    /// It works along.
    Plain,
    /// It is on its way.
    Weak,
    /// It isn't there.
    Absent,
    /// Something came or went.
    Active,
    /// Nothing did.
    Idle,
}

/// How much a mark weighs, which gives it its colour.
#[derive(Clone, Copy)]
pub enum Weight {
    /// Something was lost.
    Alarm,
    /// From here on it goes another way.
    Turn,
    /// A step on the way.
    Note,
}

/// What happened in a lane, in a column.
#[derive(Drop)]
pub struct Mark {
    /// The column, from 0.
    pub column: usize,
    pub weight: Weight,
    /// How heavy its kind is beside others: 0 is the heaviest. Kinds stand in this order in the key.
    pub rank: u8,
    /// The letter that stands for it, which the key explains.
    pub letter: &'static str,
    /// What happened, in words.
    pub title: String,
}

/// A lane: a cell for each column, and the marks in it by their columns.
#[derive(Drop)]
pub struct Lane {
    pub name: String,
    pub cells: Vec<Cell>,
    pub marks: Vec<Mark>,
}

/// A place of the scale.
#[derive(Clone, Copy)]
pub struct Tick {
    /// The column at whose beginning it stands, from 0.
    pub column: usize,
    /// How many columns come until the next one, and 0 for the last.
    pub span: usize,
    pub number: u64,
}

/// What a kind of cell means.
#[derive(Clone, Copy)]
pub struct CellKey {
    pub cell: Cell,
    pub name: &'static str,
}

/// What a letter means.
#[derive(Clone, Copy)]
pub struct LetterKey {
    pub weight: Weight,
    pub letter: &'static str,
    pub name: &'static str,
}

/// A chart: lanes over columns of time, and under them a number that rises from column to column.
#[derive(Drop)]
pub struct Chart {
    pub title: String,
    pub ticks: Vec<Tick>,
    pub lanes: Vec<Lane>,
    /// What the number counts.
    pub counted: &'static str,
    /// The number at each column's end. There are as many columns as it has numbers.
    pub steps: Vec<u64>,
    pub cells: Vec<CellKey>,
    /// What the letters mean, the heaviest kind first.
    pub letters: Vec<LetterKey>,
}
