// The places of a line: which words may stand at each, and where the next word stands.
ghost use Rattle.std.specs.Prelude.{◌≡◌, is_some, true};
ghost use Rattle.plan_reader.specs.Grammar.{by_named, column_named, compare_named};
ghost use Rattle.failure_script.specs.Names.{replica_named};
ghost use Rattle.input_faults.specs.Numbers.{is_limit, is_number, is_number_from};
ghost use Rattle.input_faults.specs.Places.{behind, behind_key, behind_operator, behind_statement, is_listed, is_operator, is_statement, limits_of, may_set, may_stage, statement_names, takes, words_at};

use op_spec::{MAX_JOIN_ROWS, MAX_LAST_ROWS, MAX_WINDOW_SECONDS};
use plan_reader::{
    MAX_HOLD, MAX_MARK, MAX_PARTS, MAX_STAGES, MAX_VERSION, MIN_HOLD, is_word, node_named,
    number_of, signed_number_of,
};
use std::fmt;
use tuple_edge::{BIG, NodeId};

// The most items after which an order is due.
const MAX_ITEMS: u64 = 1_000_000;

// What the lines before have said, as far as it decides what may follow.
#[derive(Clone, Copy)]
pub(crate) struct Before {
    pub(crate) mark: bool,
    pub(crate) hold: bool,
    pub(crate) stages: u64,
    pub(crate) joins: bool,
}

// An operator that has a key.
#[derive(Clone, Copy)]
pub(crate) enum Keyed {
    Total,
    Last,
    Window,
    Crossing,
    Join,
}

// Where a word stands in a line of a plan or of a script.
#[derive(Clone, Copy)]
pub(crate) enum Place {
    Flux,
    Version,
    // The first word of a line behind such lines.
    Statement(Before),
    Mark,
    Hold,
    // The number of the next stage, which is this one.
    StageNumber(u64),
    Parts,
    PartCount,
    By,
    Routing,
    Operator,
    Key(Keyed),
    Rows,
    Width,
    Limit,
    JoinWidth,
    JoinRows,
    TestColumn,
    Comparison,
    TestNumber,
    Event,
    Replica,
    // A replica for which no order stands before.
    OtherReplica,
    At,
    Items,
    Back,
    Return,
    // Behind the last word.
    End,
}

// Whether a word is a number word between these two.
fn is_number_from(low: u64, high: u64, word: &[u8]) -> bool
    ensures { result ≡ is_number_from low high word.now }
{
    match number_of(word) {
        None => false,
        Some(n) => low <= n && n <= high,
    }
}

// Whether a word is a number word of this value.
fn is_number(number: u64, word: &[u8]) -> bool
    ensures { result ≡ is_number number word.now }
{
    match number_of(word) {
        None => false,
        Some(n) => n == number,
    }
}

// Whether a word is a number word within the bounds of a field.
fn is_limit(word: &[u8]) -> bool
    ensures { result ≡ is_limit word.now }
{
    match signed_number_of(word) {
        None => false,
        Some(z) => z.unsigned_abs() <= BIG as u128,
    }
}

fn is_column(word: &[u8]) -> bool
    ensures { result ≡ is_some (column_named word.now) }
{
    is_word(word, "time")
        || is_word(word, "account")
        || is_word(word, "symbol")
        || is_word(word, "qty")
        || is_word(word, "value")
}

fn is_key(word: &[u8]) -> bool
    ensures { result ≡ is_some (by_named word.now) }
{
    is_word(word, "account") || is_word(word, "symbol") || is_word(word, "both")
}

fn is_comparison(word: &[u8]) -> bool
    ensures { result ≡ is_some (compare_named word.now) }
{
    is_word(word, "<")
        || is_word(word, "<=")
        || is_word(word, "=")
        || is_word(word, "!=")
        || is_word(word, ">=")
        || is_word(word, ">")
}

fn is_operator(word: &[u8]) -> bool
    ensures { result ≡ is_operator word.now }
{
    is_word(word, "keep")
        || is_word(word, "total")
        || is_word(word, "last")
        || is_word(word, "window")
        || is_word(word, "crossing")
        || is_word(word, "join")
}

// Whether a word has the form of a replica's name.
#[tactic(auto, unfolding(failure_script::specs::Names::replica_named))]
fn is_replica(word: &[u8]) -> bool
    ensures { result ≡ is_some (replica_named word.now) }
{
    match node_named(word) {
        Some(NodeId::Replica { .. }) => true,
        Some(NodeId::Ingress | NodeId::Control { .. } | NodeId::Egress) | None => false,
    }
}

// The place behind the name of an operator.
fn behind_operator(word: &[u8]) -> Place
    ensures { result ≡ behind_operator word.now }
{
    if is_word(word, "keep") {
        Place::TestColumn
    } else if is_word(word, "total") {
        Place::Key(Keyed::Total)
    } else if is_word(word, "last") {
        Place::Key(Keyed::Last)
    } else if is_word(word, "window") {
        Place::Key(Keyed::Window)
    } else if is_word(word, "crossing") {
        Place::Key(Keyed::Crossing)
    } else {
        Place::Key(Keyed::Join)
    }
}

impl Keyed {
    // The place behind the key.
    fn behind_key(self) -> Place
        ensures { result ≡ behind_key self }
    {
        match self {
            Keyed::Total => Place::End,
            Keyed::Last => Place::Rows,
            Keyed::Window => Place::Width,
            Keyed::Crossing => Place::Limit,
            Keyed::Join => Place::JoinWidth,
        }
    }
}

impl Before {
    // Whether a setting may stand that stood before or not.
    fn may_set(self, stood: bool) -> bool
        ensures { result ≡ may_set stood self }
    {
        !stood && self.stages == 0
    }

    // Whether a further stage may stand.
    fn may_stage(self) -> bool
        ensures { result ≡ may_stage self }
    {
        self.stages < MAX_STAGES as u64 && !self.joins
    }

    // Whether a word may begin the next line.
    fn takes(self, word: &[u8]) -> bool
        ensures { result ≡ is_statement self word.now }
    {
        if is_word(word, "mark") {
            self.may_set(self.mark)
        } else if is_word(word, "hold") {
            self.may_set(self.hold)
        } else {
            is_word(word, "stage") && self.may_stage()
        }
    }

    // The place behind the first word of a line that may follow.
    fn behind(self, word: &[u8]) -> Place
        requires { is_statement self word.now ≡ true }
        ensures { result ≡ behind_statement self word.now }
    {
        if is_word(word, "mark") {
            Place::Mark
        } else if is_word(word, "hold") {
            Place::Hold
        } else {
            Place::StageNumber(self.stages + 1)
        }
    }

    // The words that may begin the next line.
    fn names(self) -> &'static str
        ensures { result.now ≡ statement_names self }
    {
        if !self.may_stage() {
            if self.joins {
                return "nothing more, since a join is the last stage";
            }
            return "nothing more, since there are 6 stages";
        }
        if self.stages != 0 {
            return "stage";
        }
        match (self.mark, self.hold) {
            (true, true) => "stage",
            (true, false) => "hold, stage",
            (false, true) => "mark, stage",
            (false, false) => "mark, hold, stage",
        }
    }
}

impl Place {
    // The limits, where a number stands here.
    fn limits(self) -> Option<(u64, u64)>
        ensures { result ≡ limits_of self }
    {
        match self {
            Place::Version => Some((1, u64::from(MAX_VERSION))),
            Place::Mark => Some((1, MAX_MARK)),
            Place::Hold => Some((MIN_HOLD, MAX_HOLD)),
            Place::PartCount => Some((1, u64::from(MAX_PARTS))),
            Place::Rows => Some((1, u64::from(MAX_LAST_ROWS))),
            Place::Width | Place::JoinWidth => Some((1, MAX_WINDOW_SECONDS as u64)),
            Place::Limit => Some((0, BIG as u64)),
            Place::JoinRows => Some((1, u64::from(MAX_JOIN_ROWS))),
            Place::Items => Some((1, MAX_ITEMS)),
            _ => None,
        }
    }

    // Whether a word may stand here, where there are no limits.
    fn lists(self, word: &[u8]) -> bool
        ensures { result ≡ is_listed self word.now }
    {
        match self {
            Place::Flux => is_word(word, "flux"),
            Place::Statement(before) => before.takes(word),
            Place::StageNumber(number) => is_number(number, word),
            Place::Parts => is_word(word, "parts"),
            Place::By => is_word(word, "by"),
            Place::Routing | Place::TestColumn => is_column(word),
            Place::Operator => is_operator(word),
            Place::Key(_) => is_key(word),
            Place::Comparison => is_comparison(word),
            Place::TestNumber => is_limit(word),
            Place::Event => is_word(word, "stop") || is_word(word, "kill"),
            Place::Replica => is_replica(word),
            Place::At => is_word(word, "at"),
            Place::Back => is_word(word, "back"),
            Place::Return => is_word(word, "never") || is_number_from(1, MAX_ITEMS, word),
            _ => false,
        }
    }

    // Whether a word may stand here.
    pub(crate) fn takes(self, word: &[u8]) -> bool
        ensures { result ≡ takes self word.now }
    {
        match self.limits() {
            None => self.lists(word),
            Some((low, high)) => is_number_from(low, high, word),
        }
    }

    // Where the next word stands, behind a word that may stand here.
    pub(crate) fn behind(self, word: &[u8]) -> Place
        requires { takes self word.now ≡ true }
        ensures { result ≡ behind self word.now }
    {
        match self {
            Place::Flux => Place::Version,
            Place::Statement(before) => before.behind(word),
            Place::StageNumber(_) => Place::Parts,
            Place::Parts => Place::PartCount,
            Place::PartCount => Place::By,
            Place::By => Place::Routing,
            Place::Routing => Place::Operator,
            Place::Operator => behind_operator(word),
            Place::Key(operator) => operator.behind_key(),
            Place::JoinWidth => Place::JoinRows,
            Place::JoinRows => Place::TestColumn,
            Place::TestColumn => Place::Comparison,
            Place::Comparison => Place::TestNumber,
            Place::Event => Place::Replica,
            Place::Replica => Place::At,
            Place::At => Place::Items,
            Place::Items => Place::Back,
            Place::Back => Place::Return,
            _ => Place::End,
        }
    }

    // The words that may stand here, where there are no limits.
    fn names(self) -> &'static str
        ensures { result.now ≡ words_at self }
    {
        match self {
            Place::Flux => "flux",
            Place::Statement(before) => before.names(),
            Place::Parts => "parts",
            Place::By => "by",
            Place::Routing | Place::TestColumn => "time, account, symbol, qty, value",
            Place::Operator => "keep, total, last, window, crossing, join",
            Place::Key(_) => "account, symbol, both",
            Place::Comparison => "<, <=, =, !=, >=, >",
            Place::TestNumber => "a number from -9000000000000000000 to 9000000000000000000",
            Place::Event => "stop, kill",
            Place::Replica => "a replica of the plan, as 1.0.a",
            Place::OtherReplica => "a replica that no line before names",
            Place::At => "at",
            Place::Back => "back",
            Place::Return => "never, or a number from 1 to 1000000",
            _ => "nothing more",
        }
    }
}

// Writes what may stand there.
impl fmt::Display for Place {
    ghost use Rattle.std.specs.Prelude.{Some};
    ghost use Rattle.input_faults.specs.Places.{place_text};

    ghost output = { λ at. Some (place_text at) };

    fn fmt<W: fmt::Write>(&self, f: &mut fmt::Formatter<W>) -> fmt::Result {
        if let Place::StageNumber(number) = *self {
            return write!(f, "{number}, the next stage's number");
        }
        match self.limits() {
            None => f.write_str(self.names()),
            Some((low, high)) => write!(f, "a number from {low} to {high}"),
        }
    }
}
