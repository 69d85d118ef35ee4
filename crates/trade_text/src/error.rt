// Why a text is no list of trades or of cash movements, and how that is told.
use std::alloc::{AllocError, AllocFailed};
use std::error::Error;
use std::fmt;
use tuple_edge::OutOfMemory;

/// A field of a trade.
#[derive(Clone, Copy, Debug, PartialEq, Eq)]
pub enum Field {
    Time,
    Account,
    Symbol,
    Side,
    Qty,
    Price,
}

/// A field of a cash movement.
#[derive(Clone, Copy, Debug, PartialEq, Eq)]
pub enum CashField {
    Time,
    Account,
    Amount,
}

/// Why a text is no list of rows with such fields: the first thing in it that is refused. Records are
/// counted from 1, and the first one is the header.
#[derive(Clone, Copy, Debug, PartialEq, Eq)]
pub enum ReadError<F> {
    /// There is no header that has the name of each field exactly once.
    Header,
    /// A record has another number of fields than the header.
    Row { rec: u64 },
    /// A field isn't of its form.
    Field { rec: u64, field: F },
    /// A field is of its form, and its value lies outside its limits.
    Range { rec: u64, field: F },
    /// There are more rows than there is room for: 100,000 trades, and for movements what is left of
    /// that.
    TooMany,
    /// The text has more than 16,777,216 bytes.
    TooLong { bytes: u64 },
    /// No memory was to be had.
    OutOfMemory,
}

/// Why a text is no list of trades.
pub type TradeError = ReadError<Field>;

/// Why a text is no list of cash movements.
pub type CashError = ReadError<CashField>;

/// Why no trade is read from a reader.
#[derive(Clone, Copy, Debug, PartialEq, Eq)]
pub enum StreamError {
    /// What came is refused.
    Refused(TradeError),
    /// A record, with the empty lines before it, has more than 16,777,216 bytes: as many as a file may have.
    TooLong { rec: u64 },
    /// The reader underneath failed.
    Failed,
    /// No memory was to be had, or there were more records than numbers.
    OutOfMemory,
}

/// The fields of a kind of file, and what they are called.
pub trait FileField: Copy {
    ghost use Rattle.std.specs.Prelude.{◌≡◌};
    ghost use Rattle.trade_text.specs.Kinds.{Kind};

    ghost kind: { Kind Self };

    /// What a field is called, in a header and where it is refused.
    fn name(&self) -> &'static str
        ensures { result.now ≡ kind.name self.now };

    /// What else a header may call it; where there is nothing, its name again.
    fn synonym(&self) -> &'static str
        ensures { result.now ≡ kind.synonym self.now };

    /// What the rows of such a file are called.
    fn rows() -> &'static str
        ensures { result.now ≡ kind.rows };
}

impl FileField for Field {
    ghost use Rattle.trade_text.specs.Kinds.{trades_kind};

    ghost kind = { trades_kind };

    fn name(&self) -> &'static str {
        match self {
            Field::Time => "time",
            Field::Account => "account",
            Field::Symbol => "symbol",
            Field::Side => "side",
            Field::Qty => "qty",
            Field::Price => "price",
        }
    }

    fn synonym(&self) -> &'static str {
        match self {
            Field::Time => "time",
            Field::Account => "account",
            Field::Symbol => "symbol",
            Field::Side => "side",
            Field::Qty => "quantity",
            Field::Price => "price",
        }
    }

    fn rows() -> &'static str {
        "trades"
    }
}

impl FileField for CashField {
    ghost use Rattle.trade_text.specs.Kinds.{cash_kind};

    ghost kind = { cash_kind };

    fn name(&self) -> &'static str {
        match self {
            CashField::Time => "time",
            CashField::Account => "account",
            CashField::Amount => "amount",
        }
    }

    fn synonym(&self) -> &'static str {
        self.name()
    }

    fn rows() -> &'static str {
        "movements"
    }
}

/// Writes what was refused and where, as `record 2: range price`.
impl<F: FileField> fmt::Display for ReadError<F> {
    ghost use Rattle.std.specs.Prelude.{Some};
    ghost use Rattle.trade_text.specs.Messages.{fault_of};

    ghost output = { λ e. Some (fault_of F.kind e) };

    fn fmt<W: fmt::Write>(&self, f: &mut fmt::Formatter<W>) -> fmt::Result {
        match self {
            ReadError::Header => f.write_str("header"),
            ReadError::Row { rec } => write!(f, "record {rec}: fields"),
            ReadError::Field { rec, field } => {
                let name = field.name();
                write!(f, "record {rec}: field {name}")
            }
            ReadError::Range { rec, field } => {
                let name = field.name();
                write!(f, "record {rec}: range {name}")
            }
            ReadError::TooMany => {
                let rows = F::rows();
                write!(f, "too many {rows}")
            }
            ReadError::TooLong { .. } => f.write_str("too long"),
            ReadError::OutOfMemory => f.write_str("out of memory"),
        }
    }
}

impl<F: FileField + fmt::Debug> Error for ReadError<F> {}

impl<F> From<OutOfMemory> for ReadError<F> {
    ghost use Rattle.std.specs.Prelude.{◌≡◌};
    ghost use Rattle.trade_text.specs.declared.error.ReadError.TheVariants as error;

    ghost from_gives = { λ _ e. e ≡ error.OutOfMemory };

    fn from(_error: OutOfMemory) -> ReadError<F> {
        ReadError::OutOfMemory
    }
}

impl<F> From<AllocError> for ReadError<F> {
    ghost use Rattle.std.specs.Prelude.{◌≡◌};
    ghost use Rattle.trade_text.specs.declared.error.ReadError.TheVariants as error;

    ghost from_gives = { λ _ e. e ≡ error.OutOfMemory };

    fn from(_error: AllocError) -> ReadError<F> {
        ReadError::OutOfMemory
    }
}

impl<T: Drop, F> From<AllocFailed<T>> for ReadError<F> {
    ghost use Rattle.std.specs.Prelude.{◌≡◌};
    ghost use Rattle.trade_text.specs.declared.error.ReadError.TheVariants as error;

    ghost from_gives = { λ _ e. e ≡ error.OutOfMemory };

    fn from(_error: AllocFailed<T>) -> ReadError<F> {
        ReadError::OutOfMemory
    }
}

/// Writes what was refused and where, as a file's refusal is written: `record 2: too long`.
impl fmt::Display for StreamError {
    ghost use Rattle.std.specs.Prelude.{Some};
    ghost use Rattle.trade_text.specs.Messages.{stream_fault_of};

    ghost output = { λ e. Some (stream_fault_of e) };

    fn fmt<W: fmt::Write>(&self, f: &mut fmt::Formatter<W>) -> fmt::Result {
        match self {
            StreamError::Refused(error) => error.fmt(f),
            StreamError::TooLong { rec } => write!(f, "record {rec}: too long"),
            StreamError::Failed => f.write_str("cannot read"),
            StreamError::OutOfMemory => f.write_str("out of memory"),
        }
    }
}

impl Error for StreamError {}

impl From<AllocError> for StreamError {
    ghost use Rattle.std.specs.Prelude.{◌≡◌};
    ghost use Rattle.trade_text.specs.declared.error.StreamError.TheVariants as error;

    ghost from_gives = { λ _ e. e ≡ error.OutOfMemory };

    fn from(_error: AllocError) -> StreamError {
        StreamError::OutOfMemory
    }
}

impl<T: Drop> From<AllocFailed<T>> for StreamError {
    ghost use Rattle.std.specs.Prelude.{◌≡◌};
    ghost use Rattle.trade_text.specs.declared.error.StreamError.TheVariants as error;

    ghost from_gives = { λ _ e. e ≡ error.OutOfMemory };

    fn from(_error: AllocFailed<T>) -> StreamError {
        StreamError::OutOfMemory
    }
}
