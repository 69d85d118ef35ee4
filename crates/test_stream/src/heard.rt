// What a reader tells of a text that comes in pieces.
ghost use Rattle.std.specs.Prelude.{◌≡◌, [], IfOk, false, true};
ghost use Rattle.stream_reader.specs.Parts.{view_of};

use byte_source::{ByteSource, MemSource};
use std::alloc::Global;
use std::test::Fail;
use stream_reader::{Next, StreamReader, Trade};
use symbol_names::SymbolNames;
use trade_text::write_lines;
use tuple_edge::Row;

/// The rows and the names that were told, and what was said at the end.
#[derive(Drop)]
pub struct Heard {
    pub rows: Vec<Row>,
    pub names: SymbolNames,
    pub said: String,
}

impl Heard {
    // Nothing yet.
    fn new(alloc: Global) -> Heard {
        Heard {
            rows: Vec::new(alloc),
            names: SymbolNames::new(alloc),
            said: String::new(alloc),
        }
    }

    // Takes a trade: its name is learnt before its row.
    fn take(&mut self, trade: Trade) -> Result<(), Fail> {
        if let Some(name) = trade.name {
            self.names.learn(name)?;
        }
        self.rows.push(trade.row)?;
        Ok(())
    }

    /// The lines of the rows.
    pub fn lines(&self, alloc: Global) -> Result<Vec<u8>, Fail> {
        Ok(write_lines(alloc, &self.rows, &self.names)?)
    }
}

// Takes the end of the input, and says what came of it.
fn take_end<S: ByteSource + Drop>(
    alloc: Global,
    reader: &mut StreamReader<S>,
    heard: &mut Heard,
) -> Result<(), Fail>
    requires { (view_of reader.old).at_hand ≡ [] }
{
    match reader.finish(alloc) {
        Ok(None) => heard.said.push_str("end")?,
        Ok(Some(trade)) => {
            heard.take(trade)?;
            heard.said.push_str("end")?;
        }
        Err(error) => heard.said = format!(in alloc; "{error}")?,
    }
    Ok(())
}

// Waits for more bytes, or takes the end. Whether more came.
fn read_on<S: ByteSource + Drop>(
    alloc: Global,
    reader: &mut StreamReader<S>,
    heard: &mut Heard,
) -> Result<bool, Fail>
    requires at_hand { (view_of reader.old).at_hand ≡ [] }
    requires on { (view_of reader.old).over ≡ false }
    ensures { IfOk result (λ more. more ≡ true → (view_of reader.new).over ≡ false) }
{
    match reader.read_more() {
        Ok(true) => Ok(true),
        Ok(false) => {
            take_end(alloc, reader, heard)?;
            Ok(false)
        }
        Err(error) => {
            heard.said = format!(in alloc; "{error}")?;
            Ok(false)
        }
    }
}

// Takes a trade that is at hand, or waits for more. Whether there may be more then.
fn go_on<S: ByteSource + Drop>(
    alloc: Global,
    reader: &mut StreamReader<S>,
    heard: &mut Heard,
) -> Result<bool, Fail>
    requires { (view_of reader.old).over ≡ false }
    ensures { IfOk result (λ more. more ≡ true → (view_of reader.new).over ≡ false) }
{
    match reader.take(alloc) {
        Ok(Next::Trade(trade)) => {
            heard.take(trade)?;
            Ok(true)
        }
        Ok(Next::Nothing) => read_on(alloc, reader, heard),
        Err(error) => {
            heard.said = format!(in alloc; "{error}")?;
            Ok(false)
        }
    }
}

/// What a reader tells of a source.
pub fn hear<S: ByteSource + Drop>(alloc: Global, source: S) -> Result<Heard, Fail> {
    let mut heard = Heard::new(alloc);
    let mut reader = StreamReader::new(alloc, source)?;
    for _ in 0..200_000 {
        if !go_on(alloc, &mut reader, &mut heard)? {
            return Ok(heard);
        }
    }
    Err("no end of the input".into())
}

/// A text that is given in pieces of one size, of which the reads of these numbers fail.
pub fn in_pieces(
    alloc: Global,
    text: &[u8],
    size: usize,
    fails: &[u64],
) -> Result<MemSource, Fail> {
    let mut sizes = Vec::new(alloc);
    for _ in 0..text.len() {
        sizes.push(size)?;
    }
    Ok(MemSource::new(
        Vec::from_slice(alloc, text)?,
        sizes,
        Vec::from_slice(alloc, fails)?,
    ))
}
