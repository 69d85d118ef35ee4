// A reader of trades over a source of bytes.
ghost use Rattle.std.specs.Prelude.{◌≡◌, ◌≤◌, ◌<◌, false, length};
ghost use Rattle.stream_reader.specs.Telling.{Follows};

use crate::{Next, Trade};
use byte_source::{ByteSource, ReadFailed};
use past::Past;
use std::alloc::Global;
use symbol_names::SymbolName;
use trade_stream::TradeParser;
use trade_text::StreamError;
use tuple_edge::{OutOfMemory, Row};

/// The most bytes that are read at once.
pub const PIECE_BYTES: usize = 65_536;

/// Trades that are read one by one from a source of bytes. It keeps the symbols, the front of one record, and one piece.
#[derive(Drop)]
pub struct StreamReader<S: ByteSource + Drop> {
    source: S,
    // The last piece, how many bytes it has, and how many of them were looked at.
    piece: Vec<u8>,
    filled: usize,
    at: usize,
    parser: TradeParser,
    // What proofs remember: the bytes that were looked at, and the rows that were told.
    looked: Past<u8>,
    rows: Past<Row>,
    ghost within: { (at ≤ filled) × (filled ≤ length piece.items) },
    ghost some: { 0 < length piece.items },
    ghost follows: { parser.over ≡ false → Follows looked.items rows.items parser.at },
}

impl<S: ByteSource + Drop> StreamReader<S> {
    ghost use Rattle.std.specs.Prelude.{◌≡◌, ◌+◌, ◌<◌, [], IfErr, IfOk, None, Ok, OnOk, drop, false, not, take, true};
    ghost use Rattle.byte_source.specs.Told.{Fails, Gives, is_none_of};
    ghost use Rattle.stream_reader.specs.Parts.{view_of};
    ghost use Rattle.stream_reader.specs.Telling.{AreFirst, Finishes, Pushes, Takes, came, name_in};
    ghost use Rattle.stream_reader.specs.declared.trade.Next.TheVariants as next;
    ghost use Rattle.trade_stream.specs.Pushed.{has_header};
    ghost use Rattle.trade_text.specs.declared.error.StreamError.TheVariants as stream;

    /// A reader that has read nothing.
    pub fn new(alloc: Global, source: S) -> Result<StreamReader<S>, OutOfMemory>
        ensures source { IfOk result (λ reader. reader.source ≡ source) }
        ensures nothing { IfOk result (λ reader. view_of reader ≡ record { looked = []; at_hand = []; rows = []; names = []; over = false }) }
    {
        Ok(StreamReader {
            source,
            piece: vec![in alloc; 0; PIECE_BYTES]?,
            filled: 0,
            at: 0,
            parser: TradeParser::new(alloc),
            looked: Past::new(),
            rows: Past::new(),
        })
    }

    // Looks at the next byte, and tells the row of the trade whose record it ends, if it ends one.
    fn push_next(&mut self, alloc: Global) -> Result<Option<Row>, StreamError>
        requires { self.old.at < self.old.filled }
        ensures pushes { self.old.parser.over ≡ false → Pushes (view_of self.old) result (view_of self.new) }
        ensures bytes { came (view_of self.new) ≡ came (view_of self.old) }
        ensures source { self.new.source ≡ self.old.source }
        ensures over { OnOk result (self.new.parser.over ≡ self.old.parser.over) }
        ensures next { (self.new.at ≡ self.old.at + 1) × (self.new.filled ≡ self.old.filled) }
        ensures nothing { self.old.parser.over ≡ true → (result ≡ Ok None) × (self.new.parser.over ≡ true) }
    {
        let byte = self.piece[self.at];
        self.at += 1;
        self.looked = self.looked.and(&byte);
        match self.parser.push(alloc, byte) {
            Err(error) => Err(error),
            Ok(None) => Ok(None),
            Ok(Some(row)) => {
                self.rows = self.rows.and(&row);
                Ok(Some(row))
            }
        }
    }

    // A trade with the name of its symbol, where more symbols are known than so many before it.
    fn trade(&self, row: Row, known: usize) -> Trade
        ensures row { result.row ≡ row }
        ensures name { name_in result.name ≡ take 1 (drop known (view_of self.now).names) }
    {
        if self.parser.symbols() <= known {
            return Trade { row, name: None };
        }
        let name = SymbolName::new(self.parser.symbol(known as i64 + 1));
        Trade {
            row,
            name: Some(name),
        }
    }

    /// The next trade of what has come. It reads nothing. After an error nothing more is told.
    pub fn take(&mut self, alloc: Global) -> Result<Next, StreamError>
        ensures takes { self.old.parser.over ≡ false → Takes (view_of self.old) result (view_of self.new) }
        ensures first { self.old.parser.over ≡ false → OnOk result (AreFirst (view_of self.new).looked (view_of self.new).rows (view_of self.new).names) }
        ensures bytes { came (view_of self.new) ≡ came (view_of self.old) }
        ensures source { self.new.source ≡ self.old.source }
        ensures nothing { self.old.parser.over ≡ true → result ≡ Ok next.Nothing }
    {
        while self.at < self.filled {
            let known = self.parser.symbols();
            match self.push_next(alloc) {
                Err(error) => return Err(error),
                Ok(None) => {}
                Ok(Some(row)) => return Ok(Next::Trade(self.trade(row, known))),
            }
        }
        Ok(Next::Nothing)
    }

    /// Waits for more bytes, and says whether any came: none do where the input has ended.
    pub fn read_more(&mut self) -> Result<bool, StreamError>
        requires { (view_of self.old).at_hand ≡ [] }
        ensures gives { OnOk result (Gives (S.told self.old.source) (view_of self.new).at_hand (S.told self.new.source)) }
        ensures some { IfOk result (λ some. some ≡ not (is_none_of (view_of self.new).at_hand)) }
        ensures failed { IfErr result (λ e. (e ≡ stream.Failed) × Fails (S.told self.old.source) (S.told self.new.source)) }
        ensures unchanged { view_of self.new ≡ record (view_of self.old) { at_hand = (view_of self.new).at_hand } }
    {
        self.at = 0;
        self.filled = 0;
        match self.source.read(&mut self.piece) {
            Ok(count) => {
                self.filled = count;
                Ok(count > 0)
            }
            Err(ReadFailed) => Err(StreamError::Failed),
        }
    }

    /// The trade whose record the end of the input ends, if there is one. Nothing comes behind it.
    pub fn finish(&mut self, alloc: Global) -> Result<Option<Trade>, StreamError>
        requires { (view_of self.old).at_hand ≡ [] }
        ensures finishes { self.old.parser.over ≡ false → Finishes (view_of self.old) result (view_of self.new) }
        ensures over { (view_of self.new).over ≡ true }
        ensures bytes { came (view_of self.new) ≡ came (view_of self.old) }
        ensures source { self.new.source ≡ self.old.source }
        ensures nothing { self.old.parser.over ≡ true → result ≡ Ok None }
    {
        let known = self.parser.symbols();
        match self.parser.finish(alloc)? {
            None => Ok(None),
            Some(row) => {
                self.rows = self.rows.and(&row);
                Ok(Some(self.trade(row, known)))
            }
        }
    }

    /// Whether the header has come, and was accepted.
    pub fn has_header(&self) -> bool
        ensures { result ≡ has_header self.now.parser.at.stage }
    {
        self.parser.has_header()
    }

    /// The source.
    pub fn source(&self) -> &S
        ensures { result.now ≡ self.now.source }
    {
        &self.source
    }
}
