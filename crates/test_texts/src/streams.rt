// Trades that come over a reader: a byte at a time, up to a failure, and without an end.
use std::alloc::Global;
use std::io;
use std::io::Read;
use std::test::Fail;
use test_kit::NAMES;
use trade_text::{TradeReader, read_trades};
use tuple_edge::Row;

// Gives a text a byte at a time, and then fails or ends. It doesn't tell what is left.
#[derive(Drop)]
struct Drip<'a> {
    text: &'a [u8],
    at: usize,
    fails: bool,
}

impl<'a> Read for Drip<'a> {
    fn read(&mut self, buf: &mut [u8]) -> io::Result<usize> {
        match (self.text.get(self.at), buf.first_mut()) {
            (Some(byte), Some(place)) => {
                *place = *byte;
                self.at = self.at.saturating_add(1);
                Ok(1)
            }
            _ if self.fails => Err(io::Error::from(io::ErrorKind::BrokenPipe)),
            _ => Ok(0),
        }
    }
}

fn dripping(text: &[u8], fails: bool) -> Drip<'_> {
    Drip { text, at: 0, fails }
}

// Gives a text and then the same byte without an end.
#[derive(Drop)]
struct Endless<'a> {
    text: &'a [u8],
    at: usize,
    byte: u8,
}

impl<'a> Read for Endless<'a> {
    fn read(&mut self, buf: &mut [u8]) -> io::Result<usize> {
        for place in buf.iter_mut() {
            *place = match self.text.get(self.at) {
                None => self.byte,
                Some(byte) => *byte,
            };
            self.at = self.at.saturating_add(1);
        }
        Ok(buf.len())
    }
}

// The rows that a reader gives, and what is said at the end.
fn heard<R: Read + Drop>(alloc: Global, source: R) -> Result<(Vec<Row>, String), Fail> {
    let mut rows = Vec::new(alloc);
    let mut trades = match TradeReader::open(alloc, source) {
        Ok(trades) => trades,
        Err(error) => return Ok((rows, format!(in alloc; "{error}")?)),
    };
    for _ in 0..100 {
        match trades.next(alloc) {
            Ok(Some(row)) => rows.push(row)?,
            Ok(None) => return Ok((rows, format!(in alloc; "end")?)),
            Err(error) => return Ok((rows, format!(in alloc; "{error}")?)),
        }
    }
    Err("no end after a hundred rows".into())
}

const RECORDS: &[u8] = b"1,7,M,B,2,1.5\r\n\n\"2\",7,A,sell,\"3\",2\r3,8,M,S,1,1";

#[test]
fn a_byte_at_a_time_is_the_file(rt: HostRuntime) -> Result<(), Fail> {
    let mut file = Vec::from_slice(rt.alloc(), NAMES)?;
    file.extend_from_slice(RECORDS)?;
    let trades = read_trades(rt.alloc(), &file)?;
    let (rows, said) = heard(rt.alloc(), dripping(&file, false))?;
    assert!(rt; rows.as_slice() == trades.rows());
    assert_eq!(rt; rows.len(), 3);
    assert_eq!(rt; said.as_str(), "end");
    Ok(())
}

// What comes behind the names, how many rows are given, and what is said then.
const CASES: [(&[u8], usize, &str); 6] = [
    (b"", 0, "end"),
    (b"1,7,M,B,1,1\n2,7,A,B,1,1", 2, "end"),
    (
        b"1,7,M,B,1,1\n2,7,A,B,x,1\n3,7,A,B,1,1\n",
        1,
        "record 3: field qty",
    ),
    (
        b"1,7,M,B,1,1\n2,7,A,B,0,1\n3,7,A,B,1,1\n",
        1,
        "record 3: range qty",
    ),
    (b"\n\n2,7,A,B,1\n3,7,A,B,1,1\n", 0, "record 2: fields"),
    (b"1,7,M,B,1,1\n\"2,7,A,B,1,1\n", 1, "record 3: fields"),
];

// Whether these records give so many rows, and then this is said.
fn ends_so(alloc: Global, records: &[u8], count: usize, wanted: &str) -> Result<bool, Fail> {
    let mut text = Vec::from_slice(alloc, NAMES)?;
    text.extend_from_slice(records)?;
    let (rows, said) = heard(alloc, dripping(&text, false))?;
    Ok(rows.len() == count && said.as_str() == wanted)
}

#[test]
fn a_fault_ends_the_rows(rt: HostRuntime) -> Result<(), Fail> {
    for (records, count, wanted) in CASES {
        assert!(rt; ends_so(rt.alloc(), records, count, wanted)?);
    }
    Ok(())
}

#[test]
fn a_row_comes_before_the_reader_fails(rt: HostRuntime) -> Result<(), Fail> {
    let mut text = Vec::from_slice(rt.alloc(), NAMES)?;
    text.extend_from_slice(b"1,7,M,B,1,1\n2,7,A,B,1,1\n3,7")?;
    let (rows, said) = heard(rt.alloc(), dripping(&text, true))?;
    assert_eq!(rt; rows.len(), 2);
    assert_eq!(rt; said.as_str(), "cannot read");
    Ok(())
}

#[test]
fn nothing_comes_behind_a_fault(rt: HostRuntime) -> Result<(), Fail> {
    let mut text = Vec::from_slice(rt.alloc(), NAMES)?;
    text.extend_from_slice(b"1,7,M,B,x,1\n2,7,A,B,1,1\n")?;
    let mut trades = TradeReader::open(rt.alloc(), dripping(&text, false))?;
    assert!(rt; trades.next(rt.alloc()).is_err());
    assert!(rt; trades.next(rt.alloc())? == None);
    assert!(rt; trades.next(rt.alloc())? == None);
    Ok(())
}

#[test]
fn a_mark_is_dropped_once(rt: HostRuntime) -> Result<(), Fail> {
    let once = b"\xef\xbb\xbftime,account,symbol,side,qty,price\n1,7,M,B,1,1\n";
    let (rows, said) = heard(rt.alloc(), dripping(once, false))?;
    assert_eq!(rt; rows.len(), 1);
    assert_eq!(rt; said.as_str(), "end");
    let twice = b"\xef\xbb\xbf\xef\xbb\xbf,time,account,symbol,side,qty,price\n";
    let (_, said) = heard(rt.alloc(), dripping(twice, false))?;
    assert_eq!(rt; said.as_str(), "header");
    Ok(())
}

#[test]
fn no_header_is_refused(rt: HostRuntime) -> Result<(), Fail> {
    for text in [b"".as_slice(), b"\n\n", b"time,account\n"] {
        let (_, said) = heard(rt.alloc(), dripping(text, false))?;
        assert_eq!(rt; said.as_str(), "header");
    }
    Ok(())
}

// A line, a quoted field, and lines that are empty: none of them ends.
#[test]
fn a_record_without_an_end_is_refused(rt: HostRuntime) -> Result<(), Fail> {
    for (records, byte) in [(b"1,7,".as_slice(), b'x'), (b"\"1", b'\n'), (b"", b'\n')] {
        let mut text = Vec::from_slice(rt.alloc(), NAMES)?;
        text.extend_from_slice(b"1,7,M,B,1,1\n")?;
        text.extend_from_slice(records)?;
        let source = Endless {
            text: &text,
            at: 0,
            byte,
        };
        let (rows, said) = heard(rt.alloc(), source)?;
        assert_eq!(rt; rows.len(), 1);
        assert_eq!(rt; said.as_str(), "record 3: too long");
    }
    Ok(())
}
