// Trades that come in pieces of any size: they are those of the file with the same bytes.
ghost use Rattle.std.specs.Prelude.{◌≡◌, [], OnOk, false};
ghost use Rattle.stream_reader.specs.Parts.{view_of};

use crate::heard::{hear, in_pieces};
use byte_source::ByteSource;
use std::alloc::Global;
use std::test::Fail;
use stream_reader::{Next, StreamReader};
use test_kit::NAMES;
use trade_text::read_trades;

const RECORDS: &[u8] = b"1,7,M,B,2,1.5\r\n\n\"2\",7,A,sell,\"3\",2\r3,8,M,S,1,1";

const SIZES: [usize; 7] = [1, 2, 3, 5, 7, 16, 1_000];

// The names of the columns and these records.
fn text_of(alloc: Global, records: &[u8]) -> Result<Vec<u8>, Fail> {
    let mut text = Vec::from_slice(alloc, NAMES)?;
    text.extend_from_slice(records)?;
    Ok(text)
}

// Whether a text in pieces of each size gives the rows of its file.
fn is_the_file(alloc: Global, text: &[u8]) -> Result<bool, Fail> {
    let trades = read_trades(alloc, text)?;
    for size in SIZES {
        let heard = hear(alloc, in_pieces(alloc, text, size, &[])?)?;
        if heard.rows.as_slice() != trades.rows() || heard.said.as_str() != "end" {
            return Ok(false);
        }
    }
    Ok(true)
}

#[test]
fn pieces_are_the_file(rt: HostRuntime) -> Result<(), Fail> {
    let text = text_of(rt.alloc(), RECORDS)?;
    assert!(rt; is_the_file(rt.alloc(), &text)?);
    let mut marked = Vec::from_slice(rt.alloc(), b"\xef\xbb\xbf")?;
    marked.extend_from_slice(&text)?;
    assert!(rt; is_the_file(rt.alloc(), &marked)?);
    Ok(())
}

// Rows are written by the names that came with them.
#[test]
fn names_come_before_rows(rt: HostRuntime) -> Result<(), Fail> {
    let text = text_of(rt.alloc(), RECORDS)?;
    let heard = hear(rt.alloc(), in_pieces(rt.alloc(), &text, 4, &[])?)?;
    let lines = heard.lines(rt.alloc())?;
    assert_eq!(rt; heard.names.count(), 2);
    assert!(rt; lines.as_slice() == b"1,7,M,2,300\n2,7,A,-3,-600\n3,8,M,-1,-100\n".as_slice());
    Ok(())
}

// A text, how many rows are told, and what is said then.
const CASES: [(&[u8], usize, &str); 13] = [
    (b"", 0, "end"),
    (b"1,7,M,B,1,1\n2,7,A,B,1,1", 2, "end"),
    (
        b"1,7,M,B,1,1\n2,7,A,B,x,1\n3,7,A,B,1,1\n",
        1,
        "record 3: field qty",
    ),
    (
        b"1,7,M,B,1,1\n2,7,A,B,0,1\n3,7,A,B,1,1\n",
        1,
        "record 3: range qty",
    ),
    (b"\n\n2,7,A,B,1\n3,7,A,B,1,1\n", 0, "record 2: fields"),
    (b"1,7,M,B,1,1\n\"2,7,A,B,1,1\n", 1, "record 3: fields"),
    (b"1,7,M,B,1,1\r\n\r\n2,7,A,B,1,1\r", 2, "end"),
    (b"1,7,M,B,1,1\n2,7,A,B,1,1,", 1, "record 3: fields"),
    (b"1,7,M,B,1,1\n2,7", 1, "record 3: fields"),
    (
        b"1,7,M,B,1,1\n\xef\xbb\xbf2,7,A,B,1,1\n",
        1,
        "record 3: field time",
    ),
    (b"24:00:0,7,M,B,1,1\n", 0, "record 2: field time"),
    (b"1,0,M,B,1,1\n", 0, "record 2: range account"),
    (b"1,7,M,B,1,1\n2,7,N,byu,1,1.00", 1, "record 3: field side"),
];

// Whether a text in pieces of each size gives so many rows, and then this is said.
fn ends_so(alloc: Global, text: &[u8], count: usize, wanted: &str) -> Result<bool, Fail> {
    for size in SIZES {
        let heard = hear(alloc, in_pieces(alloc, text, size, &[])?)?;
        if heard.rows.len() != count || heard.said.as_str() != wanted {
            return Ok(false);
        }
    }
    Ok(true)
}

#[test]
fn a_fault_ends_the_rows(rt: HostRuntime) -> Result<(), Fail> {
    for (records, count, wanted) in CASES {
        let text = text_of(rt.alloc(), records)?;
        assert!(rt; ends_so(rt.alloc(), &text, count, wanted)?);
    }
    Ok(())
}

// No header, a mark that isn't whole, a second mark, and one that isn't at the front.
const HEADERS: [&[u8]; 9] = [
    b"",
    b"\n\n",
    b"time,account\n",
    b"\xef",
    b"\xef\xbb",
    b"\xef\xbb\xbf",
    b"\xef\xbb\xbf\xef\xbb\xbf,time,account,symbol,side,qty,price\n",
    b"\xef\xbbtime,account,symbol,side,qty,price\n1,7,M,B,1,1\n",
    b"\n\xef\xbb\xbftime,account,symbol,side,qty,price\n1,7,M,B,1,1\n",
];

#[test]
fn no_header_is_refused(rt: HostRuntime) -> Result<(), Fail> {
    for text in HEADERS {
        assert!(rt; ends_so(rt.alloc(), text, 0, "header")?);
    }
    Ok(())
}

// Each read fails in its turn: what came before it is told.
#[test]
fn a_source_that_fails_ends_the_rows(rt: HostRuntime) -> Result<(), Fail> {
    let text = text_of(rt.alloc(), b"1,7,M,B,1,1\n2,7,A,B,1,1\n3,7,M,B,1,1\n")?;
    for place in 0..text.len() {
        let source = in_pieces(rt.alloc(), &text, 1, &[place as u64 + 1])?;
        let heard = hear(rt.alloc(), source)?;
        let ended = text[..place].iter().filter(|byte| **byte == b'\n').count();
        assert_eq!(rt; heard.said.as_str(), "cannot read");
        assert_eq!(rt; heard.rows.len(), ended.saturating_sub(1));
    }
    Ok(())
}

// A row is told before anything is read behind its record.
// Whether what is at hand tells a trade.
fn told<S: ByteSource + Drop>(alloc: Global, reader: &mut StreamReader<S>) -> Result<bool, Fail>
    requires { (view_of reader.old).over ≡ false }
    ensures { OnOk result ((view_of reader.new).over ≡ false) }
{
    match reader.take(alloc) {
        Ok(Next::Trade(_)) => Ok(true),
        Ok(Next::Nothing) => Ok(false),
        Err(_) => Err("a fault".into()),
    }
}

// Nothing more is told of what is at hand.
fn tells_no_more<S: ByteSource + Drop>(
    alloc: Global,
    reader: &mut StreamReader<S>,
) -> Result<(), Fail>
    requires { (view_of reader.old).over ≡ false }
    ensures at_hand { OnOk result ((view_of reader.new).at_hand ≡ []) }
    ensures on { OnOk result ((view_of reader.new).over ≡ false) }
{
    match reader.take(alloc) {
        Ok(Next::Nothing) => Ok(()),
        _ => Err("more than one trade at once".into()),
    }
}

// The next byte comes.
fn byte_comes<S: ByteSource + Drop>(reader: &mut StreamReader<S>) -> Result<(), Fail>
    requires at_hand { (view_of reader.old).at_hand ≡ [] }
    requires on { (view_of reader.old).over ≡ false }
    ensures { (view_of reader.new).over ≡ false }
{
    match reader.read_more() {
        Ok(true) => Ok(()),
        _ => Err("the next byte didn't come".into()),
    }
}

#[test]
fn a_row_is_told_at_once(rt: HostRuntime) -> Result<(), Fail> {
    let text = text_of(rt.alloc(), b"1,7,M,B,1,1\n2,7,A,B,1,1\n")?;
    let mut reader = StreamReader::new(rt.alloc(), in_pieces(rt.alloc(), &text, 1, &[])?)?;
    for at in 0..text.len() {
        byte_comes(&mut reader)?;
        let has_told = told(rt.alloc(), &mut reader)?;
        assert_eq!(rt; has_told, at >= NAMES.len() && text[at] == b'\n');
        tells_no_more(rt.alloc(), &mut reader)?;
    }
    Ok(())
}
