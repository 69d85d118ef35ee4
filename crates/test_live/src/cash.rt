// The program over a plan of version 2, which has no cash movements there.
use crate::answer::none_is_wrong;
use crate::calls::live_call;
use live_feed::FreeGate;
use std::alloc::Global;
use std::sync::Wait;
use std::test::Fail;
use std::thread::Threads;
use test_kit::Latch;
use tuple_edge::OutOfMemory;

// When an account comes to owe more than 40,000 dollars, or no longer does.
const CROSSING: &[u8] = b"flux 2
mark 4
stage 1 parts 2 by account crossing account 4000000
";

// Sales beside the last purchase of their account in the same minute, and purchases beside the last sale.
const JOIN: &[u8] = b"flux 2
stage 1 parts 2 by account join account 60 1 qty < 0
";

const TRADES: &[u8] = b"time,account,symbol,side,qty,price
34205,1001,AAPL,B,300,189.25
34300,1002,MSFT,B,90,402.10
35292,1001,AAPL,S,200,189.40
36150,1002,MSFT,B,20,402.60
36155,1002,IBM,S,100,184.05
39945,1003,NVDA,B,40,788.50
43200,1003,NVDA,B,20,792.00
";

const SCRIPT: &[u8] = b"kill 1.0.a at 1 back 2\n";

// Worked out by hand.
const CROSSED: &[u8] = b"time,account,symbol,qty,value
34205,1001,-,300,5677500
35292,1001,-,100,1889500
36150,1002,-,110,4424100
36155,1002,-,10,2583600
43200,1003,-,60,4738000
rows,5
";

// The two trades of account 1002 in one minute.
const JOINED: &[u8] = b"time,account,symbol,qty,value
36155,1002,-,-80,-1035300
rows,1
";

// A plan, and what has to be written of it.
const CASES: &[(&[u8], &[u8])] = &[(CROSSING, CROSSED), (JOIN, JOINED)];

fn writes<R: Threads + Wait + Sync>(
    rt: &R,
    alloc: Global,
    plan: &[u8],
    line: &str,
    text: &[u8],
) -> Result<bool, OutOfMemory> {
    let row = Latch::new();
    let came = live_call(rt, alloc, plan, TRADES, SCRIPT, line, &row, &FreeGate)?;
    Ok(came.status == 0 && came.text.as_slice() == text)
}

fn first_wrong<R: Threads + Wait + Sync>(
    rt: &R,
    alloc: Global,
) -> Result<Option<usize>, OutOfMemory> {
    for (place, (plan, text)) in CASES.iter().enumerate() {
        let calm = writes(rt, alloc, plan, "p.txt t.csv", text)?;
        if !calm || !writes(rt, alloc, plan, "p.txt t.csv s.txt", text)? {
            return Ok(Some(place));
        }
    }
    Ok(None)
}

// All of the text is written, without failures and where a replica fails.
#[test]
fn a_plan_of_version_2_is_written(rt: HostRuntime) -> Result<(), Fail> {
    none_is_wrong(first_wrong(&rt, rt.alloc())?)
}
