// Ingress, which makes all rows and sends them.
use crate::again::again;
use ingress_egress::Ingress;
use plan_reader::Plan;
use std::alloc::Global;
use trade_text::{Trades, write_output};
use tuple_edge::{Body, Item, NodeId, OutOfMemory, Outbox, Row, Which, Worked};

// Ingress, and what it has sent.
#[derive(Drop)]
struct Sender {
    ingress: Ingress,
    sent: Outbox,
}

impl Sender {
    // Ingress of a plan and trades, which has made and sent nothing.
    fn new(alloc: Global, plan: &Plan, trades: &Trades) -> Result<Sender, OutOfMemory> {
        Ok(Sender {
            ingress: Ingress::new(alloc, plan, trades)?,
            sent: Outbox::new(alloc),
        })
    }

    // Makes all rows and the end.
    fn make_all(&mut self) -> Result<(), OutOfMemory> {
        for _make in 0..u64::MAX {
            if again(|| self.ingress.make())? == Worked::Idle {
                return Ok(());
            }
        }
        Err(OutOfMemory)
    }

    // Sends all that was made.
    fn send_all(&mut self) -> Result<(), OutOfMemory> {
        for _piece in 0..u64::MAX {
            if again(|| self.ingress.work(&mut self.sent))? == Worked::Idle {
                return Ok(());
            }
        }
        Err(OutOfMemory)
    }

    // The rows that were sent to a replica A.
    fn sent_rows(&self, alloc: Global) -> Result<Vec<Row>, OutOfMemory> {
        let mut rows = Vec::new(alloc);
        for nth in 0..self.sent.len() {
            if let Some(row) = row_to_a(&self.sent, nth) {
                rows.push(row)?;
            }
        }
        Ok(rows)
    }
}

// The row of a packet, where it is one to a replica A.
fn row_to_a(sent: &Outbox, nth: usize) -> Option<Row> {
    match sent.get(nth)? {
        (
            NodeId::Replica {
                which: Which::A,
                ..
            },
            Body::Tuple {
                item: Item::Row { row, .. },
                ..
            },
        ) => Some(row),
        _ => None,
    }
}

/// The text of the rows that ingress sends.
pub(crate) fn sent_text(
    alloc: Global,
    plan: &Plan,
    trades: &Trades,
) -> Result<Vec<u8>, OutOfMemory> {
    let mut sender = again(|| Sender::new(alloc, plan, trades))?;
    sender.make_all()?;
    sender.send_all()?;
    let rows = again(|| sender.sent_rows(alloc))?;
    again(|| write_output(alloc, &rows, trades, true))
}
