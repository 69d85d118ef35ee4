// One out-edge of a producer.
ghost use Rattle.ack_buffer.specs.Buffer.{item_at};
ghost use Rattle.flux_producer.specs.Limits.{max_copies};
ghost use Rattle.flux_producer.specs.OutEdge.{IsLeastCursor, acknowledged, cursor_of, over, rewound, sent, wanted, with_item, with_room};
ghost use Rattle.flux_producer.specs.ProducerView.{without_room};
ghost use Rattle.std.specs.Prelude.{◌≡◌, ◌≤◌, ◌<◌, ◌+◌, IfOk, IfSome, IfNone, OnErr, OnOk};
ghost use Rattle.tuple_edge.specs.Limits.{number_limit};

use ack_buffer::AckBuffer;
use std::marker::Model;
use tuple_edge::{Item, OutOfMemory};

/// The greatest number of replicas of a consumer.
pub const MAX_COPIES: u32 = 3;

/// An out-edge: its buffer, and for each replica of its consumer the next number to send.
#[derive(Drop)]
pub struct OutEdge {
    buffer: AckBuffer,
    cursors: [u64; MAX_COPIES as usize],
}

impl Model for OutEdge {
    ghost use Rattle.flux_producer.specs.OutEdge.{IsOutEdge, OutEdgeView};

    ghost Value = { OutEdgeView };

    ghost view = { λ e. record { buffer = e.buffer; cursors = e.cursors } };

    ghost invariant = { λ e. IsOutEdge e.buffer e.cursors };
}

impl OutEdge {
    // An edge with this buffer, of which nothing was sent.
    pub(crate) fn over(buffer: AckBuffer) -> OutEdge
        ensures { result ≡ over buffer }
    {
        let next = buffer.low() + 1;
        OutEdge {
            buffer,
            cursors: [next; MAX_COPIES as usize],
        }
    }

    // An edge with the same cursors and items, and with room for so many further items.
    pub(crate) fn with_room(&self, items: usize) -> Result<OutEdge, OutOfMemory>
        ensures contents { IfOk result (λ e. without_room e ≡ without_room self.now) }
        ensures spare { IfOk result (λ e. items ≤ e.buffer.spare) }
        ensures kept { IfOk result (λ e. self.now.buffer.spare ≤ e.buffer.spare) }
    {
        Ok(OutEdge {
            buffer: self.buffer.with_room(items)?,
            cursors: self.cursors,
        })
    }

    // Makes room for so many further items. Where there is room already it is never refused.
    pub(crate) fn reserve(&mut self, items: usize) -> Result<(), OutOfMemory>
        ensures contents { self.new ≡ with_room self.old self.new.buffer.spare }
        ensures spare { OnOk result (items ≤ self.new.buffer.spare) }
        ensures kept { self.old.buffer.spare ≤ self.new.buffer.spare }
        ensures unchanged { OnErr result (self.new ≡ self.old) }
        ensures refused { OnErr result (self.old.buffer.spare < items) }
    {
        self.buffer.reserve(items)
    }

    // Produces the next item, and gives its number.
    pub(crate) fn produce(&mut self, item: Item) -> u64
        requires room { 1 ≤ self.old.buffer.spare }
        requires fits { self.old.buffer.produced + 1 < number_limit }
        ensures number { result ≡ self.old.buffer.produced + 1 }
        ensures produced { self.new ≡ with_item self.old item }
    {
        self.buffer.produce(item)
    }

    // Notes that the items up to a number are acknowledged.
    pub(crate) fn ack(&mut self, upto: u64)
        requires { upto < number_limit }
        ensures { self.new ≡ acknowledged self.old upto }
    {
        self.buffer.trim(upto);
        let next = self.buffer.low() + 1;
        self.cursors = self.cursors.map(|cursor| next.max(cursor));
    }

    // Goes back to a number that a replica wants.
    pub(crate) fn want(&mut self, copy: u32, from: u64)
        requires { copy < max_copies }
        ensures { self.new ≡ wanted self.old copy from }
    {
        let next = self.buffer.low() + 1;
        let at = copy as usize;
        self.cursors[at] = self.cursors[at].min(from.max(next));
    }

    // Begins again with the first item that isn't acknowledged.
    pub(crate) fn rewind(&mut self)
        ensures { self.new ≡ rewound self.old }
    {
        let next = self.buffer.low() + 1;
        self.cursors = [next; MAX_COPIES as usize];
    }

    // Gives the item at a replica's cursor, and goes on to the next number. None where it isn't
    // produced yet.
    pub(crate) fn send(&mut self, copy: u32) -> Option<Item>
        requires { copy < max_copies }
        ensures item { result ≡ item_at self.old.buffer (cursor_of self.old copy) }
        ensures sent { IfSome result (λ _. self.new ≡ sent self.old copy) }
        ensures none { IfNone result ((self.new ≡ self.old) × (self.old.buffer.produced < cursor_of self.old copy)) }
    {
        let at = copy as usize;
        let item = self.buffer.get(self.cursors[at])?;
        self.cursors[at] += 1;
        Some(item)
    }

    pub(crate) fn buffer(&self) -> &AckBuffer
        ensures { result.now ≡ self.now.buffer }
    {
        &self.buffer
    }

    // The next number to send to a replica.
    pub(crate) fn cursor(&self, copy: u32) -> u64
        requires { copy < max_copies }
        ensures value { result ≡ cursor_of self.now copy }
        ensures above { self.now.buffer.low < result }
        ensures fits { result ≤ number_limit }
    {
        self.cursors[copy as usize]
    }

    // The first of so many replicas whose cursor is the least, with that cursor.
    pub(crate) fn least_cursor(&self, copies: u32) -> (u32, u64)
        requires some { 1 ≤ copies }
        requires few { copies ≤ max_copies }
        ensures { IsLeastCursor self.now copies result.0 result.1 }
    {
        let [first, second, third] = self.cursors;
        let (mut copy, mut number) = (0, first);
        if copies > 1 && second < number {
            (copy, number) = (1, second);
        }
        if copies > 2 && third < number {
            (copy, number) = (2, third);
        }
        (copy, number)
    }
}
