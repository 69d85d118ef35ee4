// Tests of the numbered edges: items and outboxes, buffers, merges, producers and consumers.
mod buffers;
mod consumers;
mod merges;
mod producers;
mod tuples;
