// Tests of the replica: takeover, moves, each packet in each mode, what can be read, and a walk beside a plain program on
// numbers.
mod fixture;
mod moves;
mod packets;
mod reading;
mod served_anew;
mod takeover;
mod walk;
