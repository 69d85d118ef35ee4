// What a replica's packet says to its controller, before anything is acknowledged.
ghost use Rattle.pair_machine.specs.Consumers.{first_below};
ghost use Rattle.std.specs.Prelude.{◌≡◌, ◌<◌, ◌≤◌, ◌+◌, ◌^◌, length};
ghost use Rattle.trio_nodes.specs.Contents.{message_of};
ghost use Rattle.trio_nodes.specs.ControllerPackets.{IsDone, IsHeard, SendsAtMost};
ghost use Rattle.trio_nodes.specs.ControllerView.{IsLed, numbers_of, partition_of, watched_in};
ghost use Rattle.trio_machine.specs.Controllers.{controller_hears, goes_down, named};
ghost use Rattle.trio_machine.specs.Numbers.{group_size};

use super::watched::TrioWatched;
use crate::group::replica;
use crate::{TrioControl, TrioOutbox};
use trio_machine::TrioBody;

// The lowest replica that is up. None where none is.
fn lowest_up(watched: &[TrioWatched]) -> Option<u32>
    requires { length watched.now ≡ group_size }
    ensures value { result ≡ first_below (λ c. (watched_in watched.now c).up) group_size }
    ensures led { IsLed result watched.now }
{
    for copy in 0..watched.len() {
        let replica = &watched[copy];
        if replica.up {
            return Some(copy as u32);
        }
    }
    None
}

impl TrioControl {
    // What the packet itself changes; what isn't carried to a controller changes nothing.
    pub(crate) fn hear(&mut self, copy: u32, body: &TrioBody, out: &mut TrioOutbox)
        requires copy { copy < group_size }
        requires heard { IsHeard self.old body.now }
        requires term { self.old.term + 1 < 2 ^ 64 }
        requires room { 1 ≤ out.old.spare }
        ensures does { IsDone self.old self.new out.old out.new
            (controller_hears (partition_of self.old) copy (message_of body.now) (numbers_of self.old)) }
        ensures acked { self.new.acked ≡ self.old.acked }
        ensures sends { SendsAtMost 1 out.old out.new }
    {
        match *body {
            TrioBody::Report { edge, upto } => {
                self.watched[copy as usize].hear(edge.from as usize, upto)
            }
            TrioBody::Down => {
                if self.up(copy) {
                    self.go_down(copy, out);
                }
            }
            _ => {}
        }
    }

    // A replica goes down. Where it led, the lowest one that is up is named leader.
    fn go_down(&mut self, copy: u32, out: &mut TrioOutbox)
        requires copy { copy < group_size }
        requires term { self.old.term + 1 < 2 ^ 64 }
        requires room { 1 ≤ out.old.spare }
        ensures does { IsDone self.old self.new out.old out.new
            (goes_down (partition_of self.old) copy (numbers_of self.old)) }
        ensures acked { self.new.acked ≡ self.old.acked }
        ensures sends { SendsAtMost 1 out.old out.new }
    {
        let led = self.leader == Some(copy);
        self.watched[copy as usize].go_down();
        if led {
            self.leader = lowest_up(&self.watched);
            self.name_leader(out);
        }
    }

    // Tells who leads now, under the next term; where nobody does, there is nobody to tell.
    fn name_leader(&mut self, out: &mut TrioOutbox)
        requires term { self.old.term + 1 < 2 ^ 64 }
        requires room { 1 ≤ out.old.spare }
        ensures does { IsDone self.old self.new out.old out.new
            (named (partition_of self.old) (numbers_of self.old) self.old.leader) }
        ensures acked { self.new.acked ≡ self.old.acked }
        ensures sends { SendsAtMost 1 out.old out.new }
    {
        if let Some(next) = self.leader {
            self.term += 1;
            let term = self.term;
            out.push(
                replica(self.stage, self.part, next),
                TrioBody::Lead { term },
            );
        }
    }
}
