// A source that stays with its ring while it is out of sight.
ghost use Rattle.input_ring.specs.Ends.{RingName, gives_from, inputs_given};
ghost use Rattle.std.specs.Prelude.{◌≡◌};

use crate::source::InputSource;
use node_tasks::{Came, Source};
use std::marker::{Brand, PhantomData};

/// Which ring it is. It has no call, and contracts alone see its member.
pub trait RingNames: Send + Sync {
    /// The ring.
    ghost ring: { RingName };
}

impl RingNames for Brand {
    ghost use Rattle.input_ring.specs.Ends.{no_ring};

    ghost ring = { no_ring };
}

/// A source of which the type says from which ring it gives. A run hands back a source of the type that it was given: so it
/// is known to be of that ring still.
#[derive(Drop)]
pub struct NamedSource<N: RingNames> {
    source: InputSource,
    of: PhantomData<N>,
    ghost named: { gives_from source ≡ N.ring },
}

impl<N: RingNames> Source for NamedSource<N> {
    ghost gave = { λ named. inputs_given named.source };

    ghost ended = { λ named. named.source.ended };

    fn next(&mut self) -> Came {
        self.source.next()
    }
}

impl InputSource {
    /// The same source, of which the type says from which ring it gives.
    pub fn named<N: RingNames>(self) -> NamedSource<N>
        requires { gives_from self ≡ N.ring }
        ensures gave { inputs_given result.source ≡ inputs_given self }
        ensures ended { result.source.ended ≡ self.ended }
    {
        NamedSource {
            source: self,
            of: PhantomData,
        }
    }
}

impl<N: RingNames> NamedSource<N> {
    /// The source.
    pub fn into_source(self) -> InputSource
        ensures ring { gives_from result ≡ N.ring }
        ensures gave { inputs_given result ≡ inputs_given self.source }
        ensures ended { result.ended ≡ self.source.ended }
    {
        let NamedSource { source, .. } = self;
        source
    }
}
