// The last items of a run: images of them, and one more.
ghost use Rattle.circular_buffer.specs.Buffer.{buffer, keep_last};
ghost use Rattle.std.specs.Prelude.{◌++◌, ◌∷◌, []};

use crate::store::{Image, OutOfMemory, Takes};
use circular_buffer::HeapCircularBuffer;
use std::alloc::Global;

impl<T: Copy> Image for HeapCircularBuffer<T> {
    fn image(&self, alloc: Global) -> Result<Self, OutOfMemory> {
        let mut image = HeapCircularBuffer::with_capacity(alloc, self.capacity())?;
        for item in self.iter() {
            image.push_back(*item);
        }
        Ok(image)
    }
}

impl<T: Copy> Takes<T, ()> for HeapCircularBuffer<T> {
    ghost after = { λ recent item. buffer (keep_last recent.capacity (recent.items ++ item ∷ [])) recent.capacity };

    ghost told = { λ recent item. tt };

    fn take(&mut self, more: T) {
        self.push_back(more);
    }
}
