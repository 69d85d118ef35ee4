// Named values, and what contracts see of a seat.
ghost use Rattle.std.specs.Prelude.{ℕ, List, Bool};
ghost use Rattle.std.specs.Borrow.{ftrue};

use std::marker::{Model, PhantomData};

/// A value that has a name for good: whoever takes it from a [`Board`](crate::Board) may change it
/// as they like, and gives it back with the name that it had. The name is part of proofs alone.
pub trait Named: Send + Drop {
    /// What names are.
    ghost Name: { Type 0 };

    /// The value's name.
    ghost name: { Self → Name };
}

// What a seat knows. No value of it is made.
pub struct SeatView<T> {
    marker: PhantomData<T>,
    // False once it was joined into another seat.
    pub ghost live: { Bool },
    // From 1 to the number of seats of the board.
    pub ghost number: { ℕ },
    // The numbers of the seats that were joined into it.
    pub ghost joined: { List ℕ },
    // The places that it holds, the last one first.
    pub ghost holds: { List ℕ },
    // The values with which the board began, whose names are the names of the places.
    pub ghost opening: { List T },
    // How many seats the board has.
    pub ghost seats: { ℕ },
    // How many claims it has lost, and the place and the owner of the last one.
    pub ghost lost: { ℕ },
    pub ghost lost_place: { ℕ },
    pub ghost lost_owner: { ℕ },
    // How many times it has loaded the halt word, and what the last load found.
    pub ghost loads: { ℕ },
    pub ghost last_load: { ℕ },
    // It has set the halt word.
    pub ghost stored: { Bool },
    // It is the seat that splits off the others, and so many were made.
    pub ghost makes: { Bool },
    pub ghost made: { ℕ },
}

impl<T> Model for SeatView<T> {
    ghost also_owns = { λ _. ftrue };
}
