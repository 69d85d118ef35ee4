// What a look at the channel comes to.

#[derive(Clone, Copy)]
pub(crate) enum Next<T> {
    Value(T),
    /// Nothing is there.
    Empty,
    /// No value comes any more.
    Over,
}
