/// What code knows of a phrase that was judged.
#[derive(Drop)]
pub enum Answer<T> {
    /// The phrase has this meaning.
    Good(T),
    /// It has no meaning, and holds no fault of its own: a name in it was declared with a fault.
    Typeless,
    /// It holds a fault.
    Faulty,
}
