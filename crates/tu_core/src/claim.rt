/// What is tested, and raises an exception of its own where it is false.
#[derive(Clone, Copy, PartialEq, Eq)]
pub enum Claim {
    /// `assert`
    Asserts,
    /// `pre`
    Requires,
    /// `post`
    Ensures,
    /// `invariant`
    Keeps,
}
