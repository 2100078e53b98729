/// A used name, by where it begins, with the number of its declaration, or none for a predefined name.
#[derive(Clone, Copy, PartialEq, Eq, Debug)]
pub struct NameUse {
    pub start: u32,
    pub declaration: Option<u32>,
}
