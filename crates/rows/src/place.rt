// Where some neighbours stand in a row. It holds none of them.

// The place of the first, and how many they are.
#[derive(Clone, Copy, Debug, PartialEq, Eq)]
pub struct Place {
    pub start: usize,
    pub count: usize,
}
