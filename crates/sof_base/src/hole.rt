/// Free bytes of a heap: where they begin, and how many they are.
#[derive(Clone, Copy, Debug, PartialEq, Eq)]
pub struct Hole {
    pub place: u32,
    pub size: u32,
}
