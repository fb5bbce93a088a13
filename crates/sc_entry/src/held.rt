/// Where an object stands in the bytes of its entry.
#[derive(Clone, Copy, Debug)]
pub struct Held {
    pub mode: Option<u32>,
    pub start: usize,
    pub len: usize,
}
