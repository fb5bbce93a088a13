use crate::text::Text;

/// A text, and how often it was counted.
#[derive(Drop)]
pub struct CountedText {
    pub text: Text,
    pub count: u64,
}
