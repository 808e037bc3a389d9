//! A sheet that was read whole.
use drafts::draft::Draft;

// The draft, and the strip that holds its rules' weights.
#[derive(Drop)]
pub struct Loaded<W> {
    pub draft: Draft,
    pub strip: Vec<W>,
}
