//! Who is told how far a replay is.

/// Is told how far a replay of a file is, each time that some segments were replayed.
pub trait Progress {
    /// So many messages were replayed, and so many bytes of the file read.
    fn at(&self, messages: u32, bytes: u64);
}

/// Tells it where there is someone to tell.
impl<P: Progress> Progress for Option<P> {
    fn at(&self, messages: u32, bytes: u64) {
        if let Some(progress) = self {
            progress.at(messages, bytes);
        }
    }
}

/// Tells nobody, for callers that show no progress.
#[derive(Drop)]
pub struct Silent;

impl Progress for Silent {
    fn at(&self, _messages: u32, _bytes: u64) {}
}
