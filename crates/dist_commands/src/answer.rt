//! What a command answers.
use crate::status::Status;

/// A status, and the text to print with it.
#[derive(Drop)]
pub struct Answer {
    pub status: Status,
    pub text: Vec<u8>,
}
