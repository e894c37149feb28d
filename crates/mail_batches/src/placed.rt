// A message and the folder in which it stands.
use told_mail::Message;

/// A message and the number of its folder.
#[derive(Debug, PartialEq, Drop)]
pub struct Placed {
    /// The folder's number.
    pub folder: u64,
    /// The message.
    pub message: Message,
}
