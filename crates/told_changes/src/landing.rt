// The place of a message that a command put into a folder.

/// A folder's number and the UID of a message in it.
#[derive(Clone, Copy, Debug, PartialEq, Drop)]
pub struct Landing {
    /// The folder's number.
    pub folder: u64,
    /// It counts under the validity of the folder.
    pub uid: u32,
}
