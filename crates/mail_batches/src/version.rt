// Versions of batches.

/// The version that is written.
pub const VERSION: u8 = 1;
