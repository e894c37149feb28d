// The octets that end a line.

pub(crate) const CR: u8 = 13;

pub(crate) const LF: u8 = 10;
