// The limits of an image. Document 01, 'Recording' and 'Turned back'.

// The least B, how many times a block holds at most.
pub const MIN_LIMIT: u32 = 2;

// The largest B.
pub const MAX_LIMIT: u32 = 65535;

// The largest S, how many signals there are.
pub const MAX_SIGNALS: u32 = 65536;

// The largest total, how many bytes an image has.
pub const MAX_TOTAL: usize = 1073741824;
