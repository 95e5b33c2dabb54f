// The sizes that document 01 states: of names, and of the lists of a text.

pub const NAME_BYTES: usize = 64;

pub const MOST_PARAMETERS: usize = 16;

pub const MOST_RANGES: usize = 16;

pub const MOST_REGISTERS: usize = 64;

pub const MOST_VARIABLES: usize = 128;

pub const MOST_PIECES: usize = 8;
