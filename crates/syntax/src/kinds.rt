// The kinds of tokens that the readers ask for, as `Token::kind` numbers them: a word by 512 and its number in document
// 01's list, a sign by 256 and its byte.

pub const NAME: u16 = 1;

pub const NUMBER: u16 = 2;

pub const BITS: u16 = 3;

// The end of the text, and what stands where the reading has stopped.
pub const END: u16 = 255;

pub const BIT: u16 = 512 + 1;

pub const BOOL: u16 = 512 + 2;

pub const DEVICE: u16 = 512 + 4;

pub const INT: u16 = 512 + 10;

pub const MASK: u16 = 512 + 11;

pub const PORT: u16 = 512 + 12;

pub const READ: u16 = 512 + 16;

pub const REGISTER: u16 = 512 + 17;

pub const TRIGGER: u16 = 512 + 21;

pub const VARIABLE: u16 = 512 + 25;

pub const VOLATILE: u16 = 512 + 26;

pub const WRITE: u16 = 512 + 27;

pub const SIGNED: u16 = 512 + 28;

pub const HASH: u16 = 256 + b'#' as u16;

pub const OPEN: u16 = 256 + b'(' as u16;

pub const CLOSE: u16 = 256 + b')' as u16;

pub const COMMA: u16 = 256 + b',' as u16;

pub const COLON: u16 = 256 + b':' as u16;

pub const SEMICOLON: u16 = 256 + b';' as u16;

pub const EQUALS: u16 = 256 + b'=' as u16;

pub const AT: u16 = 256 + b'@' as u16;

pub const OPEN_BRACKET: u16 = 256 + b'[' as u16;

pub const CLOSE_BRACKET: u16 = 256 + b']' as u16;

pub const OPEN_BRACE: u16 = 256 + b'{' as u16;

pub const CLOSE_BRACE: u16 = 256 + b'}' as u16;

// `..`
pub const DOTS: u16 = 385;
