// How many bytes each part of an image takes, and at which place of its record each field stands, as in the definitions (specs/Widths).
pub const BYTE_WIDTH: usize = 1;

pub const COUNT_WIDTH: usize = 2;

pub const NUMBER_WIDTH: usize = 4;

// The head: mark, version, purse count, message count, archive count.
pub const VERSION_PLACE: usize = 3 * BYTE_WIDTH;

pub const PURSES_PLACE: usize = VERSION_PLACE + COUNT_WIDTH;

pub const MESSAGES_PLACE: usize = PURSES_PLACE + BYTE_WIDTH;

pub const ENTRIES_PLACE: usize = MESSAGES_PLACE + COUNT_WIDTH;

pub const HEAD_WIDTH: usize = ENTRIES_PLACE + COUNT_WIDTH;

// Details: payer, its number, payee, its number, amount.
pub const PAYERSEQ_PLACE: usize = BYTE_WIDTH;

pub const PAYEE_PLACE: usize = PAYERSEQ_PLACE + NUMBER_WIDTH;

pub const PAYEESEQ_PLACE: usize = PAYEE_PLACE + BYTE_WIDTH;

pub const AMOUNT_PLACE: usize = PAYEESEQ_PLACE + NUMBER_WIDTH;

pub const DETAILS_WIDTH: usize = AMOUNT_PLACE + NUMBER_WIDTH;

// A purse: balance, next, status, log count, details, eight log places.
pub const NEXT_PLACE: usize = NUMBER_WIDTH;

pub const STATUS_PLACE: usize = NEXT_PLACE + NUMBER_WIDTH;

pub const LOGGED_PLACE: usize = STATUS_PLACE + BYTE_WIDTH;

pub const DETAILS_PLACE: usize = LOGGED_PLACE + BYTE_WIDTH;

pub const LOG_PLACE: usize = DETAILS_PLACE + DETAILS_WIDTH;

pub const PURSE_WIDTH: usize = LOG_PLACE + 8 * DETAILS_WIDTH;

// A message: kind, details. An archive entry: logging purse, details.
pub const MESSAGE_WIDTH: usize = BYTE_WIDTH + DETAILS_WIDTH;

pub const ENTRY_WIDTH: usize = BYTE_WIDTH + DETAILS_WIDTH;
