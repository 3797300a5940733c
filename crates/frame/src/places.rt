// The bytes of a frame and of the lent areas: the version, and where each part lies.
pub const VERSION: u8 = 1;

// The fields of a header, and the body after it.
pub const LENGTH_AT: usize = 0;

pub const VERSION_AT: usize = 2;

pub const KIND_AT: usize = 3;

pub const CLIENT_AT: usize = 4;

pub const SEQUENCE_AT: usize = 5;

pub const BODY_AT: usize = 9;

// The entry of a frame of a write, after its time.
pub const OFFER_AT: usize = 17;

// The parts of a value's body after its time.
pub const WRITER_AT: usize = 17;

pub const WRITE_AT: usize = 18;

pub const VALUE_AT: usize = 22;

// An entry's chunk, and in it the block, after the longest digest list.
pub const CHUNK_BYTES: usize = 576;

pub const BLOCK_AT: usize = 320;

// The chunks of client c in a server's area end before chunk 21 c + 1: its echoes' come after chunk 21 c - 20, its readies' after chunk 21 c - 10.
pub const CLIENT_CHUNKS: usize = 21;

pub const ECHOES_BACK: usize = 20;

pub const READIES_BACK: usize = 10;

// The state area of a server, 169 chunks, and the rows area of a client, 40 chunks.
pub const AREA_BYTES: usize = 97344;

pub const ROWS_BYTES: usize = 23040;

// Clients are 1 to 8.
pub const LAST_CLIENT: u8 = 8;

pub const CLIENTS: usize = LAST_CLIENT as usize;

// The largest sequence, 2^32 - 1, and the largest time, 2^64 - 1.
pub const LAST_SEQUENCE: u32 = 4294967295;

pub const LAST_TIME: u64 = 18446744073709551615;
