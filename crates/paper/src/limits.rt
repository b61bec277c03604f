// The numbers of document 01, of CR 3, CR 9 and CR 11 that bound something, as specs/Limits has them, and the cells that the machine names.

// "N from 256"; CR 11: "Raise N to 65,535".
pub const SMALLEST_N: usize = 256;

pub const LARGEST_N: usize = 65535;

// "Deck regions follow from 221."
pub const FIRST_DECK: u16 = 221;

// "J0..J199": so many.
pub const MANY_PROCESSES: usize = 200;

// "number to 9,999"; "counts 1 to 9,999".
pub const LARGEST_NUMBER: u16 = 9999;

// CR 11: "locals to 0..999": so many.
pub const MANY_LOCALS: usize = 1000;

// "P is 0..7"; "Q is 0..2", of a deck's words.
pub const LARGEST_P: u8 = 7;

pub const LARGEST_Q: u8 = 2;

// "nesting at most 64".
pub const DEEPEST: usize = 64;

// "budget over 1,000,000" is refused.
pub const LARGEST_BUDGET: u32 = 1000000;

// The program's: "It reads at most 16,384 deck bytes"; "4,096 cells"; "16,384 bytes of output room".
pub const PROGRAM_DECK: usize = 16384;

pub const PROGRAM_CELLS: usize = 4096;

pub const PROGRAM_ROOM: usize = 16384;

// The letters of deck regions: all but H, W and J.
pub const MANY_REGIONS: usize = 23;

// Five digits are enough for the number of a cell, ten for any number of 32 bits.
pub const CELL_DIGITS: usize = 5;

pub const MOST_DIGITS: usize = 10;

// CR 9: "eight hex digits".
pub const HEX_DIGITS: usize = 8;

// The longest line, an integer's: `-`, its digits, a line feed.
pub const LONGEST_LINE: usize = 1 + MOST_DIGITS + 1;

// The program prints its lines and the answer's.
pub const LONGEST_PRINTOUT: usize = PROGRAM_ROOM + LONGEST_LINE;

// H0 to H9 are cells 1 to 10, W0 to W9 11 to 20, J0 to J199 21 to 220.
pub const H0: u16 = 1;

pub const H1: u16 = 2;

pub const H2: u16 = 3;

pub const H3: u16 = 4;

pub const H5: u16 = 6;

pub const W0: u16 = 11;

pub const J0: u16 = 21;

pub const J3: u16 = 24;

pub const J4: u16 = 25;
