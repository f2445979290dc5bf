// The sizes of the working arrays, by the most groups and links of a survey: two ends a link, two words of 64 bits in a row of bits, and for the
// chains of both ends a head a group and a next a link.
use survey::limits::{GROUPS, LINKS};

pub const ENDS: usize = 2 * LINKS;

pub const ROWS: usize = 2 * GROUPS;

pub const CHAINS: usize = 2 * GROUPS + 2 * LINKS;
