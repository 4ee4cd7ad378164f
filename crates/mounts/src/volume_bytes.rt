// Volumes of one block, by their words.

pub const BLOCK: usize = 512;

// The word at 12 of a volume that is not broken.
pub const SUM: u32 = 0x3bbfb616;

// A file `a` of the three bytes `egg`; the word at 12 is given.
pub fn volume_with(sum: u32) -> [u8; BLOCK] {
    of_words(&[
        0x2d726f6d, 0x3166732d, 80, sum, 0, 0, 0, 0, 2, 0, 3, 0x9efffffb, 0x61000000, 0, 0, 0,
        0x65676700, 0, 0, 0,
    ])
}

// Big-endian, with zeros behind them.
fn of_words(words: &[u32]) -> [u8; BLOCK] {
    let mut bytes = [0; BLOCK];
    for (place, word) in bytes.chunks_exact_mut(4).zip(words) {
        place.copy_from_slice(&word.to_be_bytes());
    }
    bytes
}

// What makes some words sum to zero.
fn checksum(words: &[u32]) -> u32 {
    words.iter().fold(0u32, |sum, word| sum.wrapping_sub(*word))
}

// The words of a header named `a`.
fn header(next: u32, info: u32, size: u32) -> [u32; 8] {
    let mut words = [next, info, size, 0, 0x61000000, 0, 0, 0];
    words[3] = checksum(&words);
    words
}

// A chain of so many links, each to the header behind it, and an empty file at its end; all are named `a`.
pub fn chain(links: u8) -> [u8; BLOCK] {
    let links = links.min(14);
    let size = 64 + 32 * u32::from(links);
    let mut words = [0; BLOCK / 4];
    words[..4].copy_from_slice(&[0x2d726f6d, 0x3166732d, size, 0]);
    for link in 0..links as usize {
        let next = 64 + 32 * link as u32;
        words[8 + 8 * link..16 + 8 * link].copy_from_slice(&header(next, next, 0));
    }
    let last = 8 + 8 * links as usize;
    words[last..last + 8].copy_from_slice(&header(2, 0, 0));
    words[3] = checksum(&words);
    of_words(&words)
}

// The front of a volume of this size, which a file `a` of zeros fills.
pub fn filled_front(size: u32) -> [u8; BLOCK] {
    let mut words = [0; 16];
    words[..4].copy_from_slice(&[0x2d726f6d, 0x3166732d, size, 0]);
    words[8..].copy_from_slice(&header(2, 0, size.saturating_sub(64)));
    words[3] = checksum(&words);
    of_words(&words)
}
