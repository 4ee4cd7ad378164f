// Entries by their numbers.

/// An entry of the directory that a path names, by its number: they count from 0, without `.` and `..`.
#[derive(Clone, Copy, Debug)]
pub struct Nth<'a> {
    /// The path of the directory.
    pub path: &'a [u8],
    /// The number of the entry.
    pub index: usize,
}
