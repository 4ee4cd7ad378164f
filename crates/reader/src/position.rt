// Places in files.
ghost use Rattle.std.specs.Prelude.{◌≡◌, ◌-◌, true, false, min, nat_lt, IfNone, IfSome};

use crate::handle::Handle;

/// A place in an open file.
#[derive(Clone, Copy, Debug)]
pub struct Position<'a> {
    /// The file.
    pub handle: &'a Handle,
    /// Bytes from the file's start.
    pub offset: usize,
}

impl Position<'_> {
    // How many bytes there are from it on, `n` at most; none is answered behind the end.
    pub(crate) fn count(&self, n: usize) -> Option<usize>
        ensures behind { IfNone result (nat_lt self.now.handle.now.size self.now.offset ≡ true) }
        ensures near { IfSome result (λ c. nat_lt self.now.handle.now.size self.now.offset ≡ false) }
        ensures value { IfSome result (λ c. c ≡ min n (self.now.handle.now.size - self.now.offset)) }
    {
        let size = self.handle.size as usize;
        if size < self.offset {
            None
        } else {
            Some(n.min(size - self.offset))
        }
    }
}
