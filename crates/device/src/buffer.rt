// Zeros for a buffer.
ghost use Rattle.std.specs.Prelude.{◌≡◌, length, replicate};

/// Zeros over a whole buffer, as a refused call leaves it.
pub fn wipe(buf: &mut [u8])
    ensures { buf.new ≡ replicate (length buf.old) 0 }
{
    buf.fill(0);
}
