// The buffer that a padded message is written into.
ghost use Rattle.std.specs.Prelude.{◌+◌, ◌≤◌, length};
ghost use Rattle.digest.specs.Buffer.{Behind};

// Bytes of a buffer that has room for every padded message.
pub(crate) const PADDED: usize = 4480;

// Writes the bytes at a place of a buffer that is zeros from there on.
#[tactic(auto, using(crate::proofs::Buffer::put_behind))]
pub(crate) fn put(buf: &mut [u8; PADDED], at: usize, bytes: &[u8])
    requires { at + length bytes.now ≤ PADDED }
    ensures { Behind buf.old at bytes.now buf.new }
{
    buf[at..at + bytes.len()].copy_from_slice(bytes);
}
