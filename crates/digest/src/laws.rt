// Laws of the definitions; each function's contract is one.
ghost use Rattle.digest.specs.Laws.{PaddingStands, SplitStands};

/// A padded message is whole blocks, and is the message, 80 hex, the fewest zeros and the bit length.
pub fn padding_stands()
    ensures { PaddingStands }
{}

/// A digest's answer depends on the joined string alone.
pub fn split_stands()
    ensures { SplitStands }
{}
