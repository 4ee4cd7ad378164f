// A good label, copied, with its digest function; and the way down to a data block by it.
ghost use Rattle.std.specs.Prelude.{◌≡◌, ◌≤◌, length, take};
ghost use Rattle.geometry.specs.Of.{shape_of};

use device::{Area, Device};
use digest::Digest;
use geometry::{BLOCK_LIMIT, Geometry, Label};
use layers::{Level, Place, StorageFault};

#[derive(Drop)]
pub(crate) struct Anchored<H: Digest> {
    pub(crate) digest: H,
    pub(crate) geometry: Geometry,
    // no heap: as long as the longest salt, and as the longest digest
    pub(crate) salt: [u8; 256],
    pub(crate) salt_len: usize,
    pub(crate) root: [u8; 64],
    ghost slots: { (shape_of geometry).slot ≡ H.LEN },
    ghost short: { salt_len ≤ 256 },
}

// The bytes, and zeros behind them.
fn filled<const N: usize>(bytes: &[u8]) -> [u8; N]
    requires { length bytes.now ≤ N }
    ensures { take (length bytes.now) result ≡ bytes.now }
{
    let mut out = [0; N];
    out[..bytes.len()].copy_from_slice(bytes);
    out
}

impl<H: Digest + Drop> Anchored<H> {
    ghost use Rattle.verity.specs.Anchored.{kept, told_by};

    // What the label tells, unless it is refused.
    #[tactic(auto, using(crate::proofs::Labels::salt_short, crate::proofs::Labels::root_long))]
    pub(crate) fn new(digest: H, label: &Label<'_>) -> Option<Anchored<H>>
        ensures { kept result ≡ told_by H.NUMBER H.LEN H.meaning label.now }
    {
        let geometry = label.check(&digest).ok()?;
        Some(Anchored {
            digest,
            geometry,
            salt: filled(label.salt),
            salt_len: label.salt.len(),
            root: filled(label.root),
        })
    }
}

impl<H: Digest> Anchored<H> {
    ghost use Rattle.std.specs.Prelude.{◌<◌, OnErr, replicate};
    ghost use Rattle.std.specs.Str.{bytes_eq};
    ghost use Rattle.device.specs.Answer.{answered};
    ghost use Rattle.device.specs.Run.{Ran};
    ghost use Rattle.geometry.specs.Limits.{block_limit};
    ghost use Rattle.tree.specs.Shape.{levels as levels_of};
    ghost use Rattle.layers.specs.Verity.{check_block, is_block, next_digest, tree_place, walk};
    ghost use Rattle.verity.specs.Anchored.{anchor_of};

    // The block of a level above data block `k`.
    pub(crate) fn tree_place(&self, level: u8, k: u32) -> Place
        requires low { level < levels_of (shape_of self.now.geometry) }
        requires there { k < (shape_of self.now.geometry).blocks }
        ensures { result ≡ tree_place (shape_of self.now.geometry) k level }
    {
        let before = self.geometry.start(level as usize);
        let block = before + self.geometry.above(k as usize, level as u32 + 1);
        Place {
            level: Level::Tree(level),
            block: block as u32,
        }
    }

    // The digest of the next block down on the way to data block `k`, in the block of a level above it.
    pub(crate) fn next_digest<'b>(&self, block: &'b [u8], level: u8, k: u32) -> &'b [u8]
        requires low { level < levels_of (shape_of self.now.geometry) }
        requires long { length block.now ≡ (shape_of self.now.geometry).hash_block }
        ensures { result.now ≡ next_digest (anchor_of self.now) k level block.now }
    {
        let slot = self.geometry.above(k as usize, level as u32) % self.geometry.fanout();
        let start = slot * self.geometry.slot();
        &block[start..start + self.digest.output_len()]
    }

    // Whether a block has this salted digest.
    fn has_digest(&self, block: &[u8], want: &[u8]) -> bool
        requires { length block.now ≤ block_limit }
        ensures { result ≡ bytes_eq ((anchor_of self.now).salted block.now) want.now }
    {
        let mut out = [0; 64];
        let out = &mut out[..self.digest.output_len()];
        // The lengths fit, so it is not refused.
        let _ = self.digest.digest(&self.salt[..self.salt_len], block, out);
        *out == *want
    }

    // Whether this is a question for a whole data block that there is.
    pub(crate) fn holds(&self, area: Area, block: u32, length: usize) -> bool
        ensures { result ≡ is_block (shape_of self.now.geometry) (record { area = area; block = block; length = length }) }
    {
        area == Area::Data
            && length == self.geometry.data_block()
            && (block as usize) < self.geometry.blocks()
    }

    // Asks for a block, and leaves it in the buffer only if it has the wanted digest.
    fn check_block<D: Device>(
        &self,
        below: &mut D,
        place: Place,
        want: &[u8],
        buf: &mut [u8],
    ) -> Result<(), StorageFault<D::Refusal>>
        requires { length buf.old ≤ block_limit }
        ensures run { Ran D.meaning D.moves below.old (check_block (anchor_of self.now) place (length buf.old) want.now) (answered result buf.new) below.new }
        ensures zeros { OnErr result (buf.new ≡ replicate (length buf.old) 0) }
    {
        below
            .ask(place.level.area(), place.block, buf)
            .map_err(|refusal| (refusal, place))?;
        if !self.has_digest(buf, want) {
            buf.fill(0);
            return Err(StorageFault::Mismatch(place));
        }
        Ok(())
    }

    // Goes down to data block `k`, and leaves it in the buffer only if each block on its path has its digest.
    pub(crate) fn walk<D: Device>(
        &self,
        below: &mut D,
        k: u32,
        buf: &mut [u8],
    ) -> Result<(), StorageFault<D::Refusal>>
        requires there { k < (shape_of self.now.geometry).blocks }
        requires room { length buf.old ≡ (shape_of self.now.geometry).data_block }
        ensures run { let a = anchor_of self.now in Ran D.meaning D.moves below.old (walk a k (levels_of a.shape) a.root) (answered result buf.new) below.new }
        ensures zeros { OnErr result (buf.new ≡ replicate (length buf.old) 0) }
    {
        buf.fill(0);
        // no heap: as long as the longest tree block
        let mut block = [0; BLOCK_LIMIT];
        let block = &mut block[..self.geometry.hash_block()];
        let mut want = self.root;
        let want = &mut want[..self.digest.output_len()];
        for level in (0..self.geometry.levels() as u8).rev() {
            self.check_block(below, self.tree_place(level, k), want, block)?;
            want.copy_from_slice(self.next_digest(block, level, k));
        }
        self.check_block(below, Place::data(k), want, buf)
    }
}
