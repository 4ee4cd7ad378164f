// An image with the root of its tree: built, its label, a mount by it, and a file read through one.
ghost use Rattle.geometry.specs.Of.{shape_of};
ghost use Rattle.published.specs.Built.{IsBuilt};

use crate::read::read_file;
use builder::{BuildFault, Source, build};
use calls::CallRefusal;
use device::Device;
use digest::Digest;
use geometry::{Geometry, Label};
use mount::Mount;

/// A publisher's image, with the root digest that the builder made for it. Only `build` makes one, so that the label which it
/// gives is always the publisher's.
#[derive(Drop)]
pub struct Published<'a, H: Digest> {
    pub(crate) digest: H,
    pub(crate) source: Source<'a>,
    pub(crate) geometry: Geometry,
    // no heap: as long as the longest digest
    pub(crate) root: [u8; 64],
    ghost built: { IsBuilt H.meaning H.LEN (shape_of geometry) source.image.now source.salt.now root },
}

impl<'a, H: Digest + Copy> Published<'a, H> {
    ghost use Rattle.std.specs.Prelude.{◌≡◌, Ok, Err, Some, IfOk, MatchResult, OnErr, length, replicate};
    ghost use Rattle.builder.specs.Build.{answer as answer_of, tree_after};
    ghost use Rattle.tree.specs.Tree.{root as root_of, salted};
    ghost use Rattle.layers.specs.Publisher.{anchor_of};
    ghost use Rattle.calls.specs.Mount.{cached_check, made};
    ghost use Rattle.mount.specs.Law.{IsLabelOf, LawFrom};
    ghost use Rattle.mount.specs.Mount.{device_of, mounted_of};
    ghost use Rattle.published.specs.Publisher.{publisher_of, publisher_over, source_of};
    ghost use Rattle.published.specs.Reading.{WasRead};

    /// Writes the dm-verity tree (format 1) of an image into `tree`, and keeps its root digest. It is refused as `build` is:
    /// 2 for a block size, a number of blocks or a salt outside its limit, then 3 for an image that is not whole blocks or a
    /// buffer that has not the tree's length. Refused, the buffer is all zeros.
    pub fn build(
        digest: H,
        source: &Source<'a>,
        tree: &mut [u8],
    ) -> Result<Published<'a, H>, BuildFault>
        ensures answer { let given = answer_of H.LEN source.now tree.old (replicate H.LEN 0) in MatchResult result (λ p. given ≡ Ok tt) (λ fault. given ≡ Err fault) }
        ensures tree { tree.new ≡ tree_after H.LEN H.meaning source.now tree.old (replicate H.LEN 0) }
        ensures publisher { IfOk result (λ p. publisher_of p ≡ publisher_over H.LEN H.meaning source.now) }
    {
        let size = digest.output_len();
        let mut root = [0; 64];
        build(&digest, source, tree, &mut root[..size])?;
        let geometry = source.geometry(size).ok_or(BuildFault::Limit)?;
        Ok(Published {
            digest,
            source: *source,
            geometry,
            root,
        })
    }

    /// The label of the image: the digest's number, the sizes, the number of blocks, the salt, and the root. It is good, and the
    /// publisher's.
    pub fn label(&self) -> Label<'_>
        ensures publishers { IsLabelOf H.NUMBER H.LEN H.meaning (publisher_of self.now) result }
        ensures digest { result.digest ≡ H.NUMBER }
        ensures salt { result.salt.now ≡ (source_of self.now).salt.now }
        ensures root { result.root.now ≡ root_of (salted H.meaning (source_of self.now).salt.now) (publisher_of self.now).shape (publisher_of self.now).image }
    {
        Label {
            digest: self.digest.label_number(),
            data_block: self.geometry.data_block() as u32,
            hash_block: self.geometry.hash_block() as u32,
            blocks: self.geometry.blocks() as u32,
            salt: self.source.salt,
            root: &self.root[..self.digest.output_len()],
        }
    }

    /// A mount of a device by this label. Every use of it keeps the law of runs, with this image as the publisher's.
    pub fn mount<D: Device>(&self, device: D) -> Mount<H, D>
        ensures device { device_of result ≡ device }
        ensures made { mounted_of result ≡ made (cached_check D.Refusal) (Some (anchor_of (publisher_of self.now))) }
        ensures law { LawFrom (cached_check D.Refusal) D.meaning D.moves (publisher_of self.now) (mounted_of result) (device_of result) }
    {
        Mount::new(self.digest, &self.label(), device)
    }

    /// Mounts what a device gives by this image's label, reads of the file at a path from an offset on, and closes it again.
    ///
    /// It answers how many bytes there are, at most as many as the buffer has; zeros stand behind them. What it answers is a
    /// storage fault that names a block which was refused or is not the publisher's, or exactly what this image gives, its
    /// bytes or its refusal, unless the device gave a twin: a wrong block with the right length and salted digest. Refused, the
    /// buffer is all zeros. The device is given back as the reading left it.
    pub fn read<D: Device>(
        &self,
        device: D,
        path: &[u8],
        offset: usize,
        buf: &mut [u8],
    ) -> (D, Result<usize, CallRefusal<D::Refusal>>)
        ensures zeros { OnErr result.1 (buf.new ≡ replicate (length buf.old) 0) }
        ensures read { WasRead D.meaning D.moves (publisher_of self.now) device path.now offset (length buf.old) result.1 buf.new result.0 }
    {
        let mut mount = self.mount(device);
        let answer = read_file(&mut mount, path, offset, buf);
        (mount.into_device(), answer)
    }
}
