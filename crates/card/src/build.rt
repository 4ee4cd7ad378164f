// The command `build`: writes the tree of an image, and prints its label in veritysetup's lines.
ghost use Rattle.std.specs.Prelude.{◌≡◌, ℕ, ◌+◌, ◌++◌, ◌%◌, OnOk, IsErrOf, length};
ghost use Rattle.builder.specs.InParts.{digests_of};
ghost use Rattle.tree.specs.Tree.{salted};

use crate::fault::Fault;
use crate::options::{Build, BuildOptions};
use builder::{Base, BuildFault, Source, build_above, hash_blocks};
use digest::Digest;
use label_text::LabelText;
use std::alloc::Global;
use std::fs;
use std::fs::File;
use std::io::Read;
use text::with_digest;
use thiserror::Error;

// Why there is no tree.
#[derive(Debug, Drop, Error)]
pub enum NoTree {
    #[error("the image has no data block, or more than 1048576")]
    Blocks,
    // So many bytes are wanting of a whole last block.
    #[error("the image's last data block lacks {0} bytes: pad the image first")]
    Padding(usize),
    #[error("refused: {0}")]
    Refused(BuildFault),
}

// What is to be printed and written.
#[derive(Drop)]
struct Built {
    label: LabelText,
    tree: Vec<u8>,
}

// So much of the image is in memory at once: whole blocks of any size, and few enough to stay in a processor's cache.
const PART: usize = 131072;

// An image of more parts has no tree: its blocks are too many, even if they are of 4096 bytes.
const PARTS: usize = 32768;

// A part of so many bytes is whole blocks, unless it is the image's last and lacks some.
fn check_whole(len: usize, data_block: usize) -> Result<(), NoTree>
    ensures whole { OnOk result (len % data_block ≡ 0) }
    ensures padding { (wanting : ℕ) → IsErrOf result (NoTree.Padding wanting) → (len + wanting) % data_block ≡ 0 }
{
    match len.checked_rem(data_block).ok_or(NoTree::Blocks)? {
        0 => Ok(()),
        over => Err(NoTree::Padding(data_block - over)),
    }
}

// What the tree is built over, once the digests are there.
fn base_of<'a>(options: &'a BuildOptions, digests: &'a [u8]) -> Base<'a> {
    Base {
        digests,
        data_block: options.data_block,
        hash_block: options.hash_block,
        salt: options.salt.as_slice(),
    }
}

// Appends the digests of a part's blocks, unless there are then none or too many, or the part is not whole blocks.
fn hash_part<D: Digest>(
    digest: &D,
    options: &BuildOptions,
    part: &[u8],
    digests: &mut Vec<u8>,
) -> Result<(), Fault>
    ensures whole { OnOk result (length part.now % options.now.data_block ≡ 0) }
    ensures appended { OnOk result (digests.new.items ≡ digests.old.items ++ digests_of (salted D.meaning options.now.salt.items) options.now.data_block part.now) }
{
    let source = Source {
        image: part,
        data_block: options.data_block,
        hash_block: options.hash_block,
        salt: options.salt.as_slice(),
    };
    let size = digest.output_len();
    let start = digests.len();
    // none, where the part is shorter than a block
    let blocks = source.geometry(size).map_or(0, |g| g.blocks());
    digests.resize(start + blocks * size, 0)?;
    // the number of blocks comes before what the last one lacks, as `build` has it
    base_of(options, digests.as_slice())
        .geometry(size)
        .ok_or(NoTree::Blocks)?;
    check_whole(part.len(), options.data_block)?;
    hash_blocks(digest, &source, &mut digests[start..]).map_err(NoTree::Refused)?;
    Ok(())
}

// The digests of an image's blocks. The image is read to its end, a part at a time.
fn read_digests<D: Digest, R: Read>(
    heap: Global,
    digest: &D,
    options: &BuildOptions,
    image: &mut R,
) -> Result<Vec<u8>, Fault> {
    let mut part = Vec::with_capacity(heap, PART)?;
    let mut digests = Vec::new(heap);
    // a part more than that, so that the end is seen of an image of so many
    for _ in 0..=PARTS {
        part.clear();
        image.by_ref().take(PART as u64).read_to_end(&mut part)?;
        if part.is_empty() {
            return Ok(digests);
        }
        hash_part(digest, options, part.as_slice(), &mut digests)?;
    }
    Err(Fault::from(NoTree::Blocks))
}

fn make<D: Digest>(
    heap: Global,
    digest: &D,
    options: &BuildOptions,
    image: &mut File,
) -> Result<Built, Fault> {
    let digests = read_digests(heap, digest, options, image)?;
    let base = base_of(options, digests.as_slice());
    let size = digest.output_len();
    let geometry = base.geometry(size).ok_or(NoTree::Blocks)?;
    let mut tree = vec![in heap; 0u8; geometry.tree_len()]?;
    let mut root = vec![in heap; 0u8; size]?;
    build_above(digest, &base, tree.as_mut_slice(), root.as_mut_slice()).map_err(NoTree::Refused)?;
    let label = LabelText::new(
        options.function,
        &geometry,
        options.salt.as_slice(),
        root.as_slice(),
    )
    .ok_or(NoTree::Refused(BuildFault::Limit))?;
    Ok(Built { label, tree })
}

// Writes the tree beside its place first, so that no half of it is left under its name.
fn write_tree(rt: &HostRuntime, name: String, tree: &[u8]) -> Result<(), Fault> {
    let part = format!(in rt.alloc(); "{name}.part")?;
    if let Err(error) = fs::write(rt, part.as_str(), tree) {
        let _ = fs::remove_file(rt, part.as_str());
        return Err(Fault::File(part, error));
    }
    fs::rename(rt, part.as_str(), name.as_str()).map_err(|error| {
        let _ = fs::remove_file(rt, part.as_str());
        Fault::File(name, error)
    })
}

// The tree of an image, by the digest that is asked for.
fn build_image(rt: &HostRuntime, options: &BuildOptions, name: &str) -> Result<Built, Fault> {
    let mut image = File::open(rt, name)?;
    with_digest!(options.function, digest => make(rt.alloc(), &digest, options, &mut image))
}

pub fn build_tree(rt: &HostRuntime, asked: Build) -> Result<(), Fault> {
    let options = asked.options;
    let image = asked.image;
    let built = build_image(rt, &options, image.as_str()).map_err(|fault| fault.of_file(image))?;
    write_tree(rt, asked.tree, built.tree.as_slice())?;
    Ok(print!(rt; "{}", built.label)?)
}
