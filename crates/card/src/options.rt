// The options of `build`, under veritysetup's names and with its defaults. The salt's default is the empty one.
ghost use Rattle.std.specs.Prelude.{◌≡◌, ◌≤◌, true, IfOk, length};
ghost use Rattle.geometry.specs.Limits.{is_block_size};

use crate::command::{Misuse, spelled};
use crate::fault::Fault;
use geometry::{Geometry, SALT_LIMIT};
use hex::FromHexError;
use std::alloc::{AllocError, Global};
use std::env::Args;
use text::Function;

#[derive(Drop)]
pub struct BuildOptions {
    pub function: Function,
    pub data_block: usize,
    pub hash_block: usize,
    pub salt: Vec<u8>,
}

// A tree to build, and the names of the image and of the tree's file.
#[derive(Drop)]
pub struct Build {
    pub options: BuildOptions,
    pub image: String,
    pub tree: String,
}

// A number that a data block and a tree block may have as their size.
fn block_size(text: String) -> Result<usize, Misuse>
    ensures { IfOk result (λ size. is_block_size size ≡ true) }
{
    let size = spelled(text, Misuse::BadNumber)?;
    match Geometry::new(size, size, 1, 32) {
        Some(_) => Ok(size),
        None => Err(Misuse::BlockSize(size)),
    }
}

fn salt_bytes(heap: Global, text: String) -> Result<Vec<u8>, Fault>
    ensures { IfOk result (λ salt. length salt.items ≤ 256) }
{
    if text.as_str() == "-" {
        return Ok(Vec::new(heap));
    }
    let salt = match hex::decode(heap, text.as_bytes()) {
        Ok(salt) => salt,
        Err(FromHexError::OutOfMemory) => return Err(Fault::Memory(AllocError)),
        Err(_) => return Err(Fault::from(Misuse::BadSalt(text))),
    };
    if salt.len() > SALT_LIMIT {
        return Err(Fault::from(Misuse::LongSalt(salt.len())));
    }
    Ok(salt)
}

impl BuildOptions {
    // Takes an option and its value.
    fn set(&mut self, heap: Global, name: String, value: Option<String>) -> Result<(), Fault> {
        match (name.as_str(), value) {
            ("--hash", Some(value)) => self.function = spelled(value, Misuse::UnknownDigest)?,
            ("--data-block-size", Some(value)) => self.data_block = block_size(value)?,
            ("--hash-block-size", Some(value)) => self.hash_block = block_size(value)?,
            ("--salt", Some(value)) => self.salt = salt_bytes(heap, value)?,
            ("--hash" | "--data-block-size" | "--hash-block-size" | "--salt", None) => {
                return Err(Fault::from(Misuse::NoValue(name)));
            }
            _ => return Err(Fault::from(Misuse::UnknownOption(name))),
        }
        Ok(())
    }
}

pub fn parse_build(heap: Global, mut words: Args) -> Result<Build, Fault> {
    let mut options = BuildOptions {
        function: Function::Sha256,
        data_block: 4096,
        hash_block: 4096,
        salt: Vec::new(heap),
    };
    let mut files = Vec::new(heap);
    while let Some(word) = words.next() {
        if word.as_str().starts_with("--") {
            let value = words.next();
            options.set(heap, word, value)?;
        } else {
            files.push(word)?;
        }
    }
    let mut files = files.into_iter();
    match (files.next(), files.next(), files.next()) {
        (Some(image), Some(tree), None) => Ok(Build {
            options,
            image,
            tree,
        }),
        _ => Err(Fault::from(Misuse::TwoFiles)),
    }
}
