// A label, as its file tells it: made of a tree or read, and what it holds. Whether it is good is not said here: `Label::check`
// tells.
ghost use Rattle.std.specs.Prelude.{◌≡◌, length};
ghost use Rattle.text.specs.Bytes.{bytes_of};
ghost use Rattle.text.specs.Sum.{size_of};

use crate::fault::Fault;
use crate::key::Key;
use crate::lines::{number_at, value};
use crate::values::{hash_type, root, salt};
use geometry::{Geometry, Label};
use text::{Bytes, Function};

/// A label's file: the digest function, the numbers, the salt and the root digest.
#[derive(Clone, Copy)]
pub struct LabelText {
    pub(crate) function: Function,
    pub(crate) blocks: u32,
    pub(crate) data_block: u32,
    pub(crate) hash_block: u32,
    // as long as the longest salt that a good label may have
    pub(crate) salt: Bytes<256>,
    pub(crate) root: Bytes<64>,
    ghost whole: { length (bytes_of root) ≡ size_of function },
}

impl LabelText {
    ghost use Rattle.std.specs.Option.{option_map};
    ghost use Rattle.geometry.specs.Of.{shape_of};
    ghost use Rattle.text.specs.Sum.{label_number};
    ghost use Rattle.label_text.specs.Label.{fitting, label_in, of_tree, told};
    ghost use Rattle.label_text.specs.Seen.{seen};

    /// The label of a tree, unless the salt is too long for any, or the root is not as long as a digest.
    pub fn new(
        function: Function,
        geometry: &Geometry,
        salt: &[u8],
        root: &[u8],
    ) -> Option<LabelText>
        ensures { option_map told result ≡ fitting (of_tree function (shape_of geometry.now) salt.now root.now) }
    {
        if root.len() != function.size() {
            return None;
        }
        Some(LabelText {
            function,
            blocks: geometry.blocks() as u32,
            data_block: geometry.data_block() as u32,
            hash_block: geometry.hash_block() as u32,
            salt: Bytes::new(salt)?,
            root: Bytes::new(root)?,
        })
    }

    /// The label that a text tells, or the first fault in the order of the keys. Reading uses no heap.
    #[tactic(auto, unfolding(crate::specs::Label::label_in))]
    pub fn read(text: &[u8]) -> Result<LabelText, Fault>
        ensures { seen told result ≡ label_in text.now }
    {
        hash_type(value(Key::HashType, text)?).ok_or(Fault::Malformed(Key::HashType))?;
        let blocks = number_at(Key::DataBlocks, text)?;
        let data_block = number_at(Key::DataBlockSize, text)?;
        let hash_block = number_at(Key::HashBlockSize, text)?;
        let function = Function::named(value(Key::HashAlgorithm, text)?).ok_or(Fault::Malformed(
            Key::HashAlgorithm,
        ))?;
        let salt = salt(value(Key::Salt, text)?).ok_or(Fault::Malformed(Key::Salt))?;
        let root = root(function, value(Key::RootHash, text)?).ok_or(Fault::Malformed(
            Key::RootHash,
        ))?;
        Ok(LabelText {
            function,
            blocks,
            data_block,
            hash_block,
            salt,
            root,
        })
    }

    /// The digest function that it names.
    pub fn function(&self) -> Function
        ensures { result ≡ (told self.now).function }
    {
        self.function
    }

    /// The salt, at most 256 bytes.
    pub fn salt(&self) -> &[u8]
        ensures { result.now ≡ (told self.now).salt }
    {
        self.salt.as_slice()
    }

    /// The root digest, as long as a digest of its function.
    pub fn root(&self) -> &[u8]
        ensures { result.now ≡ (told self.now).root }
    {
        self.root.as_slice()
    }

    /// The label as a mount takes it.
    pub fn label(&self) -> Label<'_>
        ensures digest { result.digest ≡ label_number (told self.now).function }
        ensures data_block { result.data_block ≡ (told self.now).data_block }
        ensures hash_block { result.hash_block ≡ (told self.now).hash_block }
        ensures blocks { result.blocks ≡ (told self.now).blocks }
        ensures salt { result.salt.now ≡ (told self.now).salt }
        ensures root { result.root.now ≡ (told self.now).root }
    {
        Label {
            digest: self.function.label_number(),
            data_block: self.data_block,
            hash_block: self.hash_block,
            blocks: self.blocks,
            salt: self.salt(),
            root: self.root(),
        }
    }
}
