// What the values of a label's lines stand for.
ghost use Rattle.std.specs.Prelude.{◌≡◌, IfSome, length};
ghost use Rattle.std.specs.Option.{option_map};
ghost use Rattle.text.specs.Bytes.{bytes_of};
ghost use Rattle.text.specs.Sum.{size_of};
ghost use Rattle.label_text.specs.Values.{hash_type_of, root_of, salt_of};

use text::{Bytes, Function};

// 1 is the only type of tree.
pub(crate) fn hash_type(value: &[u8]) -> Option<()>
    ensures { result ≡ hash_type_of value.now }
{
    (value == b"1".as_slice()).then_some(())
}

pub(crate) fn salt(value: &[u8]) -> Option<Bytes<256>>
    ensures { option_map bytes_of result ≡ salt_of value.now }
{
    if value.is_empty() {
        None
    } else if value == b"-".as_slice() {
        Bytes::new(b"")
    } else {
        Bytes::from_hex(value)
    }
}

pub(crate) fn root(function: Function, value: &[u8]) -> Option<Bytes<64>>
    ensures bytes { option_map bytes_of result ≡ root_of function value.now }
    ensures whole { IfSome result (λ root. length (bytes_of root) ≡ size_of function) }
{
    if value.len() != 2 * function.size() {
        return None;
    }
    Bytes::from_hex(value)
}
