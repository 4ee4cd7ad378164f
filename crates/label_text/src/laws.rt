// The law of reading and printing, of the definitions and of every label.
ghost use Rattle.std.specs.Prelude.{◌≡◌, ℕ, ◌^◌, ◌<◌, Ok, slice_index};
ghost use Rattle.label_text.specs.Label.{label_in, told};
ghost use Rattle.label_text.specs.Laws.{PrintedReads};
ghost use Rattle.label_text.specs.Printed.{text_of};

use crate::label::LabelText;

// What is printed of a label reads as the same label.
pub fn printed_reads()
    ensures { PrintedReads }
{}

fn is_word(n: u32)
    ensures { n < 2 ^ 32 }
{}

fn are_bytes(bytes: &[u8])
    ensures { (i : ℕ) → slice_index bytes.now i < 256 }
{}

// Every label is one that can be printed and read again.
pub fn label_reads(label: &LabelText)
    ensures { label_in (text_of (told label.now)) ≡ Ok (told label.now) }
{
    is_word(label.blocks);
    is_word(label.data_block);
    is_word(label.hash_block);
    are_bytes(label.salt());
    are_bytes(label.root());
}
