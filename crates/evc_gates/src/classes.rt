//! The classes of a set of bits.

ghost use Rattle.std.specs.Prelude.{◌≡◌, ◌<◌, ℕ, length, slice_index_or};
ghost use Rattle.words_layout.specs.Sizes.{most_classes};
ghost use Rattle.evc_gates.specs.Counting.{classes_of};

use arrayvec::ArrayVec;

/// The classes whose bits are set, in order.
#[tactic(auto, using(crate::proofs::Bits::kept_more, crate::proofs::Bits::left_out, crate::proofs::Bits::all_below))]
pub fn classes_of_bits(bits: u16) -> ArrayVec<u8, 16>
    ensures classes { result.items ≡ classes_of bits }
    ensures below { (k : ℕ) → k < length result.items → slice_index_or result.items k 0 < most_classes }
{
    let mut classes = ArrayVec::new();
    for class in 0..16u8 {
        if (bits >> class) % 2 == 1 {
            classes.push(class);
        }
    }
    classes
}
