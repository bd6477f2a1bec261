//! Items of the binary format: what stands alone, in a row, and in a vector.

ghost use Rattle.std.specs.Prelude.{◌≡◌, ℕ, List, [], map, IsErrOf};
ghost use Rattle.wasm_values.specs.declared.profile.Profile.{Profile as AProfile};
ghost use Rattle.wasm_spec.specs.Numbers.{TakesUnsigned, TakesVec, TakesBytes, IsUnambiguous};
ghost use Rattle.wasm_spec.proofs.UnambiguousNumbers.{unsigned-unique, vec-unique, byte-unique};
ghost use Rattle.leb_read.specs.Reading.{rest, TakesByte};
ghost use Rattle.instr_decode.specs.Decoding.{ReadsAs};
ghost use Rattle.instr_decode.specs.Wants.{WantsVec};
ghost use Rattle.wasm_decode.specs.Decoding.{Decodes};
ghost use Rattle.wasm_decode.specs.Pairs.{TakesPair, WantsPair, pair-unique};

use instr_decode::DecodeFault;
use leb_read::Cursor;
use std::alloc::Global;
use wasm_values::{Items, Profile};

// An item of the binary format.
pub(crate) trait Item: Sized + Drop {
    // what the grammar of a profile spells, and what this stands for of it
    ghost Tree: { Type 0 };

    ghost tree: { Self → Tree };

    ghost Takes: { AProfile → Tree → List ℕ → List ℕ → Type 0 };

    // where memory may be wanted to read what begins these bytes
    ghost Wants: { AProfile → List ℕ → Type 0 };

    // The item at the cursor, which then stands just after it.
    fn decode(alloc: Global, profile: Profile, cursor: &mut Cursor) -> Result<Self, DecodeFault>
        ensures read { ReadsAs (Takes profile) tree cursor.old cursor.new result }
        ensures wanted { IsErrOf result DecodeFault.NoMemory → Wants profile (rest cursor.old) };

    ghost unique: { (profile : AProfile) → IsUnambiguous (Takes profile) };
}

impl Item for u8 {
    ghost Tree = { ℕ };

    ghost tree = { λ x. x };

    ghost Takes = { λ _. TakesByte };

    ghost Wants = { λ _ _. ⊥ };

    ghost unique = { λ _. byte-unique };

    fn decode(_: Global, _: Profile, cursor: &mut Cursor) -> Result<Self, DecodeFault> {
        Ok(cursor.u8()?)
    }
}

impl Item for u32 {
    ghost Tree = { ℕ };

    ghost tree = { λ x. x };

    ghost Takes = { λ _. TakesUnsigned 32 };

    ghost Wants = { λ _ _. ⊥ };

    ghost unique = { λ _. unsigned-unique 32 };

    fn decode(_: Global, _: Profile, cursor: &mut Cursor) -> Result<Self, DecodeFault> {
        Ok(cursor.u32()?)
    }
}

// One after the other.
impl<A: Item, B: Item> Item for (A, B) {
    ghost Tree = { A.Tree × B.Tree };

    ghost tree = { λ p. (A.tree p.0, B.tree p.1) };

    ghost Takes = { λ p. TakesPair (A.Takes p) (B.Takes p) };

    ghost Wants = { λ p. WantsPair (A.Takes p) (A.Wants p) (B.Wants p) };

    ghost unique = { λ p. pair-unique (A.Takes p) (B.Takes p) (A.unique p) (B.unique p) };

    fn decode(alloc: Global, profile: Profile, cursor: &mut Cursor) -> Result<Self, DecodeFault> {
        let first = A::decode(alloc, profile, cursor)?;
        let second = B::decode(alloc, profile, cursor)?;
        Ok((first, second))
    }
}

// A vector: a count, and that many. Source: Core Specification 1.0, section 5.1.3.
impl<T: Item> Item for Items<T> {
    ghost Tree = { List T.Tree };

    ghost tree = { λ xs. map T.tree xs };

    ghost Takes = { λ p. TakesVec (T.Takes p) };

    ghost Wants = { λ p. WantsVec (T.Takes p) (T.Wants p) };

    ghost unique = { λ p. vec-unique (T.Takes p) (T.unique p) };

    fn decode(alloc: Global, profile: Profile, cursor: &mut Cursor) -> Result<Self, DecodeFault> {
        let count = cursor.u32()?;
        let mut items = Vec::new(alloc);
        for _ in 0..count {
            let item = T::decode(alloc, profile, cursor)?;
            items.push(item)?;
        }
        Ok(Items::new(items))
    }
}

// A size, and that many bytes.
pub(crate) fn read_bytes<'a>(cursor: &mut Cursor<'a>) -> Result<&'a [u8], DecodeFault>
    ensures read { ReadsAs TakesBytes (λ xs. xs.now) cursor.old cursor.new result }
    ensures wanted { IsErrOf result DecodeFault.NoMemory → ⊥ }
{
    let size = cursor.u32()?;
    Ok(cursor.take(size as usize)?)
}

// The item that is all of these bytes.
pub(crate) fn decode_whole<T: Item>(
    alloc: Global,
    profile: Profile,
    bytes: &[u8],
) -> Result<T, DecodeFault>
    ensures read { Decodes (λ x. T.Takes profile x bytes.now []) T.tree result }
    ensures wanted { IsErrOf result DecodeFault.NoMemory → T.Wants profile bytes.now }
{
    let mut cursor = Cursor::new(bytes);
    let item = T::decode(alloc, profile, &mut cursor)?;
    if cursor.is_at_end() {
        Ok(item)
    } else {
        Err(DecodeFault::Malformed)
    }
}
