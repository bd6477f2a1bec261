//! The sections of a module.

ghost use Rattle.std.specs.Prelude.{◌≡◌, ◌↔◌, ◌<◌, ◌≤◌, ℕ, [], IsTrue, IfOk, IsErrOf, map, option_map};
ghost use Rattle.wasm_spec.specs.Numbers.{TakesEach, TakesUnsigned};
ghost use Rattle.wasm_spec.specs.Grammar.{TakesSection, IsCustom, IsOrderedAbove, SpellsVec, SpellsStart, SpellsCount, last_id, place, section};
ghost use Rattle.instr_decode.specs.Decoding.{ReadsAs};
ghost use Rattle.instr_decode.specs.Wants.{BeginsWith};
ghost use Rattle.wasm_decode.specs.Decoding.{Decodes};
ghost use Rattle.wasm_decode.specs.Sections.{section_of, WantsSection};

use crate::item::{Item, decode_whole, read_bytes};
use instr_decode::DecodeFault;
use leb_read::Cursor;
use std::alloc::Global;
use wasm_values::{Items, Profile};

// A section: its id, and its contents. Source: Core Specification 1.0, section 5.5.2.
#[derive(Clone, Copy)]
pub(crate) struct Section<'a> {
    pub(crate) id: u8,
    pub(crate) contents: &'a [u8],
}

// The section at the cursor, which then stands just after it.
fn read_section<'a>(cursor: &mut Cursor<'a>) -> Result<Section<'a>, DecodeFault>
    ensures section { ReadsAs TakesSection section_of cursor.old cursor.new result }
    ensures forth { IfOk result (λ _. cursor.old.place < cursor.new.place) }
    ensures wanted { IsErrOf result DecodeFault.NoMemory → ⊥ }
{
    let id = cursor.u8()?;
    let contents = read_bytes(cursor)?;
    Ok(Section { id, contents })
}

// All sections.
pub(crate) fn read_sections<'a>(
    alloc: Global,
    bytes: &'a [u8],
) -> Result<Vec<Section<'a>>, DecodeFault>
    ensures read { Decodes (λ ss. TakesEach TakesSection ss bytes.now []) (λ ss. map section_of ss.items) result }
    ensures wanted { IsErrOf result DecodeFault.NoMemory → BeginsWith TakesSection bytes.now }
{
    let mut cursor = Cursor::new(bytes);
    let mut sections = Vec::new(alloc);
    while !cursor.is_at_end() {
        let section = read_section(&mut cursor)?;
        sections.push(section)?;
    }
    Ok(sections)
}

// Whether these are the contents of a custom section: a name, and then any bytes. Source: section 5.5.3.
fn is_custom(contents: &[u8]) -> bool
    ensures { IsTrue result ↔ IsCustom contents.now }
{
    Cursor::new(contents).name().is_ok()
}

// The greatest id of a section.
fn last_id(profile: Profile) -> u8
    ensures { result ≡ last_id profile }
{
    match profile {
        Profile::One => 11,
        Profile::Two | Profile::Three => 12,
    }
}

// The place of a section in the order, by its id.
fn place(id: u8) -> u8
    requires { id ≤ 12 }
    ensures { result ≡ place id }
{
    if id == 12 { 19 } else { id * 2 }
}

// Whether custom sections have names, and the others are in order. Source: section 5.5.15.
pub(crate) fn are_in_order(profile: Profile, sections: &[Section]) -> bool
    ensures { IsTrue result ↔ IsOrderedAbove profile 0 (map section_of sections.now) }
{
    let most = last_id(profile);
    let mut last = 0;
    for section in sections {
        if section.id == 0 {
            if !is_custom(section.contents) {
                return false;
            }
        } else {
            if most < section.id {
                return false;
            }
            let here = place(section.id);
            if here <= last {
                return false;
            }
            last = here;
        }
    }
    true
}

// The contents of the section of an id.
pub(crate) fn find_contents<'a>(sections: &[Section<'a>], id: u8) -> Option<&'a [u8]>
    ensures { option_map (λ c. c.now) result ≡ option_map (λ s. s.contents) (section id (map section_of sections.now)) }
{
    for section in sections {
        if section.id == id {
            return Some(section.contents);
        }
    }
    None
}

// The items of the section of an id; none without the section. Source: section 5.5.2.
pub(crate) fn decode_section<T: Item>(
    alloc: Global,
    profile: Profile,
    sections: &[Section],
    id: u8,
) -> Result<Items<T>, DecodeFault>
    ensures read { Decodes (λ xs. SpellsVec (T.Takes profile) xs (section id (map section_of sections.now))) (map T.tree) result }
    ensures wanted { IsErrOf result DecodeFault.NoMemory → WantsSection (T.Takes profile) (T.Wants profile) (section id (map section_of sections.now)) }
{
    match find_contents(sections, id) {
        Some(contents) => decode_whole(alloc, profile, contents),
        None => Ok(Items::new(Vec::new(alloc))),
    }
}

// The start function, if there is a start section. Source: section 5.5.11.
pub(crate) fn decode_start(
    alloc: Global,
    profile: Profile,
    sections: &[Section],
) -> Result<Option<u32>, DecodeFault>
    ensures read { Decodes (λ x. SpellsStart x (section 8 (map section_of sections.now))) (λ x. x) result }
    ensures wanted { IsErrOf result DecodeFault.NoMemory → ⊥ }
{
    match find_contents(sections, 8) {
        Some(contents) => {
            let index = decode_whole(alloc, profile, contents)?;
            Ok(Some(index))
        }
        None => Ok(None),
    }
}

// Whether these bytes are a number, and no more.
fn spells_number(contents: &[u8], number: usize) -> bool
    ensures { IsTrue result ↔ TakesUnsigned 32 number contents.now [] }
{
    let mut cursor = Cursor::new(contents);
    match cursor.u32() {
        Ok(n) => n as usize == number && cursor.is_at_end(),
        Err(_) => false,
    }
}

// Whether the data count section, if there is one, says this number. Source: Core Specification 2.0, section 5.5.16.
pub(crate) fn is_counted(sections: &[Section], number: usize) -> bool
    ensures { IsTrue result ↔ SpellsCount number (section 12 (map section_of sections.now)) }
{
    match find_contents(sections, 12) {
        Some(contents) => spells_number(contents, number),
        None => true,
    }
}
