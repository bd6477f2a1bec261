//! The image of a valid module.
ghost use Rattle.std.specs.Prelude.{◌≡◌, None, IfErr, IfOk, OnOk};
ghost use Rattle.wasm_types.specs.Tree.{module_tree};
ghost use Rattle.wasm_spec.specs.Store.{first_misfit};
ghost use Rattle.initial_image.specs.Image.{IsImageOf};
ghost use Rattle.initial_image.specs.Segments.{Names};

use crate::fill::{filled_memory, first_values};
use crate::segments::{Misfit, check_data, check_elements};
use sparse_bytes::SparseBytes;
use std::alloc::{AllocError, Global};
use thiserror::Error;
use wasm_validate::Valid;
use wasm_values::{Items, NoMemory, Val};

/// What a new instance of a module holds beside its table, which [`write_table`](crate::write_table) writes. Source: Core
/// Specification 1.0, section 4.5.4.
pub struct Image {
    /// The memory's bytes.
    pub memory: SparseBytes,
    /// The first value of each global.
    pub globals: Items<Val>,
    /// The index of the start function.
    pub start: Option<u32>,
}

impl Drop for Image {
    fn drop(self) {
        let Image {
            memory: _,
            globals: _,
            start: _,
        } = self;
    }
}

/// Why a module has no image.
#[derive(Clone, Copy, Debug, PartialEq, Eq, Error)]
pub enum ImageFault {
    /// A segment does not fit.
    #[error("{0}")]
    Segment(Misfit),
    /// Memory was refused.
    #[error("out of memory")]
    NoMemory,
}

impl From<AllocError> for ImageFault {
    ghost use Rattle.initial_image.specs.declared.image.ImageFault.TheVariants.{NoMemory};

    ghost from_gives = { λ _ e. e ≡ NoMemory };

    fn from(_: AllocError) -> ImageFault {
        ImageFault::NoMemory
    }
}

impl From<NoMemory> for ImageFault {
    ghost use Rattle.initial_image.specs.declared.image.ImageFault.TheVariants as fault;

    ghost from_gives = { λ _ e. e ≡ fault.NoMemory };

    fn from(_: NoMemory) -> ImageFault {
        ImageFault::NoMemory
    }
}

/// The image of a module. It takes memory in proportion to the bytes of the module's data segments and to its globals, whatever its least
/// sizes are.
///
/// # Errors
///
/// `Segment` with the first segment that ends past its table or memory: the element segments in order and then the data
/// segments, empty ones too, with their offsets read as unsigned numbers. `NoMemory` in place of any answer.
pub fn build(alloc: Global, valid: &Valid) -> Result<Image, ImageFault>
    ensures fits { OnOk result (first_misfit (module_tree valid.now) ≡ None) }
    ensures image { IfOk result (IsImageOf (module_tree valid.now)) }
    ensures misfit { IfErr result (Names (first_misfit (module_tree valid.now))) }
{
    let m = valid.module();
    check_elements(m)?;
    check_data(m)?;
    let memory = filled_memory(alloc, m)?;
    let globals = first_values(alloc, m.globals.as_slice())?;
    Ok(Image {
        memory,
        globals: Items::new(globals),
        start: m.start,
    })
}
