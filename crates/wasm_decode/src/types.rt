//! Types.

ghost use Rattle.wasm_types.specs.declared.types.ValType.{ValType as ValTypeTree};
ghost use Rattle.wasm_types.specs.declared.types.FuncType.{FuncType as FuncTypeTree};
ghost use Rattle.wasm_types.specs.declared.types.Limits.{Limits as LimitsTree};
ghost use Rattle.wasm_types.specs.declared.types.GlobalType.{GlobalType as GlobalTypeTree};
ghost use Rattle.wasm_spec.specs.TypeGrammar.{TakesValType, TakesFuncType, TakesLimits, TakesTableType, TakesGlobalType};
ghost use Rattle.wasm_spec.proofs.UnambiguousTypes.{val_type-unique, func_type-unique, limits-unique, table_type-unique, global_type-unique};

use crate::item::Item;
use instr_decode::{DecodeFault, value_type};
use leb_read::Cursor;
use std::alloc::Global;
use wasm_types::{FuncType, GlobalType, Limits, ValType};
use wasm_values::{Items, Profile};

// Source: Core Specification 1.0, section 5.3.1.
impl Item for ValType {
    ghost Tree = { ValTypeTree };

    ghost tree = { λ t. t };

    ghost Takes = { λ _. TakesValType };

    ghost Wants = { λ _ _. ⊥ };

    ghost unique = { λ _. val_type-unique };

    fn decode(_: Global, _: Profile, cursor: &mut Cursor) -> Result<Self, DecodeFault> {
        let byte = cursor.u8()?;
        value_type(byte).ok_or(DecodeFault::Malformed)
    }
}

// Source: section 5.3.3.
impl Item for FuncType {
    ghost Tree = { FuncTypeTree };

    ghost tree = { λ t. t };

    ghost Takes = { λ _. TakesFuncType };

    ghost Wants = { ⟦<(u8, (Items<ValType>, Items<ValType>)) as Item>⟧.Wants };

    ghost unique = { λ _. func_type-unique };

    fn decode(alloc: Global, profile: Profile, cursor: &mut Cursor) -> Result<Self, DecodeFault> {
        let (tag, (params, results)) = <(u8, (Items<ValType>, Items<ValType>))>::decode(
            alloc, profile, cursor,
        )?;
        if tag == 0x60 {
            Ok(FuncType { params, results })
        } else {
            Err(DecodeFault::Malformed)
        }
    }
}

// A memory's type is its limits. Source: sections 5.3.4 and 5.3.5.
impl Item for Limits {
    ghost Tree = { LimitsTree };

    ghost tree = { λ l. l };

    ghost Takes = { λ _. TakesLimits };

    ghost Wants = { λ _ _. ⊥ };

    ghost unique = { λ _. limits-unique };

    fn decode(_: Global, _: Profile, cursor: &mut Cursor) -> Result<Self, DecodeFault> {
        let flag = cursor.u8()?;
        let min = cursor.u32()?;
        match flag {
            0x00 => Ok(Limits { min, max: None }),
            0x01 => {
                let max = cursor.u32()?;
                Ok(Limits {
                    min,
                    max: Some(max),
                })
            }
            _ => Err(DecodeFault::Malformed),
        }
    }
}

// A table's type: its limits, behind the type of its elements. Source: section 5.3.6.
#[derive(Drop)]
pub(crate) struct TableType {
    pub(crate) limits: Limits,
}

impl Item for TableType {
    ghost Tree = { LimitsTree };

    ghost tree = { λ t. t.limits };

    ghost Takes = { λ _. TakesTableType };

    ghost Wants = { λ _ _. ⊥ };

    ghost unique = { λ _. table_type-unique };

    fn decode(alloc: Global, profile: Profile, cursor: &mut Cursor) -> Result<Self, DecodeFault> {
        let (tag, limits) = <(u8, Limits)>::decode(alloc, profile, cursor)?;
        if tag == 0x70 {
            Ok(TableType { limits })
        } else {
            Err(DecodeFault::Malformed)
        }
    }
}

// Source: section 5.3.7.
impl Item for GlobalType {
    ghost Tree = { GlobalTypeTree };

    ghost tree = { λ g. g };

    ghost Takes = { λ _. TakesGlobalType };

    ghost Wants = { λ _ _. ⊥ };

    ghost unique = { λ _. global_type-unique };

    fn decode(alloc: Global, profile: Profile, cursor: &mut Cursor) -> Result<Self, DecodeFault> {
        let (value, mutability) = <(ValType, u8)>::decode(alloc, profile, cursor)?;
        match mutability {
            0x00 => Ok(GlobalType {
                value,
                mutable: false,
            }),
            0x01 => Ok(GlobalType {
                value,
                mutable: true,
            }),
            _ => Err(DecodeFault::Malformed),
        }
    }
}
