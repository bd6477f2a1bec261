//! Lists of which the short ones lie in the value itself, and take no memory.
ghost use Rattle.std.specs.Prelude.{◌≡◌, [], ◌∷◌, ◌++◌, IfOk, OnOk};

use smallvec::SmallVec;
use std::alloc::{AllocError, Global};
use std::marker::Model;
use wasm_values::Val;

/// The name of an export, which contracts see as its bytes. Up to 24 of them lie in the value.
#[derive(Drop)]
pub struct ExportName(SmallVec<u8, 24>);

impl Model for ExportName {
    ghost use Rattle.std.specs.Prelude.{ℕ, List};

    ghost Value = { List ℕ };

    ghost view = { λ name. name.0.items };
}

impl ExportName {
    /// A name of these bytes.
    ///
    /// # Errors
    ///
    /// `AllocError` where memory is refused.
    #[inline(always)]
    pub fn from_slice(alloc: Global, bytes: &[u8]) -> Result<ExportName, AllocError>
        ensures { IfOk result (λ name. name ≡ bytes.now) }
    {
        Ok(ExportName(SmallVec::from_slice(alloc, bytes)?))
    }

    pub fn as_slice(&self) -> &[u8]
        ensures { result.now ≡ self.now }
    {
        self.0.as_slice()
    }
}

// How many arguments lie in the value at most.
const FEW: usize = 4;

/// The arguments of a call, which contracts see as the list of them. Up to four lie in the value.
#[derive(Drop)]
pub struct Arguments {
    few: [Val; 4],
    count: usize,
    many: Vec<Val>,
}

impl Model for Arguments {
    ghost use Rattle.std.specs.Prelude.{◌≤◌, ◌==◌, List, length, take, if◌then◌else◌};
    ghost use Rattle.wasm_values.specs.declared.outcome.Val.{Val};

    ghost Value = { List Val };

    ghost view = { λ args. if length args.many.items == 0 then take args.count args.few else args.many.items };

    ghost invariant = { λ args. args.count ≤ 4 };
}

// The few arguments with one more behind them.
#[cold]
#[inline(never)]
fn with_one_more(alloc: Global, few: &[Val], arg: Val) -> Result<Vec<Val>, AllocError>
    ensures { IfOk result (λ args. args.items ≡ few.now ++ arg ∷ []) }
{
    let mut args = Vec::with_capacity(alloc, 2 * FEW)?;
    args.extend_from_slice(few)?;
    args.push(arg).map_err(|_| AllocError)?;
    Ok(args)
}

impl Arguments {
    /// No argument. Takes no memory.
    pub fn new(alloc: Global) -> Arguments
        ensures { result ≡ [] }
    {
        Arguments {
            few: [Val::I32(0); FEW],
            count: 0,
            many: Vec::new(alloc),
        }
    }

    /// Appends an argument.
    ///
    /// # Errors
    ///
    /// `AllocError` where memory is refused.
    pub fn push(&mut self, alloc: Global, arg: Val) -> Result<(), AllocError>
        ensures { OnOk result (self.new ≡ self.old ++ arg ∷ []) }
    {
        if !self.many.is_empty() {
            return self.many.push(arg).map_err(|_| AllocError);
        }
        if self.count == FEW {
            self.many = with_one_more(alloc, &self.few, arg)?;
            return Ok(());
        }
        self.few[self.count] = arg;
        self.count += 1;
        Ok(())
    }

    pub fn as_slice(&self) -> &[Val]
        ensures { result.now ≡ self.now }
    {
        if self.many.is_empty() {
            &self.few[..self.count]
        } else {
            self.many.as_slice()
        }
    }

    /// A copy of these.
    ///
    /// # Errors
    ///
    /// `AllocError` where memory is refused.
    pub fn copy(&self, alloc: Global) -> Result<Arguments, AllocError>
        ensures { IfOk result (λ copy. copy ≡ self.now) }
    {
        Ok(Arguments {
            few: self.few,
            count: self.count,
            many: Vec::from_slice(alloc, self.many.as_slice())?,
        })
    }
}
