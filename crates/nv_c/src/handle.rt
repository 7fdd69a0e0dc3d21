//! The handle by which C holds a mediator.

ghost use Rattle.std.specs.Prelude.{◌≡◌, MatchOption, Option, None, Some};
ghost use Rattle.nv_c.specs.Held.{hosted_coded};
ghost use Rattle.nv_c.specs.Promise.{IsKept};
ghost use Rattle.nv_c.specs.declared.held.Held.{Held as Hosted};

mod parts;

use crate::held::Held;
use parts::Parts;
use std::alloc::Global;
use std::marker::Model;
use std::mem;
use std::ptr::null_mut;

/// A handle: a null pointer where it holds nothing, and else where a mediator lies in memory of its own.
///
/// It is C's `nvmed`, which owns the mediator. A contract sees the mediator that it holds.
#[repr(C)]
pub struct Nvmed {
    at: *mut u8,
    pub ghost hosted: { Option Hosted } by { hosted_coded },
}

impl Model for Nvmed {
    ghost use Rattle.nv_c.specs.Held.{hosts};

    ghost also_owns = { λ h. hosts h.at h.hosted };
}

impl Nvmed {
    /// Takes the mediator out of the handle, which holds nothing then; `None` where it held nothing.
    pub(crate) fn take(&mut self, alloc: Global) -> Option<Box<Held>>
        ensures taken { MatchOption result (self.old.hosted ≡ None) (λ hosted. self.old.hosted ≡ Some hosted.value) }
        ensures empty { self.new.hosted ≡ None }
    {
        let parts = mem::replace(self, Nvmed::empty()).into_parts(alloc)?;
        Some(parts.into_box())
    }

    /// Puts a mediator into the handle, with what is promised of it. What it held before is given back.
    pub(crate) fn put(&mut self, alloc: Global, hosted: Box<Held>)
        ensures held { self.new.hosted ≡ Some hosted.value }
        ensures promised { IsKept hosted.value }
    {
        hosted.promise();
        let before = mem::replace(self, Nvmed::of_parts(Parts::of(hosted)));
        if let Some(parts) = before.into_parts(alloc) {
            drop(parts.into_box());
        }
    }

    // One that holds nothing.
    fn empty() -> Nvmed
        ensures { result.hosted ≡ None }
    {
        Nvmed { at: null_mut() }
    }

    // One that holds what these own.
    fn of_parts(parts: Parts<Held, Global>) -> Nvmed
        ensures { result.hosted ≡ Some parts.value }
    {
        let Parts { ptr, alloc: _ } = parts;
        Nvmed { at: ptr as *mut u8 }
    }

    // What it holds.
    fn into_parts(self, alloc: Global) -> Option<Parts<Held, Global>>
        ensures { MatchOption result (self.hosted ≡ None) (λ parts. self.hosted ≡ Some parts.value) }
    {
        let Nvmed { at } = self;
        if at.is_null() {
            return None;
        }
        let ptr = at as *mut Held;
        Some(Parts { ptr, alloc })
    }
}
