ghost use Rattle.std.specs.Prelude.{◌≡◌, IfSome, Option, None, Some};
ghost use Rattle.std.specs.Option.{option_map};
ghost use Rattle.std.specs.contracts.option.Option as option;
ghost use Rattle.berylwool.specs.declared.owned.Held.{Held};
ghost use Rattle.berylwool.specs.contracts.owned.Held as held;
ghost use Rattle.berylwool.specs.Handles.{IsGood, handle_owns};

use crate::loose::Loose;
use crate::owned::Held;
use std::alloc::Global;
use std::marker::Model;
use std::{mem, ptr};

/// A handle as C has it: it owns a value of this library, or is empty. With all bits 0 it is empty.
#[repr(C)]
#[derive(Drop)]
pub struct BwHandle {
    at: *mut u8,
    alloc: Global,
    ghost held: { Option Held } by { (option.the_row held.the_row).coded },
}

impl Model for BwHandle {
    ghost also_owns = { λ h. handle_owns h.at h.alloc h.held };
}

impl BwHandle {
    // An empty handle.
    pub(crate) fn empty(alloc: Global) -> BwHandle
        ensures { result.held ≡ None }
    {
        BwHandle {
            at: ptr::null_mut(),
            alloc,
        }
    }

    // A handle that owns what was in a box.
    pub(crate) fn of(loose: Loose<Held, Global>) -> BwHandle
        requires good { IsGood loose.value }
        ensures held { result.held ≡ Some loose.value }
    {
        let Loose { at, alloc } = loose;
        BwHandle {
            at: at as *mut u8,
            alloc,
        }
    }

    // What the handle owns.
    pub(crate) fn into_loose(self) -> Option<Loose<Held, Global>>
        ensures good { IfSome result (λ loose. IsGood loose.value) }
        ensures held { option_map (λ loose. loose.value) result ≡ self.held }
    {
        let BwHandle { at, alloc } = self;
        if at.is_null() {
            None
        } else {
            Some(Loose {
                at: at as *mut Held,
                alloc,
            })
        }
    }
}

// Compiles only for what may go to another thread, as C is told that a handle may.
fn sent<T: Send>(value: T) -> T
    ensures { result ≡ value }
{
    value
}

// Takes what a handle owns out of it, and leaves it empty.
pub(crate) fn take(handle: &mut BwHandle, alloc: Global) -> Option<Box<Held, Global>>
    ensures good { IfSome result (λ held. IsGood held.value) }
    ensures held { option_map (λ held. held.value) result ≡ handle.old.held }
    ensures empty { handle.new.held ≡ None }
{
    let taken = mem::replace(handle, BwHandle::empty(alloc));
    match taken.into_loose() {
        Some(loose) => Some(loose.into_box()),
        None => None,
    }
}

// Makes a handle own a value.
pub(crate) fn put(handle: &mut BwHandle, held: Box<Held, Global>)
    requires { IsGood held.value }
    ensures { handle.new.held ≡ Some held.value }
{
    let _empty = mem::replace(handle, BwHandle::of(Loose::of(sent(held))));
}

// The status of `$call` on the value of this kind that a handle owns, and keeps; 1202 if it owns none. It is a
// macro so that `$call` is proved in the function that uses it, where the call's other values are known.
macro_rules! with_held {
    ($handle:ident, $alloc:ident, $kind:ident, |$it:ident| $call:expr) => {{
        let Some(mut held) = $crate::handle::take($handle, $alloc) else {
            return $crate::status::NO_HANDLE;
        };
        let $crate::owned::Held::$kind($it) = &mut *held else {
            $crate::handle::put($handle, held);
            return $crate::status::NO_HANDLE;
        };
        let status = $call;
        $crate::handle::put($handle, held);
        status
    }};
}

pub(crate) use with_held;

// Frees what a handle owns, and returns an empty handle.
pub(crate) fn freed(alloc: Global, handle: BwHandle) -> BwHandle
    ensures { result.held ≡ None }
{
    let _held = match handle.into_loose() {
        Some(loose) => Some(loose.into_box()),
        None => None,
    };
    BwHandle::empty(alloc)
}
