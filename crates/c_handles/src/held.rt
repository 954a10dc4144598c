//! A pointer in C's memory that owns a value on the heap, or nothing.
ghost use Rattle.std.specs.Prelude.{◌≡◌, Option, None, Some};
ghost use Rattle.c_handles.specs.Held.{held_owns, body_coded};
ghost use Rattle.c_handles.specs.declared.body.Object.{Object};

use crate::body::Object;
use crate::parts::RawBox;
use std::alloc::Global;
use std::marker::Model;
use std::ptr;

/// A pointer that owns the value to which it points, or nothing. Dropping it would leak the value, so take the value out first.
#[repr(C)]
#[derive(Drop)]
pub struct OwnedPtr {
    ptr: *mut u8,
    alloc: Global,
    /// The value, if there is one.
    pub ghost body: { Option Object } by { body_coded },
}

impl Model for OwnedPtr {
    ghost also_owns = { λ h. held_owns h.alloc h.ptr h.body };
}

// A raw pointer isn't `Send`. C may pass a handle to another thread because its value, an `Object`, is proved to be `Send`.
unsafe impl Send for OwnedPtr {}

impl OwnedPtr {
    ghost use Rattle.std.specs.Prelude.{◌≡◌, Some, None, is_some, true};
    ghost use Rattle.std.specs.Borrow.{sem};
    ghost use Rattle.c_handles.specs.Loans.{LendsHeld};
    ghost use Rattle.c_handles.specs.declared.body.Object.{Object};

    /// Returns an owning pointer with the fields of a box.
    #[inline]
    pub fn of_parts(parts: RawBox<Object, Global>) -> OwnedPtr
        ensures { result.body ≡ Some parts.value }
    {
        let RawBox { ptr, alloc } = parts;
        OwnedPtr {
            ptr: ptr as *mut u8,
            alloc,
        }
    }

    /// Returns the fields of a box, if the pointer owns a value.
    #[inline]
    pub fn into_parts(self) -> RawBox<Object, Global>
        requires { (x : Object) × (self.body ≡ Some x) }
        ensures { self.body ≡ Some result.value }
    {
        let OwnedPtr { ptr, alloc } = self;
        RawBox {
            ptr: ptr as *mut Object,
            alloc,
        }
    }

    /// Lends the value; there is one.
    #[inline]
    pub fn as_mut(&mut self) -> &mut Object
        requires { is_some self.old.body ≡ true }
        ensures* writes_back { sem 𝓛 (LendsHeld self.entry result) }
        ensures value { self.old.body ≡ Some result.now }
    {
        // C keeps the pointer, so no `Box` can be borrowed: the value is owned by this struct (`also_owns`), and lent by it.
        unsafe { &mut *(self.ptr as *mut Object) }
    }

    /// Returns a pointer that owns nothing.
    #[inline]
    pub fn none(alloc: Global) -> OwnedPtr
        ensures { result.body ≡ None }
    {
        OwnedPtr {
            ptr: ptr::null_mut(),
            alloc,
        }
    }
}
