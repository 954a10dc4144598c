//! The handles of C programs.
ghost use Rattle.std.specs.Prelude.{◌≡◌, Option, None, Some, is_some, IfSome, IsNone};
ghost use Rattle.c_handles.specs.declared.body.Object.{Object};

use crate::body::Object;
use crate::held::OwnedPtr;
use crate::parts::RawBox;
use std::alloc::Global;
use std::mem;

/// A handle in the C program's memory: `struct fq_handle`. If its bytes are all 0, it has no object.
#[repr(C)]
#[derive(Drop)]
pub struct FqHandle {
    set: bool,
    /// The object that it owns, if there is one.
    pub held: OwnedPtr,
    ghost is_set: { is_some held.body ≡ set },
}

impl FqHandle {
    /// Returns a handle without an object.
    #[inline]
    fn none(alloc: Global) -> FqHandle
        ensures { result.held.body ≡ None }
    {
        FqHandle {
            set: false,
            held: OwnedPtr::none(alloc),
        }
    }

    /// Returns a handle with this object.
    #[inline]
    fn of(body: Box<Object, Global>) -> FqHandle
        ensures { result.held.body ≡ Some body.value }
    {
        FqHandle {
            set: true,
            held: OwnedPtr::of_parts(RawBox::of(body)),
        }
    }

    /// Returns whether the handle has an object.
    #[inline]
    pub fn is_set(&self) -> bool
        ensures { result ≡ is_some self.now.held.body }
    {
        self.set
    }

    #[inline]
    fn open(self) -> Option<Box<Object, Global>>
        ensures some { IfSome result (λ b. self.held.body ≡ Some b.value) }
        ensures none { IsNone result → self.held.body ≡ None }
    {
        let FqHandle { set, held } = self;
        if set {
            Some(held.into_parts().into_box())
        } else {
            None
        }
    }

    /// Takes the object out of the handle.
    #[inline]
    pub fn take(&mut self, alloc: Global) -> Option<Box<Object, Global>>
        ensures some { IfSome result (λ b. self.old.held.body ≡ Some b.value) }
        ensures none { IsNone result → self.old.held.body ≡ None }
        ensures left { self.new.held.body ≡ None }
    {
        mem::replace(self, FqHandle::none(alloc)).open()
    }

    /// Puts an object into a handle that has none.
    #[inline]
    pub fn put(&mut self, body: Box<Object, Global>)
        ensures { self.new.held.body ≡ Some body.value }
    {
        *self = FqHandle::of(body);
    }
}
