//! The values on which calls are made are linear, but a thread's closure holds only values that can be dropped: `DropBomb`
//! carries a linear value there.
ghost use Rattle.std.specs.Prelude.{◌≡◌};

use std::sync::Wait;

/// Carries a linear value where only values that can be dropped are allowed, as in a thread's closure and its result. Its drop
/// never returns, so the value can't be lost: open it instead.
pub struct DropBomb<R: Wait + Drop, T> {
    rt: R,
    /// The linear value.
    pub value: T,
}

impl<R: Wait + Drop, T> Drop for DropBomb<R, T> {
    fn drop(self) {
        let DropBomb { rt, value: _value } = self;
        for _ in rt.forever() {}
        unreachable!()
    }
}

impl<R: Wait + Drop, T> DropBomb<R, T> {
    /// Wraps a value. `rt` is the capability by which its drop would wait.
    pub fn new(rt: R, value: T) -> Self
        ensures { result.value ≡ value }
    {
        DropBomb { rt, value }
    }

    /// Returns the value.
    pub fn open(self) -> T
        ensures { result ≡ self.value }
    {
        let DropBomb { rt: _rt, value } = self;
        value
    }
}
