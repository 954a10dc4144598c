//! The queue for an instance, by its number in C.
ghost use Rattle.std.specs.Prelude.{◌≡◌};
ghost use Rattle.c_handles.specs.Kinds.{kind_in};

use napi_model::Kind;

/// Returns the kind with this number (`enum fq_kind`), if there is one.
pub fn kind_of(kind: u32) -> Option<Kind>
    ensures { result ≡ kind_in kind }
{
    match kind {
        0 => Some(Kind::List),
        1 => Some(Kind::Thread),
        _ => None,
    }
}
