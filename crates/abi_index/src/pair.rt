//! Two items side by side, and the one cast that reads them as an array.

ghost use Rattle.std.specs.Prelude.{◌≡◌, [], ◌∷◌};

/// Two items side by side, in this order, which are lent as one slice.
#[derive(Drop)]
#[repr(C)]
pub struct Pair<T> {
    pub first: T,
    pub second: T,
}

/// The pair as an array.
pub(crate) fn as_array<T>(pair: &Pair<T>) -> &[T; 2]
    ensures { result.now ≡ pair.now.first ∷ pair.now.second ∷ [] }
{
    // The second lies right behind the first: `repr(C)` keeps the order of fields, and a size is a multiple of the
    // alignment.
    unsafe { &*(pair as *const Pair<T> as *const [T; 2]) }
}
