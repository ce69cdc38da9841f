//! Laws of what may be done with a type's bytes. Each function does nothing: its clauses are what is proved.

ghost use Rattle.std.specs.Prelude.{◌≡◌, ◌↔◌, ℕ};
ghost use Rattle.abi_bytes.specs.GoesInto.{BytesHoldValues, GoesInto, IsArrayOfBytes, IsFromBytes, IsIntoBytes, IsWrapper, SetCellsTakeNothing, Stored, size_of_stored};

/// Cells that are all bytes hold a type exactly where those bytes hold a value of it; and a set cell in place of nothing takes
/// nothing away.
pub fn cells_and_values()
    ensures bytes { (a : Stored) → BytesHoldValues a }
    ensures set { (a : Stored) → SetCellsTakeNothing a }
{}

/// Each type goes into itself, and what goes from one to another and from there to a third goes from the first to the third. A
/// type that wraps another goes into it, and it into the type.
pub fn types_into_types()
    ensures self_into_self { (a : Stored) → GoesInto a a }
    ensures through { (a b c : Stored) → GoesInto a b → GoesInto b c → GoesInto a c }
    ensures unwrapped { (a b : Stored) → IsWrapper a b → GoesInto a b }
    ensures wrapped { (a b : Stored) → IsWrapper a b → GoesInto b a }
{}

/// A type may be taken from bytes exactly where as many `u8` go into it, and for bytes exactly where it goes into as many `u8`.
/// One that may be taken from bytes takes each type of its size that may be taken for bytes.
pub fn bytes_and_types()
    ensures from_bytes { (bytes a : Stored) → IsArrayOfBytes (size_of_stored a) bytes →
        (IsFromBytes a ↔ GoesInto bytes a) }
    ensures into_bytes { (bytes a : Stored) → IsArrayOfBytes (size_of_stored a) bytes →
        (IsIntoBytes a ↔ GoesInto a bytes) }
    ensures from_into { (a b : Stored) → size_of_stored a ≡ size_of_stored b →
        IsIntoBytes a → IsFromBytes b → GoesInto a b }
{}
