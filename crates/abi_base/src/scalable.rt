//! Parts of scalable vectors.

ghost use Rattle.std.specs.Prelude.{◌≡◌, ◌≤◌};
ghost use Rattle.std.specs.Option.{SomeIff};

/// How many scalable vectors a value has; more than one for a tuple of them.
#[derive(Clone, Copy, PartialEq, Eq, Hash, Debug)]
pub struct NumScalableVectors(pub u8);

impl NumScalableVectors {
    /// One, as for a value that is no tuple.
    pub fn for_non_tuple() -> NumScalableVectors
        ensures { result.0 ≡ 1 }
    {
        NumScalableVectors(1)
    }

    /// As many as a tuple has fields: 2 to 8, and none for another count.
    pub fn from_field_count(count: usize) -> Option<NumScalableVectors>
        ensures { SomeIff result ((2 ≤ count) × (count ≤ 8)) (record { 0 = count }) }
    {
        if 2 <= count && count <= 8 {
            Some(NumScalableVectors(count as u8))
        } else {
            None
        }
    }
}

/// What a type that is marked as a scalable vector has in it.
#[derive(Clone, Copy, PartialEq, Eq, Debug)]
pub enum ScalableElt {
    /// A vector of this many elements of the one scalar field.
    ElementCount(u16),
    /// Scalable vectors.
    Container,
}
