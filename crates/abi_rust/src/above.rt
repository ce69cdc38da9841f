//! The types that a type stands in.

ghost use Rattle.std.specs.Prelude.{◌≡◌, ◌∷◌, ◌+◌, [], IfErr, IfOk, None};
ghost use Rattle.abi_rust.specs.Resolving.{most_deep};
ghost use Rattle.abi_rust.specs.Tails.{outer_of, stands_in};
ghost use Rattle.abi_rust.specs.Types.{all_given, givens};

use crate::budget::{less, most_deep};
use crate::fault::{FaultKind, Stop};
use crate::ty::{GenericArg, same_givens};

/// The types that a type stands in, each in the next.
#[derive(Clone, Copy)]
pub(crate) enum Above<'s> {
    /// It stands alone.
    Nothing,
    /// It stands in the item of this number under what that is given, which stands in others.
    Type(u32, &'s [GenericArg], &'s Above<'s>),
}

/// The types that a type stands in, and how deep it may need others.
#[derive(Clone, Copy)]
pub(crate) struct Nesting<'s> {
    pub(crate) above: Above<'s>,
    pub(crate) depth_left: u32,
}

impl<'s> Nesting<'s> {
    /// That of a type that stands alone, with all depth left.
    pub(crate) fn alone() -> Nesting<'static>
        ensures outer { outer_of result.above ≡ [] }
        ensures depth { result.depth_left ≡ most_deep }
    {
        Nesting {
            above: Above::Nothing,
            depth_left: most_deep(),
        }
    }

    /// The same types, for what is needed there: one less deep. `TooDeep` where no depth is left.
    pub(crate) fn deeper(self) -> Result<Nesting<'s>, Stop>
        ensures outer { IfOk result (λ inner. outer_of inner.above ≡ outer_of self.entry.above) }
        ensures depth { IfOk result (λ inner. inner.depth_left + 1 ≡ self.entry.depth_left) }
        ensures err { IfErr result
            (λ e. (self.entry.depth_left ≡ 0) × (e ≡ Stop.Fault None FaultKind.TooDeep)) }
    {
        let depth_left = less(self.depth_left)?;
        Ok(Nesting { depth_left, ..self })
    }

    /// That of the parts of an item under what it is given, which stands in these types.
    pub(crate) fn inside(&'s self, number: u32, given: &'s [GenericArg]) -> Nesting<'s>
        ensures outer { outer_of result.above ≡ (number, givens (all_given given.now)) ∷ outer_of self.now.above }
        ensures depth { result.depth_left ≡ self.now.depth_left }
    {
        Nesting {
            above: Above::Type(number, given, &self.above),
            depth_left: self.depth_left,
        }
    }
}

/// Whether the item stands in itself under the same arguments.
pub(crate) fn stands_in(above: &Above<'_>, number: u32, given: &[GenericArg]) -> bool
    ensures { result ≡ stands_in (outer_of above.now) number (givens (all_given given.now)) }
{
    match above {
        Above::Nothing => false,
        Above::Type(other, arguments, next) => {
            (*other == number && same_givens(arguments, given)) || stands_in(next, number, given)
        }
    }
}
