//! The order of calling conventions, which is that of their names.

ghost use Rattle.std.specs.Prelude.{Some, ◌++◌};
ghost use Rattle.std.proofs.Common.{rules};
ghost use Rattle.std.specs.Hash as fed;
ghost use Rattle.std.specs.Cmp.Rules.{comparing, hashing};
ghost use Rattle.std.specs.Cmp.{partial_order_from_own_ties};
ghost use Rattle.std.specs.Ordering.{as_partial_cmp};
ghost use Rattle.abi_types.specs.ExternAbi.{abi_name, have_same_name, name_cmp};

use crate::extern_abi::ExternAbi;
use std::cmp::Ordering;
use std::hash::{Hash, Hasher};

/// What a hash is fed after the name, so that a longer name has none that begins alike.
const AFTER_THE_NAME: u32 = 0x4142_4900;

impl PartialEq for ExternAbi {
    ghost eq = { have_same_name };

    ghost laws = { Prim.search (comparing, rules) };

    fn eq(&self, other: &ExternAbi) -> bool {
        self.as_str() == other.as_str()
    }
}

impl Eq for ExternAbi {
    ghost laws = { Prim.search (comparing, rules) };
}

impl PartialOrd for ExternAbi {
    ghost partial_cmp = { as_partial_cmp name_cmp };

    ghost laws = { partial_order_from_own_ties (Prim.search (comparing, rules)) (Prim.search (comparing, rules)) };

    fn partial_cmp(&self, other: &ExternAbi) -> Option<Ordering> {
        Some(self.cmp(other))
    }
}

impl Ord for ExternAbi {
    ghost cmp = { name_cmp };

    ghost total = { Prim.search (comparing, rules) };

    ghost matches_partial_cmp = { Prim.search (comparing, rules) };

    ghost matches_eq = { Prim.search (comparing, rules) };

    fn cmp(&self, other: &ExternAbi) -> Ordering {
        self.as_str().cmp(other.as_str())
    }
}

impl Hash for ExternAbi {
    ghost hash_input = { λ abi. fed.str (abi_name abi) ++ fed.u32 0x4142_4900 };

    ghost respects_eq = { Prim.search (hashing, rules) };

    /// Its name, and then a number that no name goes on with.
    fn hash<H: Hasher>(&self, state: &mut H) {
        self.as_str().hash(state);
        AFTER_THE_NAME.hash(state);
    }
}
