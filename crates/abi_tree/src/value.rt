//! Values, whatever their type.

pub(crate) mod decide;
pub(crate) mod error;
pub(crate) mod named;
pub(crate) mod number;
pub(crate) mod read;
pub(crate) mod same;
pub(crate) mod walk;
pub(crate) mod write;

ghost use Rattle.std.specs.Prelude.{◌≡◌, ℕ, List};
ghost use Rattle.abi_tree.specs.Value.{Values, number, two, list, variant, state, bytes, value_of, values_of};

/// A value, whatever its type. Numbers are whole numbers of at most 128 bits, as the bytes of their scalars make them:
/// a signed integer's or a float's bits, and an address. Which values a type has depends on its tree, and for a union
/// on its layout, too.
#[derive(Drop, Debug, PartialEq, Eq)]
pub enum Value {
    /// A number of a scalar; a signed or a floating one by its bits.
    Num(u128),
    /// The two numbers of a pair of scalars, in the order of the type.
    Pair(u128, u128),
    /// One value for each element, lane or field, and none for unit.
    List(Vec<Value>),
    /// A variant's index, and one value for each of its fields.
    Variant(usize, Vec<Value>),
    /// A coroutine in one of its states.
    State {
        /// The state's index.
        state: usize,
        /// One value for each prefix field.
        prefix: Vec<Value>,
        /// One value for each local that the state keeps, in the state's order.
        locals: Vec<Value>,
    },
    /// A union's data bytes, ascending.
    Union(Vec<u8>),
}

impl Value {
    /// Its number, or 0 where it is of another kind.
    pub(crate) fn number(&self) -> u128
        ensures { (n : ℕ) → value_of self.now ≡ number n → result ≡ n }
    {
        match self {
            Value::Num(n) => *n,
            _ => 0,
        }
    }

    /// Its two numbers, or 0 and 0 where it is of another kind.
    pub(crate) fn pair(&self) -> (u128, u128)
        ensures { (n m : ℕ) → value_of self.now ≡ two n m → (result.0 ≡ n) × (result.1 ≡ m) }
    {
        match self {
            Value::Pair(n, m) => (*n, *m),
            _ => (0, 0),
        }
    }

    /// The values of a list, or none where it is of another kind.
    pub(crate) fn list(&self) -> &[Value]
        ensures { (vs : Values) → value_of self.now ≡ list vs → values_of result.now ≡ vs }
    {
        match self {
            Value::List(values) => values,
            _ => &[],
        }
    }

    /// A variant's index and the values of its fields, or 0 and none where it is of another kind.
    pub(crate) fn variant(&self) -> (usize, &[Value])
        ensures { (i : ℕ) (vs : Values) → value_of self.now ≡ variant i vs → (result.0 ≡ i) ×
            (values_of result.1.now ≡ vs) }
    {
        match self {
            Value::Variant(index, values) => (*index, values),
            _ => (0, &[]),
        }
    }

    /// A state's index, the values of the prefix fields and those of its locals, or 0 and none where it is of another
    /// kind.
    pub(crate) fn state(&self) -> (usize, &[Value], &[Value])
        ensures { (i : ℕ) (ps vs : Values) → value_of self.now ≡ state i ps vs →
            (result.0 ≡ i) × (values_of result.1.now ≡ ps) × (values_of result.2.now ≡ vs) }
    {
        match self {
            Value::State {
                state,
                prefix,
                locals,
            } => (*state, prefix, locals),
            _ => (0, &[], &[]),
        }
    }

    /// The data bytes of a union, or none where it is of another kind.
    pub(crate) fn union(&self) -> &[u8]
        ensures { (content : List ℕ) → value_of self.now ≡ bytes content → result.now ≡ content }
    {
        match self {
            Value::Union(content) => content,
            _ => &[],
        }
    }
}
