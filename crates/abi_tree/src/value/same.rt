//! Whether two values are the same.

ghost use Rattle.std.specs.Prelude.{◌≡◌, ◌≢◌, MatchBool};
ghost use Rattle.abi_tree.specs.Value.{value_of, values_of};

use crate::value::Value;

/// Whether both are the same value.
#[cycle(same)]
pub(crate) fn is_same(a: &Value, b: &Value) -> bool
    ensures { MatchBool result (value_of a.now ≡ value_of b.now) (value_of a.now ≢ value_of b.now) }
{
    match a {
        Value::Num(n) => match b {
            Value::Num(m) => *n == *m,
            _ => false,
        },
        Value::Pair(n, p) => match b {
            Value::Pair(m, q) => *n == *m && *p == *q,
            _ => false,
        },
        Value::List(xs) => match b {
            Value::List(ys) => are_same(xs, ys),
            _ => false,
        },
        Value::Variant(i, xs) => match b {
            Value::Variant(j, ys) => *i == *j && are_same(xs, ys),
            _ => false,
        },
        Value::State {
            state: i,
            prefix: ps,
            locals: xs,
        } => match b {
            Value::State {
                state: j,
                prefix: qs,
                locals: ys,
            } => *i == *j && are_same(ps, qs) && are_same(xs, ys),
            _ => false,
        },
        Value::Union(xs) => match b {
            Value::Union(ys) => xs.as_slice() == ys.as_slice(),
            _ => false,
        },
    }
}

/// Whether both lists have the same values.
#[cycle(same)]
fn are_same(xs: &[Value], ys: &[Value]) -> bool
    ensures { MatchBool result (values_of xs.now ≡ values_of ys.now)
        (values_of xs.now ≢ values_of ys.now) }
{
    if xs.len() != ys.len() {
        return false;
    }
    for i in 0..xs.len() {
        if !is_same(&xs[i], &ys[i]) {
            return false;
        }
    }
    true
}
