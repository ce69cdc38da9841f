//! The order in which the variants of an enum are compared.

/// Proves that these variants of an enum have ascending numbers.
#[macro_export]
macro_rules! prove_ascending {
    (@ $kind:ident: $last:ident) => { true };
    (@ $kind:ident: $one:ident, $next:ident $(, $more:ident)*) => {
        ($kind::$one as u8) < $kind::$next as u8
            && $crate::prove_ascending!(@ $kind: $next $(, $more)*)
    };
    ($kind:ident: $($variant:ident),+) => {
        prove!($crate::prove_ascending!(@ $kind: $($variant),+))
    };
}
