//! The layout calculator.
ghost use Rattle.std.specs.Prelude.{◌≡◌};

/// Lays out types under a data layout.
#[derive(Clone, Copy, Debug)]
pub struct LayoutCalculator<Cx> {
    pub cx: Cx,
}

impl<Cx> LayoutCalculator<Cx> {
    /// A calculator under the data layout that `cx` lends.
    pub fn new(cx: Cx) -> Self
        ensures { result.cx ≡ cx }
    {
        LayoutCalculator { cx }
    }
}
