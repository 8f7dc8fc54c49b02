// What a kind of amount is.
ghost use Rattle.std.specs.Prelude.{◌≡◌, ℕ, ℤ};
ghost use Rattle.amounts.specs.Laws.{Algebra, Laws};
ghost use Rattle.amounts.specs.Sums.{Exact};

// Amounts are added in any order, and what was added can be taken away again. Their figures are whole numbers, which a sum of few and
// small amounts adds exactly.
pub trait Amount: Copy {
    ghost algebra: { Algebra Self };

    ghost laws: { Laws algebra };

    ghost figure: { Self → ℕ → ℤ };

    ghost exact: { Exact algebra figure };

    // Nothing.
    fn nothing() -> Self
        ensures { result ≡ algebra.zero };

    // Both together.
    fn add(self, other: Self) -> Self
        ensures { result ≡ algebra.plus self other };

    // What is left without the other.
    fn take_away(self, other: Self) -> Self
        ensures { result ≡ algebra.minus self other };
}
