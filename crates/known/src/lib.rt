// Values of the market's rules that are known from published documents: each computed by the engine's own functions, and all of them
// as one theorem about the definitions that the contracts of these functions cite.
#![tactic(auto)]

ghost use Rattle.std.specs.Prelude.{◌≡◌, true};
ghost use Rattle.known.specs.Values.{KnownValues};

mod days;
pub mod meter;
mod order;
mod uses;

// Whether the engine's functions give the known values. They do, and so do the definitions that their contracts cite.
#[tactic(auto, using(crate::proofs::Values::known_values))]
pub fn known_values_hold() -> bool
    ensures theorem { KnownValues }
    ensures value { result ≡ true }
{
    days::has_periods(2025, 3, 30, 46)
        && days::has_periods(2025, 10, 26, 50)
        && days::starts_before(2025, 10, 25, 47)
        && order::larger_stands()
        && uses::default_has_class()
        && uses::empty_is_unused()
}
