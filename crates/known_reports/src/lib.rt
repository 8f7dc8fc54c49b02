// Values of the reports that are known from published documents: each computed by the engine's own functions, and all of them as one
// theorem about the definitions that the contracts of these functions cite.
#![tactic(auto)]

ghost use Rattle.std.specs.Prelude.{◌≡◌, true};
ghost use Rattle.known_reports.specs.Values.{ReportedValues};

mod reported;

// Whether the engine's functions give the known values. They do, and so do the definitions that their contracts cite.
pub fn reported_values_hold() -> bool
    ensures theorem { ReportedValues }
    ensures value { result ≡ true }
{
    reported::losses_stand() && reported::estimate_is_not_counted()
}
