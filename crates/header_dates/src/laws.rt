// Laws of dates.
ghost use Rattle.std.specs.Prelude.{◌≡◌, ℕ, List, Option};
ghost use Rattle.header_dates.specs.declared.date.Moment.{Moment};
ghost use Rattle.header_dates.specs.Dates.{IsDateForm};

/// No raw value has two dates.
pub fn one_date()
    ensures { (raw : List ℕ) (x y : Option Moment) → IsDateForm raw x → IsDateForm raw y → x ≡ y }
{}
