//! The law of header properties, as a clause of a function that does nothing.
ghost use Rattle.std.specs.Prelude.{◌≡◌, ◌↔◌, ℕ, List, Some};
ghost use Rattle.email_properties.specs.HeaderAsked.{HeaderAsked};
ghost use Rattle.email_properties.specs.HeaderProperties.{IsHeaderProperty, header_in};

/// A text is a header property exactly where it is read as that one, so that none is two.
pub fn one_header_property()
    ensures read { (h : HeaderAsked) (key : List ℕ) → IsHeaderProperty h key ↔ (header_in key ≡ Some h) }
    ensures one { (g h : HeaderAsked) (key : List ℕ) → IsHeaderProperty g key → IsHeaderProperty h key → g ≡ h }
{}
