// Laws of the properties of the body.
ghost use Rattle.std.specs.Prelude.{◌≡◌, false};
ghost use Rattle.serde_json.specs.Data.{Data, Members};
ghost use Rattle.serde_json.specs.Written.{has_float, members_have_float};
ghost use Rattle.email_properties.specs.Wanted.{BodyAsked, EmailAsked};
ghost use Rattle.email_properties.specs.declared.email_property.EmailProperty.{EmailProperty};
ghost use Rattle.body_parts.specs.BodyProperties.{AddsBodyProperties, IsBodyProperty};
ghost use Rattle.body_parts.specs.Messages.{MessageData};

/// No message has two data of one property of its body, and so it adds the asked ones in one way.
pub fn one_body()
    ensures property { (m : MessageData) (asked : BodyAsked) (p : EmailProperty) (d e : Data) → IsBodyProperty m asked p d → IsBodyProperty m asked p e → d ≡ e }
    ensures members { (m : MessageData) (asked : EmailAsked) (before x y : Members) → AddsBodyProperties m asked before x → AddsBodyProperties m asked before y → x ≡ y }
{}

/// No number in them has a fraction.
pub fn bodies_are_whole()
    ensures property { (m : MessageData) (asked : BodyAsked) (p : EmailProperty) (d : Data) → IsBodyProperty m asked p d → has_float d ≡ false }
    ensures members { (m : MessageData) (asked : EmailAsked) (before after : Members) → AddsBodyProperties m asked before after → members_have_float before ≡ false
        → members_have_float after ≡ false }
{}
