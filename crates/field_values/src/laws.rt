// Laws of forms and header properties.
ghost use Rattle.std.specs.Prelude.{◌≡◌, ℕ, ℤ, false, List};
ghost use Rattle.serde_json.specs.Data.{Data};
ghost use Rattle.serde_json.specs.Written.{has_float};
ghost use Rattle.mail_header.specs.Fields.{NameAndRaw};
ghost use Rattle.email_properties.specs.HeaderAsked.{HeaderAsked};
ghost use Rattle.email_properties.specs.declared.header_form.HeaderForm.{HeaderForm};
ghost use Rattle.field_values.specs.Forms.{IsFormData};
ghost use Rattle.field_values.specs.HeaderProperties.{IsHeaderPropertyData, headers_data};
ghost use Rattle.field_values.specs.UtcDates.{IsUtcData};

/// No raw value has two data in one form.
pub fn one_form_data()
    ensures { (form : HeaderForm) (raw : List ℕ) (d e : Data) → IsFormData form raw d → IsFormData form raw e → d ≡ e }
{}

/// No fields have two data of one header property.
pub fn one_property_data()
    ensures { (asked : HeaderAsked) (fields : List NameAndRaw) (d e : Data) → IsHeaderPropertyData asked fields d → IsHeaderPropertyData asked fields e → d ≡ e }
{}

/// No time has two UTCDates.
pub fn one_utc_date()
    ensures { (seconds : ℤ) (d e : Data) → IsUtcData seconds d → IsUtcData seconds e → d ≡ e }
{}

/// No number in them has a fraction: there is none.
pub fn properties_are_whole()
    ensures property { (asked : HeaderAsked) (fields : List NameAndRaw) (d : Data) → IsHeaderPropertyData asked fields d → has_float d ≡ false }
    ensures headers { (fields : List NameAndRaw) → has_float (headers_data fields) ≡ false }
{}
