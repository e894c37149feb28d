//! Laws of answers, as clauses of functions that do nothing: what was asked and how it was answered, whatever is asked later, tells how much
//! of it was asked for a call, and what the call answers.
ghost use Rattle.std.specs.Prelude.{◌≡◌, ◌++◌, ℕ, List, Result};
ghost use Rattle.serde_json.specs.Data.{Data};
ghost use Rattle.email_bodies.specs.Asking.{BodyAsk};
ghost use Rattle.jmap_arguments.specs.declared.method_error.MethodError.{MethodError};
ghost use Rattle.mail_maps.specs.Rows.{Rows};
ghost use Rattle.mail_state.specs.History.{MailHistory};
ghost use Rattle.email_get.specs.Blobs.{FindsBlob, OctetsFound};
ghost use Rattle.email_get.specs.EmailGet.{RepliesEmailGet};
ghost use Rattle.email_get.specs.EmailParse.{RepliesEmailParse};

/// An Email/get has one answer.
pub fn one_get_answer()
    ensures { (h : MailHistory) (d : Data) (asks more also later : List BodyAsk) (r s : Result Data MethodError)
        → RepliesEmailGet h d asks r → RepliesEmailGet h d also s → asks ++ more ≡ also ++ later → (asks ≡ also) × (r ≡ s) }
{}

/// An Email/parse has one.
pub fn one_parse_answer()
    ensures { (h : MailHistory) (uploads : List (List ℕ)) (d : Data) (asks more also later : List BodyAsk) (r s : Result Data MethodError)
        → RepliesEmailParse h uploads d asks r → RepliesEmailParse h uploads d also s → asks ++ more ≡ also ++ later → (asks ≡ also) × (r ≡ s) }
{}

/// A blob id names one thing.
pub fn one_blob_found()
    ensures { (emails : Rows) (uploads : List (List ℕ)) (id : List ℕ) (asks more also later : List BodyAsk) (r s : OctetsFound)
        → FindsBlob emails uploads id asks r → FindsBlob emails uploads id also s → asks ++ more ≡ also ++ later → (asks ≡ also) × (r ≡ s) }
{}
