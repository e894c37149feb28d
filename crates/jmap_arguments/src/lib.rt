//! What methods of JMAP share (RFC 8620): errors and arguments, ids, the states of types, what a /get answers, and
//! Core/echo.
#![tactic(auto)]

// Requests and errors.
mod method_error;
mod using;

// Arguments and answers.
mod arguments;
mod core_echo;
mod gets;
mod ids;
mod members;
mod numbers;
mod state;

pub use arguments::{
    ACCOUNT_ID, MAX_OBJECTS_IN_GET, MAX_WHOLE_NUMBER, check_account, check_count, is_among,
    most_or_null, text_at, texts_in, texts_or_null, whole_in, whole_or_null,
};
pub use core_echo::{echo, has_fraction};
pub use gets::{AskedNumbers, asked_numbers, count_of_ids, distinct, get_value, is_new};
pub use ids::{EMAIL_LETTER, MAILBOX_LETTER, THREAD_LETTER, id_list, id_text, id_value, read_id};
pub use members::put_text;
pub use method_error::{MethodError, error_arguments};
pub use numbers::Numbers;
pub use state::{State, read_place, read_state, state_text};
pub use using::Using;
