// Which fields a filter searches.

use query_arguments::{EmailCondition, Filter};
use query_conditions::{RecordCondition, TextField};

/// The fields of whose texts conditions speak.
const FIELDS: [TextField; 5] = [
    TextField::From,
    TextField::To,
    TextField::Cc,
    TextField::Bcc,
    TextField::Subject,
];

fn searches(condition: &EmailCondition, field: TextField) -> bool {
    match condition {
        EmailCondition::Record(
            RecordCondition::InField {
                field: its,
                words: _,
            },
        ) => *its == field,
        _ => false,
    }
}

/// How many conditions of the filters search the field.
#[cycle(searched)]
fn searches_in_each(filters: &[Filter<EmailCondition>], field: TextField) -> u64 {
    let mut count: u64 = 0;
    for filter in filters {
        count = count.saturating_add(searches_in(filter, field));
    }
    count
}

/// How many conditions of the filter search the field.
#[cycle(searched)]
fn searches_in(filter: &Filter<EmailCondition>, field: TextField) -> u64 {
    match filter {
        Filter::Conditions(conditions) => {
            conditions.iter().filter(|c| searches(*c, field)).count() as u64
        }
        Filter::Joined(_, filters) => searches_in_each(filters, field),
    }
}

/// Whether two conditions of the filter search one field.
pub(crate) fn searches_again(filter: &Filter<EmailCondition>) -> bool {
    FIELDS.iter().any(|field| searches_in(filter, *field) > 1)
}
