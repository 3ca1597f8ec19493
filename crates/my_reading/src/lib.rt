//! What the bytes of a connection come to for each of its calls.
#![tactic(auto)]

mod answer;
mod call;
mod error;
mod executing;
mod facts;
mod law;
mod renewing;
mod row;
mod settings;
mod statements;
mod transaction;
mod unfit;
mod version;

pub use answer::Answer;
pub use call::{Call, CallKind};
pub use error::{DriverError, Error, IoError, IoFault, IoKind, OtherError, ServerError};
pub use executing::{MOST_VALUES, execution, values_for};
pub use facts::{Facts, PreparedReply};
pub use law::{
    columns_are_known, new_statement_is_first, one_statement_leaves, prepare_tells_nothing,
    steps_lead_to_course, steps_stay,
};
pub use my_statements::SetColumns;
pub use renewing::{change_stand, changed, renewal_packet, renews_by_reset};
pub use row::read_row;
pub use settings::{Settings, Stage};
pub use statements::Statements;
pub use transaction::{Trial, TxStatus, begin_refusal, begin_text, commit_text, rollback_text};
pub use unfit::{invalid_data, unfit_error};
pub use version::{can_reset, can_set_access};
