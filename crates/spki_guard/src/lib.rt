//! The guard: the commands of `spki`, from the octets that are read to those that are written.
#![tactic(auto)]

mod answers;
mod capped_sink;
mod commands;
mod entry_lines;
mod fold_printer;
mod intersection;
pub mod line_laws;
mod lines;
mod opened_answers;
mod pages;
mod printed;
mod printer;
mod program;
mod queries;
mod question_answers;
mod refusals;
mod reports;
mod runs;
mod separate_rows;
mod sources;
mod statuses;
mod tag_printer;

pub use answers::Verdict;
pub use commands::answer_text;
pub use intersection::{IntersectFault, intersect};
pub use metered_io::Metered;
pub use opened_answers::{OpenedAnswer, answer_opened, is_granted, is_possible, open_question};
pub use printed::Printed;
pub use program::run_words;
pub use queries::Query;
pub use question_answers::{refused_list, refused_question};
pub use runs::run;
pub use separate_rows::{check_accepted, one_answer_apart};
pub use spki_case::{AcceptedTable, Case, CaseFault, Row, RowsFault, Verifier};
pub use spki_decision::{
    Decision, EntryFold, Explanation, GuardFault, Reason, Reduction, Stop, decide, explain,
    first_named, laws, reduce_case,
};
pub use spki_service::{
    AclFault, AskFault, Failure, FoldSink, Grant, Guard, Limits, Moment, OwnedQuestion,
    OwnedSigned, Part, PreparedQuestion, Question, RequestInput, SharedGuard, Signed, Texts,
    last_second,
};
pub use spki_words::{Command, WordsFault, command_of};
pub use statuses::Status;
