//! Literals, hashes, texts of clauses and scripts, and proof steps and their encoding.
#![tactic(auto)]

mod decimal;
mod device;
mod dimacs;
mod dimacs_writer;
mod extend;
mod flat_lists;
mod formula;
mod hash;
mod law_dimacs;
mod law_hash;
mod law_judge;
mod law_lit;
mod law_step;
mod law_text;
mod lit;
mod steps;
mod table;
mod text;
mod var;

pub use decimal::reading::{append_digit, read_number, take_text};
pub use decimal::{MOST_DIGITS, push_decimal, write_decimal};
pub use device::{Counted, CountedRead, CountedWrite, Feed, ReadError, read_into, read_whole};
pub use dimacs::DimacsParser;
pub use dimacs::error::{DimacsError, IncrementalError};
pub use dimacs_writer::write_dimacs;
pub use extend::ExtendFormula;
pub use flat_lists::{FlatLists, FlatListsIter};
pub use formula::error::FormulaError;
pub use formula::{CnfFormula, CnfFormulaIter};
pub use hash::{ClauseHash, clause_hash, lit_hash};
pub use law_dimacs::{dimacs_laws, dimacs_rows, written_dimacs_is_read};
pub use law_hash::permuted_clauses_hash_alike;
pub use law_judge::judge_laws;
pub use law_lit::{
    equal_literals_hash_alike, equal_variables_hash_alike, order_of_literals, order_of_variables,
};
pub use law_step::{
    steps_have_one_form, steps_have_one_spelling, texts_are_read_one_way,
    written_steps_are_spellings,
};
pub use law_text::script_laws;
pub use lit::Lit;
pub use steps::{
    DeleteClauseProof, HashBits, ProofStep, StepError, StepReader, StepWriter, push_leb128,
    write_step,
};
pub use table::Table;
pub use text::{Token, Tokenizer};
pub use var::{MaybeVar, Var};
