//! The entropy coders of JBIG2 (ITU-T T.88): the arithmetic coder with its integers and symbol ids
//! (Annexes A, E and G), prefix codes (Annex B), and the lengths of codes.
#![tactic(auto)]

pub mod arithmetic_decoder;
pub mod code_length;
pub mod huffman_table;
pub mod integer_decoder;
pub mod integer_procedures;
pub mod mq;
pub mod symbol_id_decoder;
pub mod table_selection;
