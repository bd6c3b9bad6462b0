// A text store that leaves its bytes where they were first written: the text is a list of pieces of
// a memory, and an edit changes the list.
#![tactic(auto)]

mod piece_list;
mod pieces;
mod spelling;
mod splicing;
mod table;

pub use table::PieceTable;
