// The records of an expansion, written by the columns of a line's clauses: buckets, switch, tables, offsets, lines, and the room that they take.
#![tactic(auto)]

pub mod argument;
pub mod buckets;
pub mod choices;
pub mod clauses;
pub mod columns;
mod counting;
pub mod first_line;
mod index_records;
pub mod keys;
pub mod later_tables;
pub mod line;
pub mod lines;
pub mod rooms;
pub mod switched;
