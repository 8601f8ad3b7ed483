// Helpers of the test programs: cases in lines of text, tables in bytes, lent buffers, and printing.
#![tactic(auto)]

pub mod buffers;
pub mod encode;
pub mod show;
pub mod text;
pub mod written;
