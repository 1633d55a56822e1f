//! Text, exact both ways: decimal numbers, lines and pairs of hex digits.
#![tactic(auto)]

mod hexadecimal;
mod lines;
mod numbers;

pub use hexadecimal::{HexText, each_hex_text_is_read, put_hex, read_hex};
pub use lines::{Line, Lines, MAX_LINE};
pub use numbers::{Dec, each_number_is_read, put_dec, read_dec};
