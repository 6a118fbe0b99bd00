//! What would be right in place of a fault, in words.
use script::fault::{BodyFault, ByteFault, RowFault};

/// The columns of a row with a letter, where the letter is known.
fn columns(letter: Option<u8>) -> &'static str {
    match letter {
        Some(b'F') => "F: to is the field's number, a its label (0 to 3), b to f are 0",
        Some(b'P') => "P: to is 0, a the count of parameters (0 to 4), b to f are 0",
        Some(b'N') => "N: to is a variable, a any number, b to f are 0",
        Some(b'T') => "T: to is a variable, a to f are 0",
        Some(b'C' | b'G') => "C and G: to and a are variables, b to f are 0",
        Some(b'A' | b'D' | b'L') => "A, D and L: to, a and b are variables, c to f are 0",
        Some(b'I') => "I: to is 0, a is a variable, b and c are 0 to 32, d to f are 0",
        Some(b'M') =>
            "M: to is a variable or -1, a a variable, b a method (0 to 3), c to f variables, with -1 only after the last",
        Some(b'O') => "O: to is a variable, a a class (0 to 7), b a level (0 to 3), c to f are 0",
        Some(b'R') => "R: to is 0, a is a variable, b to f are 0",
        _ => "each column in the range that its letter asks, and 0 where it is not used",
    }
}

/// What would be right in place of a fault, where the blamed line has a letter.
pub fn advise(fault: &BodyFault, letter: Option<u8>) -> &'static str {
    match fault {
        BodyFault::Rows(RowFault::Bytes(ByteFault::Names { .. })) =>
            "class method op to a b c d e f, and a line feed",
        BodyFault::Rows(RowFault::Bytes(ByteFault::Form { .. })) =>
            "ten values with single spaces and a line feed; the third one of F P N T C A D L I M G O R, the others numbers of 32 bits without leading zero, plus or -0",
        BodyFault::Rows(RowFault::Sequence { .. }) =>
            "classes 0 to 7; in a class fields 0 to 7 (F, method 0), then methods 0 to 3 (P, then 1 to 32 statements); all without gaps",
        BodyFault::Rows(RowFault::Range { .. }) => columns(letter),
        BodyFault::Body { .. } =>
            "1 to 32 statements, R last, only there and in no branch; branches end inside what encloses them and nest at most four deep",
    }
}
