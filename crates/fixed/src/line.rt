// Prints the line of an example: a name, the example's words, a colon, and what comes back.

// The descriptor of standard output.
const STDOUT_FILENO: i32 = 1;

// A space and the word.
pub fn print(word: u16) {
    io::write_all(STDOUT_FILENO, b" ");
    io::print_decimal(STDOUT_FILENO, word as u64);
}

// A space and the number, with its sign if it is negative.
pub fn print_signed(number: i32) {
    io::write_all(STDOUT_FILENO, b" ");
    if number < 0 {
        io::write_all(STDOUT_FILENO, b"-");
    }
    io::print_decimal(STDOUT_FILENO, number.unsigned_abs() as u64);
}

// What comes before the answer: each of the words after a space.
pub fn begin(name: &[u8], words: &[u16]) {
    io::write_all(STDOUT_FILENO, name);
    for word in words {
        print(*word);
    }
    io::write_all(STDOUT_FILENO, b" :");
}

pub fn end() {
    io::write_all(STDOUT_FILENO, b"\n");
}
