// Runs the worked examples that stand on standard input, and prints a line for each with what our functions answer.
//
// The input is decimal words in at most 65,536 bytes. Any bytes that are no digits divide them, so lines are only for
// the reader, and notes without digits may stand between. An example is KIND COUNT and then COUNT words, at most 8,192;
// words that are missing at the end are 0.
// KIND is 0: load, 4: signed, 5: less, 6: add, 7: subtract; another kind is printed as unknown.
//
// It writes by io and not by println!, which would end the program at a failed write, and this one goes on.
#![tactic(auto)]

mod line;
mod text;

use line::{begin, end, print, print_signed};
use text::Words;
use words::numbers::{add, less, signed, subtract};
use words::reading::word_at;
use words::script::{ScriptError, check_script};

// What an example asks for. The numbers of the kinds are the input's, so they stand in `of` alone.
#[derive(Clone, Copy, PartialEq, Eq, Debug)]
enum Kind {
    Load,
    Signed,
    Less,
    Add,
    Subtract,
}

impl Kind {
    fn of(word: u16) -> Option<Kind> {
        match word {
            0 => Some(Kind::Load),
            4 => Some(Kind::Signed),
            5 => Some(Kind::Less),
            6 => Some(Kind::Add),
            7 => Some(Kind::Subtract),
            _ => None,
        }
    }

    fn name(self) -> &'static [u8] {
        match self {
            Kind::Load => b"load",
            Kind::Signed => b"signed",
            Kind::Less => b"less",
            Kind::Add => b"add",
            Kind::Subtract => b"subtract",
        }
    }
}

// Load's number, by hand: the enum that has the numbers, LoadError, is engine's, and this program stands on words.
fn load_number(script: &[u16]) -> u16 {
    match check_script(script) {
        Ok(()) => 0,
        Err(ScriptError::NotFormed) => 10,
        Err(ScriptError::HoldsHandle) => 11,
        Err(ScriptError::NotClosed) => 12,
    }
}

// load SCRIPT : the answer
// signed W : what the word means
// less A B : 1 if the first is smaller by its signed meaning, else 0
// add A B : the sum
// subtract A B : the difference
fn print_answer(kind: Kind, example: &[u16]) {
    let a = word_at(example, 0);
    let b = word_at(example, 1);
    match kind {
        Kind::Load => print(load_number(example)),
        Kind::Signed => print_signed(signed(a)),
        Kind::Less => print(less(a, b) as u16),
        Kind::Add => print(add(a, b)),
        Kind::Subtract => print(subtract(a, b)),
    }
}

// Prints the line of an example.
fn answer(kind: Option<Kind>, example: &[u16]) {
    match kind {
        Some(kind) => {
            begin(kind.name(), example);
            print_answer(kind, example);
        }
        None => begin(b"unknown", example),
    }
    end();
}

// Reads the rest of an example of the kind, and answers it.
fn answer_next(kind: Option<Kind>, words: &mut Words) {
    let count = words.next().unwrap_or(0).min(8192) as usize;
    let mut space = [0; 8192];
    let example = &mut space[..count];
    for word in example.iter_mut() {
        *word = words.next().unwrap_or(0);
    }
    answer(kind, example);
}

// A line for each example. None is shorter than a byte, so the bytes are turns enough: a bound that needs no proof.
fn answer_all(text: &[u8]) {
    let mut words = Words { bytes: text.iter() };
    for _ in text {
        let Some(kind) = words.next() else {
            return;
        };
        answer_next(Kind::of(kind), &mut words);
    }
}

fn main() {
    let mut input = io::large_buffer();
    let n = io::read_full(0, &mut input);
    answer_all(&input[..n]);
}
