// Reads an account file on standard input and writes for each contract `C` and its eight numbers, then `T` and the total;
// or only `R`, the refusal and the record.
#![tactic(auto)]

use margin::asking::Question;
use questions::plain::needed;
use reading::input::{ROOM, called_alone, read_input};
use reading::lines::{FIGURES, MOST_FIGURES, print_contract, print_refused, print_total};
use reading::numbers::{after, number_at};

// Eight numbers for each contract, then the total.
fn print_figures(rt: &impl Print, count: usize, numbers: &[i64]) {
    let mut rest = numbers;
    for _ in 0..count {
        print_contract(rt, rest);
        rest = after(rest, FIGURES);
    }
    print_total(rt, number_at(rest, 0));
}

fn answer(rt: &impl Print, file: &[u8]) {
    let mut numbers = [0i64; MOST_FIGURES];
    let answer = questions::plain::answer(file, Question::Figures, &mut numbers);
    if print_refused(rt, answer) {
        return;
    }
    print_figures(rt, needed(file, Question::Figures) / FIGURES, &numbers);
}

fn main(rt: HostRuntime) {
    if !called_alone(&rt, b"usage: margin_program < ACCOUNT\n") {
        return;
    }
    let mut file = [0u8; ROOM];
    let input = read_input(&rt, &mut file);
    if input.whole {
        let n = input.bytes;
        answer(&rt, &file[..n]);
    }
}
