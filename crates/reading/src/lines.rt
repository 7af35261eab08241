// Lines of numbers on standard output: a letter, then numbers, each after a space. A write that fails is passed over.
ghost use Rattle.std.specs.Prelude.{◌≡◌, not, eqb};
ghost use Rattle.account.specs.Answers.{number_of};

use crate::numbers::number_at;
use account::answers::{Refusal, number_of, record_of};
use account::parts::CONTRACTS;

// How many numbers the figures have of a contract, and at most: of sixteen contracts, and the total.
pub const FIGURES: usize = 8;

pub const MOST_FIGURES: usize = CONTRACTS * FIGURES + 1;

fn print_count(rt: &impl Print, n: usize) {
    let _ = print!(rt; " {n}");
}

fn print_number(rt: &impl Print, z: i64) {
    let _ = print!(rt; " {z}");
}

fn end_line(rt: &impl Print) {
    let _ = println!(rt);
}

// The figures of the contract whose numbers stand in front.
fn print_figures(rt: &impl Print, figures: &[i64]) {
    for k in 0..FIGURES {
        print_number(rt, number_at(figures, k));
    }
}

pub fn print_contract(rt: &impl Print, figures: &[i64]) {
    let _ = print!(rt; "C");
    print_figures(rt, figures);
    end_line(rt);
}

pub fn print_total(rt: &impl Print, total: i64) {
    let _ = print!(rt; "T");
    print_number(rt, total);
    end_line(rt);
}

// Writes `R`, the refusal and the record where an answer is a refusal, and says whether it is.
pub fn print_refused(rt: &impl Print, answer: Result<(), Refusal>) -> bool
    ensures { result ≡ not (eqb (number_of answer) 0) }
{
    let number = number_of(answer);
    if number == 0 {
        return false;
    }
    let _ = print!(rt; "R");
    print_count(rt, number);
    print_count(rt, record_of(answer));
    end_line(rt);
    true
}
