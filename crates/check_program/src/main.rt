// Reads an account file on standard input and writes `A` where it is accepted, or `R`, the refusal and the record.
#![tactic(auto)]

use account::accounts::check;
use account::answers::Refusal;
use reading::input::{ROOM, called_alone, read_input};
use reading::lines::print_refused;

fn print_verdict(rt: &impl Print, answer: Result<(), Refusal>) {
    if !print_refused(rt, answer) {
        let _ = println!(rt; "A");
    }
}

fn main(rt: HostRuntime) {
    if !called_alone(&rt, b"usage: check_program < ACCOUNT\n") {
        return;
    }
    let mut file = [0u8; ROOM];
    let input = read_input(&rt, &mut file);
    if input.whole {
        let n = input.bytes;
        print_verdict(&rt, check(&file[..n]));
    }
}
