// The reckoned examples P1 to P4 of document 01 and that of request 2026-03 of document 02: what each spread forms in its two
// steps, and net, used and unused of each prompt, all in ten-thousandths.
#![tactic(auto)]

use spread::book::{Book, delta_book};
use spread::{Delta, Leg, MOST_PROMPTS, MOST_SPREADS, Prompts, Spread, Table};

// Prompts by their tiers and net deltas, the earliest of a tier first; none beyond the most.
fn prompts(given: &[(u8, i64)]) -> Prompts {
    let count = given.len().min(MOST_PROMPTS);
    let mut tier = [0; MOST_PROMPTS];
    let mut net = [Delta(0); MOST_PROMPTS];
    for k in 0..count {
        tier[k] = given[k].0;
        net[k] = Delta(given[k].1);
    }
    Prompts { count, tier, net }
}

// Spreads of leg A against leg B, by their tiers and ratios; none beyond the most.
fn table(given: &[(u8, u16, u8, u16)], tenths: bool) -> Table {
    let none = Leg {
        tier: 0,
        side: 0,
        ratio: 0,
    };
    let unused = Spread {
        legs: 0,
        tenths: false,
        leg: [none; 3],
    };
    let count = given.len().min(MOST_SPREADS);
    let mut spread = [unused; MOST_SPREADS];
    for k in 0..count {
        let (a, a_ratio, b, b_ratio) = given[k];
        let long = Leg {
            tier: a,
            side: 1,
            ratio: a_ratio,
        };
        let short = Leg {
            tier: b,
            side: 2,
            ratio: b_ratio,
        };
        spread[k] = Spread {
            legs: 2,
            tenths,
            leg: [long, short, short],
        };
    }
    Table { count, spread }
}

fn print_delta(rt: &impl Print, delta: Delta) {
    let sign = if delta.is_short() { "-" } else { "" };
    let size = delta.size();
    let _ = print!(rt; " {sign}{size}");
}

fn print_spread(rt: &impl Print, first: u64, second: u64) {
    let _ = println!(rt; "spread {first} {second}");
}

fn print_prompt(rt: &impl Print, net: Delta, used: Delta, unused: Delta) {
    let _ = print!(rt; "prompt");
    print_delta(rt, net);
    print_delta(rt, used);
    print_delta(rt, unused);
    let _ = println!(rt);
}

fn print_spreads(rt: &impl Print, count: usize, book: Book) {
    for k in 0..count.min(MOST_SPREADS) {
        print_spread(rt, book.first[k].0, book.second[k].0);
    }
}

fn print_prompts(rt: &impl Print, prompts: Prompts, book: Book) {
    for k in 0..prompts.count.min(MOST_PROMPTS) {
        print_prompt(rt, prompts.net[k], book.used[k], book.unused[k]);
    }
}

fn print_case(rt: &impl Print, prompts: Prompts, table: Table) {
    let book = delta_book(prompts, table);
    print_spreads(rt, table.count, book);
    print_prompts(rt, prompts, book);
}

fn p1(rt: &impl Print) {
    let _ = println!(rt; "P1");
    let p = prompts(&[
        (1, -300000),
        (2, 200000),
        (2, -50000),
        (3, 1000000),
        (3, -100000),
        (3, -100000),
    ]);
    let t = table(
        &[
            (1, 1, 1, 1),
            (2, 1, 2, 1),
            (3, 1, 3, 1),
            (1, 1, 2, 1),
            (2, 1, 3, 1),
            (1, 1, 3, 1),
        ],
        false,
    );
    print_case(rt, p, t);
}

fn p2(rt: &impl Print) {
    let _ = println!(rt; "P2");
    let p = prompts(&[(1, 180000), (1, -60000), (2, -40000), (3, 38101)]);
    let t = table(&[(1, 1, 1, 1), (1, 1, 2, 1), (1, 1, 3, 1)], false);
    print_case(rt, p, t);
}

fn p3(rt: &impl Print) {
    let _ = println!(rt; "P3");
    let p = prompts(&[(1, 30001), (1, -50000)]);
    let t = table(&[(1, 2, 1, 1)], false);
    print_case(rt, p, t);
}

fn p4(rt: &impl Print) {
    let _ = println!(rt; "P4");
    let p = prompts(&[(1, 100000), (2, -100000), (3, -100000)]);
    let t = table(&[(1, 1, 2, 1), (1, 1, 3, 1)], false);
    print_case(rt, p, t);
}

fn tenths(rt: &impl Print) {
    let _ = println!(rt; "2026-03");
    let p = prompts(&[(1, 1200000), (2, -10012)]);
    let t = table(&[(1, 96, 2, 10)], true);
    print_case(rt, p, t);
}

fn main(rt: HostRuntime) {
    p1(&rt);
    p2(&rt);
    p3(&rt);
    p4(&rt);
    tenths(&rt);
}
