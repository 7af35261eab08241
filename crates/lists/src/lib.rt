// A list of spreads that others send, judged against an account (request 2026-10): of one file, or of a noon file joined to the
// morning's.
#![tactic(auto)]

ghost use Rattle.std.specs.Prelude.{◌≡◌};
ghost use Rattle.lists.specs.Lists.{judged_to, joined_judged};

use account::accounts::nothing_of;
use account::answers::Refusal;
use account::lent::{NOTES, lend_file};
use account::noon::{JOINED, check_pair};
use margin::lists::{Judged, judge_lent, judge_over};

// What is said of a list of spreads that is sent for a question, 0 to 15 for that contract or 16 for the intercontract table. The
// list has a number for each step, of each spread its first step and then its second, in `numbers`; what each step used of each
// prompt, or of each contract, one step after the other, in `uses`; and it speaks of `sent` prompts. Nothing is written.
pub fn judge(
    file: &[u8],
    question: usize,
    sent: usize,
    numbers: &[i64],
    uses: &[i64],
) -> Result<Judged, Refusal>
    ensures { result ≡ judged_to file.now question sent numbers.now uses.now }
{
    let mut notes = [0u16; NOTES];
    lend_file(file, &mut notes)?;
    judge_lent(
        file,
        nothing_of(file),
        &notes,
        question,
        sent,
        numbers,
        uses,
    )
}

// What is said of a list, and which file a refusal is about.
#[derive(Clone, Copy)]
pub struct JudgedPair {
    pub file: usize,
    pub judged: Result<Judged, Refusal>,
}

// The same of the joined account of a pair of files.
pub fn judge_joined<'a>(
    morning: &'a [u8],
    noon: &'a [u8],
    question: usize,
    sent: usize,
    numbers: &[i64],
    uses: &[i64],
) -> JudgedPair
    ensures { result ≡ joined_judged morning.now noon.now question sent numbers.now uses.now }
{
    let checked = check_pair(morning, noon);
    match checked.verdict.answer {
        Ok(()) => JudgedPair {
            file: JOINED,
            judged: judge_over(
                morning,
                noon,
                checked.account,
                question,
                sent,
                numbers,
                uses,
            ),
        },
        Err(refusal) => JudgedPair {
            file: checked.verdict.file,
            judged: Err(refusal),
        },
    }
}
