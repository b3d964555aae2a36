// The words of a result: the place, and after it what the call gives back.
ghost use Rattle.std.specs.Prelude.{◌≡◌, ◌≤◌, ◌∷◌, length, replicate};
ghost use Rattle.std.proofs.lemmas.List.Edits.{sets};
ghost use Rattle.fields.specs.Judged.{given, number_of};
ghost use Rattle.fields.specs.Numbers.{fault_number};
ghost use Rattle.oysterfold.specs.Result.{result_words, value_told, words_of};

use fields::refusal::{Fault, Refusal};

// 12, for what is lent too short.
pub(crate) const NO_ROOM: u32 = Fault::NoRoom as u32;

// Place and value.
pub(crate) const RESULT_WORDS: usize = 2;

// Stores words from the start on.
pub(crate) fn put_words(res: &mut [u64], words: &[u64])
    requires { length words.now ≤ length res.old }
    ensures { res.new ≡ sets res.old 0 words.now }
{
    res[..words.len()].copy_from_slice(words);
}

// Tells an answer: its value at place 0, or the place of its refusal with 0 for the value.
pub(crate) fn tell(res: &mut [u64], answer: Result<usize, Refusal>) -> u32
    requires { result_words ≤ length res.old }
    ensures value { result ≡ number_of (given answer) }
    ensures res_after { res.new ≡ sets res.old 0 (words_of (given answer)) }
{
    match answer {
        Ok(value) => {
            put_words(res, &[0, value as u64]);
            0
        }
        Err(e) => {
            put_words(res, &[e.place as u64, 0]);
            u32::from(e.fault)
        }
    }
}

// Tells a refusal that has no place.
pub(crate) fn unplaced(res: &mut [u64], fault: Fault) -> u32
    requires { result_words ≤ length res.old }
    ensures { (result ≡ fault_number fault) × (res.new ≡ value_told 0 res.old) }
{
    tell(res, Err(fault.at(0)))
}
