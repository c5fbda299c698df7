// A block's two sums: over 126 words, by adding that wraps.
ghost use Rattle.std.specs.Prelude.{◌≡◌, ◌*◌, ◌%◌, ◌^◌};
ghost use Rattle.block.specs.Sums.{grown, summed, sums_of, sums_right, sealed};
ghost use Rattle.block.specs.Code.Turns.{no_sums, turned, TurnsTo};

use crate::read::word_at;
use crate::write::put_word;
use crate::{SIZE, Sums};
use std::array;

// Six words are summed in a turn, and 21 turns have all 126.
const TURN: usize = 24;

const TURNS: usize = 21;

// Before the first word.
const NO_SUMS: Sums = Sums {
    first: 0,
    second: 0,
};

// The sums with a word more.
#[tactic(auto, unfolding(crate::specs::Sums::grown))]
fn grow(s: Sums, word: u32) -> Sums
    ensures { result ≡ grown s word }
{
    let first = s.first.wrapping_add(word);
    let second = s.second.wrapping_add(first);
    Sums { first, second }
}

// Of a turn's words by themselves.
fn turn_sums(turn: &[u8; TURN]) -> Sums
    ensures { result ≡ summed no_sums turn.now 0 6 }
{
    let (words, _) = turn.as_chunks::<4>();
    words
        .iter()
        .fold(NO_SUMS, |s, word| grow(s, u32::from_le_bytes(*word)))
}

// Of each turn. No turn waits for another; where they were made on the way, the compiler would add each word to the sums so far.
fn turns_of(b: &[u8; SIZE]) -> [Sums; TURNS]
    ensures { TurnsTo b.now result }
{
    let (turns, _) = b.as_chunks::<TURN>();
    array::from_fn(|i| turn_sums(&turns[i]))
}

// x as many times as a turn has words, by adding.
#[tactic(auto, using(crate::proofs::Turns::six_times))]
fn times_words(x: u32) -> u32
    ensures { result ≡ 6 * x % 2 ^ 32 }
{
    let two = x.wrapping_add(x);
    let four = two.wrapping_add(two);
    four.wrapping_add(two)
}

// The sums with a turn more, whose words have the sums t by themselves: each of them adds the first sum to the second once more.
fn turn(s: Sums, t: Sums) -> Sums
    ensures { result ≡ turned 6 s t }
{
    let first = s.first.wrapping_add(t.first);
    let own = times_words(s.first).wrapping_add(t.second);
    let second = s.second.wrapping_add(own);
    Sums { first, second }
}

// The two running sums of words 0 to 125: from turn to turn.
fn sums_of(b: &[u8; SIZE]) -> Sums
    ensures { result ≡ sums_of b.now }
{
    turns_of(b).iter().fold(NO_SUMS, |s, t| turn(s, *t))
}

// Is this a whole block, and are its sums right?
#[tactic(auto, unfolding(crate::specs::Sums::sums_right))]
pub fn sums_right(b: &[u8]) -> bool
    ensures { result ≡ sums_right b.now }
{
    let Some(block) = b.as_array::<SIZE>() else {
        return false;
    };
    let written = Sums {
        first: word_at(b, 504),
        second: word_at(b, 508),
    };
    written == sums_of(block)
}

// Writes a block's sums. What is no whole block is left as it is.
pub fn seal(b: &mut [u8])
    ensures { b.new ≡ sealed b.old }
{
    let Some(block) = b.as_array::<SIZE>() else {
        return;
    };
    let s = sums_of(block);
    put_word(&mut *b, 504, s.first);
    put_word(&mut *b, 508, s.second);
}
