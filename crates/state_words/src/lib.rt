// A state as a row of words, in the struct's order: to show it, and to set any word of it.
#![tactic(auto)]

ghost use Rattle.std.specs.Prelude.{◌≡◌, ◌+◌, ◌<◌, ◌≤◌, length};
ghost use Rattle.state_words.specs.Words.{words_of, part, from_words, poked};

use sampler::Sampler;

// Every word of a state.
pub fn words_of(s: Sampler) -> [u64; 220]
    ensures { result ≡ words_of s }
{
    let front = [s.family, s.axes as u64];
    let bases = s.bases;
    let polynomials = s.polynomials;
    let directions = s.directions;
    let starts = s.starts;
    let run = [s.count, s.taken];
    let numerators = s.numerators;
    let mut words = [0u64; 220];
    bits::store(&mut words, 0, &front);
    bits::store(&mut words, 2, &bases);
    bits::store(&mut words, 8, &polynomials);
    bits::store(&mut words, 14, &directions);
    bits::store(&mut words, 206, &starts);
    bits::store(&mut words, 212, &run);
    bits::store(&mut words, 214, &numerators);
    words
}

// `N` words from a place on.
fn part<const N: usize>(words: &[u64], at: usize) -> [u64; N]
    requires { at + N ≤ length words.now }
    ensures { result ≡ part words.now at N }
{
    let mut row = [0u64; N];
    row.copy_from_slice(&words[at..at + N]);
    row
}

// The state that has these words.
fn state_of(words: &[u64]) -> Sampler
    requires { length words.now ≡ 220 }
    ensures { result ≡ from_words words.now }
{
    Sampler {
        family: words[0],
        axes: words[1] as usize,
        bases: part(words, 2),
        polynomials: part(words, 8),
        directions: part(words, 14),
        starts: part(words, 206),
        count: words[212],
        taken: words[213],
        numerators: part(words, 214),
    }
}

// The state with a word set, by its place from 0.
pub fn poke(s: Sampler, place: usize, value: u64) -> Sampler
    requires { place < 220 }
    ensures { result ≡ poked s place value }
{
    let mut words = words_of(s);
    words[place] = value;
    state_of(&words)
}
