//! Loads the sheet of each line of standard input and stores it again, and prints both answers: the refusals by their
//! numbers, for every kind of weight. A line names the kind, the cells of the strip, how many of them are lent to the
//! store, the bytes of the buffer and the input in hexadecimal; a line that begins with '#' is repeated. In the place of
//! a kind, `program` has the work of `weigh-length` done on the input, repeated as often as the first number says.
#![tactic(auto)]

use codec::coded::Coded;
use drafts::draft::Draft;
use facts::weight::Facts;
use lengths::weight::Length;
use lines::Lines;
use loading::load::load;
use pairs::pair::Pair;
use program::run::run;
use relations::weight::Relation;
use squares::square::Square;
use std::alloc::{AllocError, Global};
use std::io::{BufRead, BufReader};
use storing::store::store;
use weights::weight::Weight;

// What a line asks for.
#[derive(Drop)]
struct Case {
    // The cells of the strip, or how often the input is repeated.
    count: usize,
    lent: usize,
    buffer: usize,
    input: Vec<u8>,
}

// By hand, since all but these bytes count as 0: `to_digit(16)` takes capitals too, and the crate `hex` refuses.
fn digit(byte: u8) -> u8 {
    match byte {
        b'0'..=b'9' => byte - b'0',
        b'a'..=b'f' => byte - b'a' + 10,
        _ => 0,
    }
}

// The bytes that pairs of digits spell; a last digit alone spells none.
fn bytes(heap: Global, text: &str) -> Result<Vec<u8>, AllocError> {
    let (pairs, _) = text.as_bytes().as_chunks::<2>();
    pairs
        .iter()
        .map(|[high, low]| (digit(*high) << 4) | digit(*low))
        .collect(heap)
}

// The number that a word spells, or 0.
fn number(word: Option<&str>) -> usize {
    word.and_then(|word| word.parse().ok()).unwrap_or(0)
}

// The answer of a load of the case's input into a new draft, and of a store of that draft, with the whole buffer.
fn loaded_and_stored<W: Coded>(rt: &(impl AllocGlobal + Print), case: &Case) -> anyhow::Result<()> {
    let heap = rt.alloc();
    let mut draft = Draft::new(heap)?;
    let mut strip = vec![in heap; W::zero(); case.count]?;
    match load(&mut draft, &mut strip, &case.input) {
        Ok(used) => println!(rt; "loaded {used}")?,
        Err(fault) => println!(rt; "{fault}")?,
    }
    let mut out = vec![in heap; 0xee; case.buffer]?;
    let lent = case.lent.min(strip.len());
    match store(&draft, &strip[..lent], &mut out) {
        Ok(used) => print!(rt; "stored {used}")?,
        Err(fault) => print!(rt; "refused {}", fault.number())?,
    }
    for byte in &out {
        print!(rt; " {byte:02x}")?;
    }
    println!(rt)?;
    Ok(())
}

// What `weigh-length` prints of the case's input, which is repeated.
fn reported(rt: &(impl AllocGlobal + Print), case: &Case) -> anyhow::Result<()> {
    let heap = rt.alloc();
    let input = case.input.repeat(heap, case.count)?;
    let answer = run::<Length>(heap, &input)?;
    print!(rt; "{}", Lines(&answer))?;
    Ok(())
}

// By a match on the name, since the weights of each kind are a type of their own.
fn answered(rt: &(impl AllocGlobal + Print), kind: &str, case: &Case) -> anyhow::Result<()> {
    match kind {
        "program" => reported(rt, case),
        "length" => loaded_and_stored::<Length>(rt, case),
        "relation" => loaded_and_stored::<Relation>(rt, case),
        "facts" => loaded_and_stored::<Facts>(rt, case),
        "pair" => loaded_and_stored::<Pair<Length, Facts>>(rt, case),
        "square" => loaded_and_stored::<Square<Length>>(rt, case),
        _ => loaded_and_stored::<Square<Pair<Length, Relation>>>(rt, case),
    }
}

fn line(rt: &(impl AllocGlobal + Print), text: &str) -> anyhow::Result<()> {
    if text.starts_with('#') {
        println!(rt; "{text}")?;
        return Ok(());
    }
    let mut words = text.split(' ');
    let kind = words.next().unwrap_or("");
    let case = Case {
        count: number(words.next()),
        lent: number(words.next()),
        buffer: number(words.next()),
        input: bytes(rt.alloc(), words.next().unwrap_or(""))?,
    };
    answered(rt, kind, &case)
}

fn main(rt: HostRuntime) -> anyhow::Result<()> {
    for text in BufReader::new(rt.alloc(), rt.stdin())?.lines(rt.alloc()) {
        line(&rt, &text?)?;
    }
    Ok(())
}
