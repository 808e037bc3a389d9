//! Goes over the input from entry to entry.
ghost use Rattle.std.specs.Prelude.{◌≡◌, ◌+◌, ◌^◌, ◌<◌, ◌≤◌, length};
ghost use Rattle.reading.specs.Standing.{start, Passes};

use std::marker::Model;

// `at` is where the next entry begins, and `passed` is how many entries stand before it. Each of those has
// two bytes at least, so their count is well within a `usize`.
// The whole input with a place in it, and not what is left alone: the rule for readers here is a position in the input.
#[derive(Drop)]
pub struct Reader<'a> {
    input: &'a [u8],
    at: usize,
    passed: usize,
}

impl<'a> Model for Reader<'a> {
    ghost use Rattle.std.specs.Prelude.{◌+◌, ◌≤◌, length, drop};
    ghost use Rattle.reading.specs.Standing.{Standing};

    ghost Value = { Standing };

    ghost view = { λ r. record { left = drop r.at r.input.now; place = r.at; passed = r.passed } };

    ghost invariant = { λ r. (r.at ≤ length r.input.now) × (r.passed + r.passed ≤ r.at) };
}

impl<'a> Reader<'a> {
    pub fn new(input: &'a [u8]) -> Reader<'a>
        ensures { result ≡ start input.now }
    {
        Reader {
            input,
            at: 0,
            passed: 0,
        }
    }

    // What is not read yet.
    pub fn rest(&self) -> &'a [u8]
        ensures { result.now ≡ self.now.left }
    {
        &self.input[self.at..]
    }

    // The number of the next entry, counted from 1.
    pub fn number(&self) -> usize
        ensures number { result ≡ self.now.passed + 1 }
        ensures few { self.now.passed + self.now.passed ≤ self.now.place }
    {
        self.passed + 1
    }

    // Where the next entry begins, counted from 0. What stands before it and what is left are one input, which lies in
    // memory, so their bytes together are a number of the machine.
    pub fn place(&self) -> usize
        ensures place { result ≡ self.now.place }
        ensures within { self.now.place + length self.now.left < 2 ^ 63 }
    {
        self.at
    }

    // Goes past an entry of n bytes, its kind among them. It stays where it is if n bytes are no entry or
    // are not left. A yes or a no says all: a reader has no fault to tell, and its caller has the bytes.
    pub fn pass(&mut self, n: usize) -> bool
        ensures { Passes n self.old self.new result }
    {
        if n < 2 || self.rest().len() < n {
            return false;
        }
        self.at += n;
        self.passed += 1;
        true
    }
}
